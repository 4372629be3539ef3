//! Axioms as the table has them.

ghost use Rattle.std.specs.Prelude.{◌≡◌, slice_range};

/// Where something begins in a table, and where it ends.
#[derive(Clone, Copy, Debug)]
pub struct Span {
    pub from: u16,
    pub to: u16,
}

impl Span {
    /// The items of a table there.
    pub(crate) fn of<'a, T>(self, items: &'a [T]) -> &'a [T]
        ensures { result.now ≡ slice_range items.now self.from self.to }
    {
        let from = self.from as usize;
        let to = (self.to as usize).min(items.len());
        if from < to { &items[from..to] } else { &[] }
    }
}

/// A premise of an axiom, which is asked for always, or only where the part at a place is of sort `Bytes`.
#[derive(Clone, Copy, Debug)]
pub struct Premise {
    pub bytes: Option<u8>,
    pub steps: Span,
}

/// What the parts of an axiom have to be, its premises in order, and what they give. This project's own.
#[derive(Clone, Copy, Debug)]
pub struct Row {
    pub kinds: Span,
    pub premises: Span,
    pub conclusion: Span,
}
