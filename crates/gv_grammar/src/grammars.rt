//! Grammars as flat tables.
ghost use Rattle.std.specs.Prelude.{◌≡◌, ◌+◌, ℕ, slice_get, IfSome, IfNone, Some};
ghost use Rattle.gv_grammar.specs.Derivation.{tables_of, row_of, takes};
ghost use Rattle.gv_grammar.specs.Predictive.{entry};

use crate::symbols::Symbol;

/// A grammar as tables. Rows lie one after another, and an array of starts has where each begins, and at last the end.
///
/// Its readers ask for `MayBegin` of the tables and a root, which a caller has by computation. Source: this project's own.
#[derive(Clone, Copy, Debug)]
pub struct Grammar {
    /// The names that a whole list may be derived from.
    pub roots: &'static [u8],
    /// By rule, the name that it is of.
    pub names: &'static [u8],
    /// The rules' rows.
    pub symbols: &'static [Symbol],
    /// By rule, where its row begins in `symbols`; one more than there are rules.
    pub starts: &'static [u16],
    /// The sets' rows of classes. Class 0 is of no token: it stands for the end.
    pub classes: &'static [u8],
    /// By set, where its row begins in `classes`; one more than there are sets.
    pub set_starts: &'static [u16],
    /// One more than the rule for a name before a class, by rows of `width`; 0 where there is none.
    pub table: &'static [u16],
    /// One more than the greatest class.
    pub width: u8,
}

/// The items of a row.
pub(crate) fn row<'a, T>(items: &'a [T], starts: &[u16], at: u16) -> &'a [T]
    ensures { result.now ≡ row_of items.now starts.now at }
{
    let from = starts.get(at as usize).copied().unwrap_or(0) as usize;
    let to = starts.get(at as usize + 1).copied().unwrap_or(0) as usize;
    let to = to.min(items.len());
    if from < to { &items[from..to] } else { &[] }
}

/// Whether a set has a class.
pub(crate) fn has(grammar: &Grammar, set: u8, class: u8) -> bool
    ensures { result ≡ takes (tables_of grammar.now) set class }
{
    row(grammar.classes, grammar.set_starts, u16::from(set)).contains(&class)
}

/// The rule for a name before a class.
pub(crate) fn rule_for(grammar: &Grammar, name: u8, class: u8) -> Option<u16>
    ensures some { IfSome result (λ rule. (slice_get grammar.now.names.now rule ≡ Some name) × (entry (tables_of grammar.now) name class ≡ rule + 1)) }
    ensures none { IfNone result
        ((rule : ℕ) → slice_get grammar.now.names.now rule ≡ Some name → entry (tables_of grammar.now) name class ≡ rule + 1 → ⊥) }
{
    let at = name as usize * grammar.width as usize + class as usize;
    let entry = grammar.table.get(at).copied().unwrap_or(0);
    if entry == 0 {
        return None;
    }
    let rule = entry - 1;
    match grammar.names.get(rule as usize) {
        Some(found) if *found == name => Some(rule),
        _ => None,
    }
}
