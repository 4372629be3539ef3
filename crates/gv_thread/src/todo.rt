//! What a frame has still to do.

ghost use Rattle.std.specs.Prelude.{◌≡◌, ◌+◌, ◌<◌, [], ◌∷◌, ◌++◌, length, IfOk, OnOk, OnErr, IfSome, IsNone, option_map, if◌then◌else◌};
ghost use Rattle.std.specs.Bool.{OnFalse};
ghost use Rattle.gv_lang.specs.Plain.{tree_of, body_of};
ghost use Rattle.gv_lang.specs.Todo.{Todo as Items, Mark, put, head, left, repeated};
ghost use Rattle.gv_thread.specs.Parts.{placed, placed_if, up_to, after_head, Passes};

use gv_base::NoMemory;
use gv_lang::Cmd;
use std::alloc::Global;

/// A part of what is to do: a command and those after it in its block, or the mark of a loop with
/// the loop's body. This project's own.
#[derive(Clone, Copy, Drop)]
pub enum Part<'p> {
    Run(&'p Cmd, &'p [Cmd]),
    Mark(&'p [Cmd]),
}

/// What a frame has still to do, the last part first. It names places of the program, so a step that
/// enters a block copies no command. This project's own.
#[derive(Drop)]
pub struct Todo<'p> {
    pub parts: Vec<Part<'p>>,
}

impl<'p> Todo<'p> {
    ghost use Rattle.gv_thread.specs.Parts.{todo_of};

    /// A block's commands.
    #[tactic(auto, using(crate::proofs::Parts::parts))]
    pub fn of(alloc: Global, block: &'p [Cmd]) -> Result<Todo<'p>, NoMemory>
        ensures { IfOk result (λ t. todo_of t ≡ put (body_of block.now) []) }
    {
        let mut parts = Vec::new(alloc);
        if let [first, rest @ ..] = block {
            parts.push(Part::Run(first, rest))?;
        }
        Ok(Todo { parts })
    }

    /// The next command, where there is one.
    #[tactic(auto, using(crate::proofs::Parts::parts))]
    pub fn head(&self) -> Option<&'p Cmd>
        ensures { option_map (λ c. tree_of c.now) result ≡ head (todo_of self.now) }
    {
        let count = self.parts.len();
        if count == 0 {
            return None;
        }
        next_of(self.parts[count - 1])
    }

    /// The next command is done.
    #[tactic(auto, using(crate::proofs::Parts::parts))]
    pub fn advance(&mut self)
        ensures { todo_of self.new ≡ after_head (todo_of self.old) }
    {
        let count = self.parts.len();
        if count == 0 {
            return;
        }
        match advanced(self.parts[count - 1]) {
            Some(part) => self.parts[count - 1] = part,
            None => self.parts.truncate(count - 1),
        }
    }

    /// A block's commands come in place of the next command.
    pub fn take(&mut self, block: &'p [Cmd]) -> Result<(), NoMemory>
        ensures ok { OnOk result (todo_of self.new ≡ put (body_of block.now) (after_head (todo_of self.old))) }
        ensures kept { OnErr result (todo_of self.new ≡ todo_of self.old) }
    {
        if let [first, rest @ ..] = block {
            self.put(Part::Run(first, rest))
        } else {
            self.advance();
            Ok(())
        }
    }

    // A part comes in place of the next command.
    #[tactic(auto, using(crate::proofs::Parts::parts))]
    fn put(&mut self, part: Part<'p>) -> Result<(), NoMemory>
        ensures ok { OnOk result (todo_of self.new ≡ placed (after_head (todo_of self.old)) part.entry) }
        ensures kept { OnErr result (todo_of self.new ≡ todo_of self.old) }
    {
        let count = self.parts.len();
        if count == 0 {
            self.parts.push(part)?;
            return Ok(());
        }
        match advanced(self.parts[count - 1]) {
            Some(left) => {
                self.parts.push(part)?;
                self.parts[count - 1] = left;
            }
            None => self.parts[count - 1] = part,
        }
        Ok(())
    }

    /// A loop's body comes in place of the next command, before the loop's mark.
    #[tactic(auto, using(crate::proofs::Parts::parts))]
    pub fn enter(&mut self, body: &'p [Cmd]) -> Result<(), NoMemory>
        ensures ok { OnOk result (todo_of self.new ≡ put (body_of body.now) (Mark (body_of body.now) ∷ after_head (todo_of self.old))) }
        ensures kept { OnErr result (todo_of self.new ≡ todo_of self.old) }
    {
        let mark = Part::Mark(body);
        let [first, rest @ ..] = body else {
            return self.put(mark);
        };
        self.put_both(mark, Part::Run(first, rest))
    }

    // Two parts come in place of the next command, the second one first.
    #[tactic(auto, using(crate::proofs::Parts::parts))]
    fn put_both(&mut self, low: Part<'p>, high: Part<'p>) -> Result<(), NoMemory>
        ensures ok { OnOk result (todo_of self.new ≡ placed (placed (after_head (todo_of self.old)) low.entry) high.entry) }
        ensures kept { OnErr result (todo_of self.new ≡ todo_of self.old) }
    {
        let count = self.parts.len();
        if count == 0 {
            return self.push_both(low, high);
        }
        match advanced(self.parts[count - 1]) {
            Some(left) => {
                self.push_both(low, high)?;
                self.parts[count - 1] = left;
            }
            None => {
                self.parts.push(high)?;
                self.parts[count - 1] = low;
            }
        }
        Ok(())
    }

    // Appends both parts or none.
    fn push_both(&mut self, low: Part<'p>, high: Part<'p>) -> Result<(), NoMemory>
        ensures ok { OnOk result (self.new.parts.items ≡ self.old.parts.items ++ low.entry ∷ high.entry ∷ []) }
        ensures kept { OnErr result (self.new.parts.items ≡ self.old.parts.items) }
    {
        let count = self.parts.len();
        self.parts.push(low)?;
        if self.parts.push(high).is_err() {
            self.parts.truncate(count);
            return Err(NoMemory);
        }
        Ok(())
    }

    /// Leaves the innermost loop, where there is one, and answers whether there is.
    #[tactic(auto, using(crate::proofs::Parts::parts))]
    pub fn leave(&mut self) -> bool
        ensures left { left (todo_of self.old) ≡ (if result then Some (todo_of self.new) else None) }
        ensures kept { OnFalse result (todo_of self.new ≡ todo_of self.old) }
    {
        match self.innermost() {
            Some((at, _)) => {
                self.parts.truncate(at);
                true
            }
            None => false,
        }
    }

    /// Repeats the innermost loop, where there is one, and answers whether there is.
    #[tactic(auto, using(crate::proofs::Parts::parts))]
    pub fn repeat(&mut self) -> Result<bool, NoMemory>
        ensures repeated { IfOk result (λ found. repeated (todo_of self.old) ≡ (if found then Some (todo_of self.new) else None)) }
        ensures kept { IfOk result (λ found. OnFalse found (todo_of self.new ≡ todo_of self.old)) }
        ensures refused { OnErr result (todo_of self.new ≡ todo_of self.old) }
    {
        let Some((at, body)) = self.innermost() else {
            return Ok(false);
        };
        let [first, rest @ ..] = body else {
            self.parts.truncate(at + 1);
            return Ok(true);
        };
        let part = Part::Run(first, rest);
        if at + 1 < self.parts.len() {
            self.parts[at + 1] = part;
            self.parts.truncate(at + 2);
        } else {
            self.parts.push(part)?;
        }
        Ok(true)
    }

    // The place of the innermost loop's mark, and the loop's body.
    #[tactic(auto, using(crate::proofs::Parts::parts))]
    fn innermost(&self) -> Option<(usize, &'p [Cmd])>
        ensures left { left (todo_of self.now) ≡ option_map (λ found. up_to self.now found.0) result }
        ensures repeated { repeated (todo_of self.now) ≡ option_map (λ found. put (body_of found.1.now) (up_to self.now (found.0 + 1))) result }
        ensures mark { IfSome result (λ found. up_to self.now (found.0 + 1) ≡ Mark (body_of found.1.now) ∷ up_to self.now found.0) }
        ensures within { IfSome result (λ found. found.0 < length self.now.parts.items) }
    {
        let mut count = self.parts.len();
        while count > 0 {
            if let Some(body) = body_at(self.parts[count - 1]) {
                return Some((count - 1, body));
            }
            count -= 1;
        }
        None
    }
}

// The body of a loop, of its mark.
#[tactic(auto, using(crate::proofs::Parts::passing))]
fn body_at<'p>(part: Part<'p>) -> Option<&'p [Cmd]>
    ensures mark { IfSome result (λ body. (below : Items) → placed below part.entry ≡ Mark (body_of body.now) ∷ below) }
    ensures other { IsNone result → (below : Items) → Passes below (placed below part.entry) }
{
    match part {
        Part::Run(_, _) => None,
        Part::Mark(body) => Some(body),
    }
}

// The command of a part that isn't the mark of a loop.
fn next_of<'p>(part: Part<'p>) -> Option<&'p Cmd>
    ensures { (below : Items) → option_map (λ c. tree_of c.now) result ≡ head (placed below part.entry) }
{
    match part {
        Part::Run(first, _) => Some(first),
        Part::Mark(_) => None,
    }
}

// What is left of a part without its command.
fn advanced<'p>(part: Part<'p>) -> Option<Part<'p>>
    ensures { (below : Items) → placed_if below result ≡ after_head (placed below part.entry) }
{
    match part {
        Part::Run(_, [next, tail @ ..]) => Some(Part::Run(next, tail)),
        Part::Run(_, []) => None,
        Part::Mark(body) => Some(Part::Mark(body)),
    }
}
