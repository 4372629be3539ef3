//! Commands as far as they are made.

ghost use Rattle.std.specs.Prelude.{◌≡◌, [], ◌∷◌, ◌++◌, IfOk, length, take};

use crate::last::Last;
use gv_base::NoMemory;
use gv_gotyped::Operand;
use gv_lang::{Cmd, LocalKind, Pure};
use std::alloc::Global;

/// The commands of a block as far as they are made, and the kinds of the temporaries that the procedure uses up to there, in order
/// of use: their number is how many are in use. This project's own.
#[derive(Drop)]
pub struct Draft {
    pub cmds: Vec<Cmd>,
    pub temps: Vec<LocalKind>,
}

/// How far a draft has come: how many commands there are, and how many temporaries.
#[derive(Clone, Copy)]
pub struct Mark {
    pub cmds: usize,
    pub temps: usize,
}

/// What is made of an operand before its place is known: what reads before its end, behind what was made before, and how it ends.
#[derive(Drop)]
pub struct Tail {
    pub draft: Draft,
    pub last: Last,
}

/// What is made of an operand that is no whole right side: what reads, behind what was made before, and an expression.
#[derive(Drop)]
pub struct Read {
    pub draft: Draft,
    pub value: Pure,
}

/// What is made of an operand, and what is known of it.
#[derive(Drop)]
pub struct KnownTail {
    pub tail: Tail,
    pub known: Operand,
}

/// What is made of an operand that is no whole right side, and what is known of it.
#[derive(Drop)]
pub struct KnownRead {
    pub read: Read,
    pub known: Operand,
}

/// What is made of a bound of a subslice, and what is known of it where it isn't left out.
#[derive(Drop)]
pub struct KnownBound {
    pub read: Read,
    pub known: Option<Operand>,
}

impl Draft {
    /// Nothing is made yet.
    pub fn new(alloc: Global) -> Draft
        ensures cmds { result.cmds.items ≡ [] }
        ensures temps { result.temps.items ≡ [] }
    {
        Draft {
            cmds: Vec::new(alloc),
            temps: Vec::new(alloc),
        }
    }

    /// How far it has come.
    pub fn mark(&self) -> Mark
        ensures cmds { result.cmds ≡ length self.now.cmds.items }
        ensures temps { result.temps ≡ length self.now.temps.items }
    {
        Mark {
            cmds: self.cmds.len(),
            temps: self.temps.len(),
        }
    }

    /// One command more.
    pub fn with_command(self, cmd: Cmd) -> Result<Draft, NoMemory>
        ensures cmds { IfOk result (λ made. made.cmds.items ≡ self.cmds.items ++ cmd ∷ []) }
        ensures temps { IfOk result (λ made. made.temps.items ≡ self.temps.items) }
    {
        let Draft { mut cmds, temps } = self;
        cmds.push(cmd)?;
        Ok(Draft { cmds, temps })
    }

    /// One temporary more in use.
    pub fn with_temporary(self, kind: LocalKind) -> Result<Draft, NoMemory>
        ensures cmds { IfOk result (λ made. made.cmds.items ≡ self.cmds.items) }
        ensures temps { IfOk result (λ made. made.temps.items ≡ self.temps.items ++ kind ∷ []) }
    {
        let Draft { cmds, mut temps } = self;
        temps.push(kind)?;
        Ok(Draft { cmds, temps })
    }

    /// As it was when it had come so far.
    pub fn back_to(self, mark: Mark) -> Draft
        ensures cmds { result.cmds.items ≡ take mark.cmds self.cmds.items }
        ensures temps { result.temps.items ≡ take mark.temps self.temps.items }
    {
        let Draft {
            mut cmds,
            mut temps,
        } = self;
        cmds.truncate(mark.cmds);
        temps.truncate(mark.temps);
        Draft { cmds, temps }
    }
}
