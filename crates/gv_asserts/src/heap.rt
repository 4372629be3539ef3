//! What a path of a proof knows where it stands.

use crate::atoms::Atoms;
use gv_base::List;
use gv_commands::Inst;
use gv_known::Facts;
use gv_terms::{Scope, Term};

/// Whether recovery owns all that survived a crash, is about to share it, or has shared it. This project's own.
#[derive(Clone, Copy, Debug, PartialEq, Eq)]
pub enum Mode {
    Own,
    Sharing,
    Shared,
}

/// Whether the crash invariant is opened, which serves one step. This project's own.
#[derive(Clone, Copy, Debug, PartialEq, Eq)]
pub enum Bracket {
    Closed,
    Opened,
    Used,
}

/// A point of a program: the procedure by its place, and the number of the command in it, from 1 on. This project's own.
#[derive(Clone, Copy, Debug, PartialEq, Eq)]
pub struct At {
    pub proc: u32,
    pub point: u32,
}

/// The state of a path. Its terms are those of one store. This project's own.
#[derive(Drop)]
pub struct Heap {
    /// Where the path stands; moves alone need no point.
    pub at: Option<At>,
    /// The terms of the procedure's locals, in their order; of one without a term nothing is known.
    pub locals: List<Option<Term>>,
    pub vars: Scope,
    pub facts: Facts,
    pub atoms: Atoms,
    pub mode: Mode,
    pub bracket: Bracket,
    /// Whether recovery has run boot.
    pub booted: bool,
    /// Whether a step was made since the block began.
    pub stepped: bool,
    /// In own mode the crash block that stands, by the number of its command; 0 is the empty one.
    pub standing: u32,
    /// In own mode what a crash must find.
    pub crash: Option<Inst<Term>>,
}
