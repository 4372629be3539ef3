//! Atoms with stamps.

use gv_commands::Atom;
use gv_terms::Term;

/// An atom of a path state with its stamp, from 1 on: of two atoms the one that was added later has the greater one. This project's
/// own.
#[derive(Debug, Drop)]
pub struct Stamped {
    pub stamp: u32,
    pub atom: Atom<Term>,
}
