//! Declarations and commands of proof scripts whose names are resolved. Terms stand in them as they were read.
#![tactic(auto)]

mod atom;
mod command;
mod decls;

pub use atom::{Atom, Each, Inst, RawAtom, RawInst, Simple};
pub use command::{Arm, Arms, Block, Command, Halves, Hole, Numbered};
pub use decls::{Book, Case, Decls, Item, Pred, ProcDecl};
