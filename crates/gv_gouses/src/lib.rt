//! Walks that note how variables are used: which outer ones a literal behind `go` uses, and which are assigned, by the nodes of a
//! package's tree.
//!
//! What is found of them is defined in gv_gotypes. A walk adds it to a list, in order of text.
#![tactic(auto)]

mod calls;
mod lists;
mod noted;
mod operands;
mod sides;
mod simple;

pub use calls::{note_call, note_right};
pub use noted::Use;
pub use operands::{note_found, note_name, note_operand};
pub use simple::note_simple;
