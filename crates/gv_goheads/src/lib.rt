//! The heads of a package's declarations: what each declares, without bodies and values, by the nodes of its tree.
//!
//! A walk over a tree takes lists from their end. Heads stand in order of text, so that what goes over declarations more than once
//! needs no nodes.
#![tactic(auto)]

mod counts;
mod head;
mod heads;
mod lists;

pub use counts::{Counted, Naming};
pub use head::{FuncHead, Head};
pub use heads::{head_at, heads_at};
pub use lists::{groups_at, imports_at, names_at, types_at};
