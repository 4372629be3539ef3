//! Explanations of histories, checked move by move.
#![tactic(auto)]

mod fault;
mod seen;
mod table;
mod walker;
mod walking;

pub use fault::{WalkCause, WalkFault};
pub use gv_spec::{Entry, Move};
pub use walking::walk;
