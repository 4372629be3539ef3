//! What a package declares, but the values of its constants: the tables that a walk over its bodies asks, filled from the heads of
//! its declarations, and the faults of names, structs and methods.
#![tactic(auto)]

mod known;
mod procedures;

pub use known::{Known, known_at, known_of};
