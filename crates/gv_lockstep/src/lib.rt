//! That the graph of a procedure and the steps of its frames go together.
#![tactic(auto)]

mod laws;

pub use laws::{graphs, lockstep, worked};
