//! Whole runs: a call that starts keeps the invariant too, so it holds in every state that a list of events leads to.
#![tactic(auto)]

mod laws;

pub use laws::{calls_are_kept, runs_are_explained};
