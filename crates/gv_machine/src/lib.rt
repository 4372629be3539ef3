//! The machine of a package as it runs: events, one after another, and the history that they leave.
#![tactic(auto)]

mod arguments;
mod calls;
mod ending;
mod machine;
mod outcome;
mod replies;
mod run;
mod running;
mod threads;

pub use gv_spec::{Entry, Event};
pub use machine::Machine;
pub use outcome::Outcome;
