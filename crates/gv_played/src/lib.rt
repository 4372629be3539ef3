//! Schedules, run on the machine of a package.
#![tactic(auto)]

mod fault;
mod laws;
mod line;
mod replaying;

pub use fault::ReplayFault;
pub use laws::schedules_are_decided;
pub use replaying::{Ran, replay};
