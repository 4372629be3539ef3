//! What threads share while a program runs: heap, mutexes and disks, and each access to them.
#![tactic(auto)]

mod cell;
mod laws;

pub use cell::Cell;
pub use laws::{worked, writes_end};
