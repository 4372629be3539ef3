//! The program of a package of the small form, and its runs.
#![tactic(auto)]

mod laws;
mod program;

pub use laws::{small_programs, small_replies, worked};
pub use program::program_of;
