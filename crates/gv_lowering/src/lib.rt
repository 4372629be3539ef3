//! What the program of a package is: definitions alone.
#![tactic(auto)]

mod laws;

pub use laws::worked_programs;
