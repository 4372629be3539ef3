//! The lines of a program's points, as they are printed.
#![tactic(auto)]

mod laws;
mod lines;
mod words;

pub use laws::worked;
pub use lines::point_lines;
