//! The JSON form of what the program answers.
#![tactic(auto)]

mod line;

pub use line::json_line;
