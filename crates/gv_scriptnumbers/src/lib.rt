//! Numbers of a script's commands: definitions alone, over the trees of gv_scriptsyntax.
//!
//! `specs/Numbers` has the commands in the order of the text with the bytes at which they begin, and the places of the numbers;
//! `specs/Constructs` what each construct has of them, and `specs/Rows` worked scripts.
#![tactic(auto)]

mod laws;

pub use laws::{numbered_by_constructs, worked_numbers};
