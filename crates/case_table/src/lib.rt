//! Tables of cases: text files whose lines a program checks one by one.
//!
//! A line is empty, a comment behind `//`, one by which the program knows what the texts below it mean, or a case
//! `NAME: TEXT => ANSWER`. The name ends at the first `: `, and the text at the first ` => ` behind it.
#![tactic(auto)]

mod escape;
mod table;

pub use escape::unescaped;
pub use table::{Meaning, check_tables};
