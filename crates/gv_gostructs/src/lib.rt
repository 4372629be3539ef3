//! The structs of a package with their fields, in order of text, and the fault in them that is told.
#![tactic(auto)]

mod fields;
mod structs;

pub use structs::{StructTables, structs_of};
