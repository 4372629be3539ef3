//! Names, types and constants of packages: which of them the rules of typing allow, and where the others are refused.
//!
//! `specs/` has the rules as a table, a clause for each form of Go; `specs/Files` says what a typed package is.
#![tactic(auto)]

mod laws;
mod names;

pub use laws::{faults_silence, packages_are_typed_or_refused, worked_packages};
pub use names::{Entity, Found, Library};
