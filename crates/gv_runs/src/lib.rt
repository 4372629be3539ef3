//! The machine of a package, as a machine whose runs are told: of a program, in the setting that a specification gives it.
#![tactic(auto)]

mod laws;

pub use laws::{packages, worked};
