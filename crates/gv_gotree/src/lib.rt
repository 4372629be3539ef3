//! The text of a Go package, read.
#![tactic(auto)]

mod method;
mod small_package;

pub use small_package::read_small_package;
