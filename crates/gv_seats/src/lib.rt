//! One thread of a package beside all that others own, and when a rule of a proof is sound there.
#![tactic(auto)]

mod laws;

pub use laws::{begun_writes, expression_values, seats};
