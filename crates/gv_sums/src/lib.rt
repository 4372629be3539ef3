//! Linear certificates, checked over terms of a store.
#![tactic(auto)]

mod checking;
mod comparison;
mod factored;
mod numbering;
mod rows;
mod summand;
mod summands;
mod unknowns;
mod whole_sums;

pub use checking::linear;
pub use factored::FactoredTerm;
