//! Numbers that lead back to themselves, by the rows of those that each of them names.
#![tactic(auto)]

mod back;
mod spread;

pub use back::leads_back;
