//! Where numbers lead, by the rows of those that each of them names: an order in which each comes behind what it names.
#![tactic(auto)]

mod order;
mod search;

pub use order::finishing_order;
