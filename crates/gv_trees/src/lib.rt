//! Finite maps from words whose copies share what they hold.
#![tactic(auto)]

mod balance;
mod change;
mod item;
mod look;
mod map;
mod tree;

pub use item::Item;
pub use map::FiniteMap;
