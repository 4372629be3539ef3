//! The numbers of a script's commands and their places, from the nodes of its tree.
//!
//! Which commands are numbered, and in which order, is told of trees in gv_scriptnumbers. `numbers` finds the bytes at which they begin
//! in one pass over the nodes, and `places` their lines and columns.
#![tactic(auto)]

mod numbers;
mod places;

pub use numbers::numbered;
pub use places::places_of;
