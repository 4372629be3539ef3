//! Types terms as they stand in a text: terms of a store for them, or their first fault at its place.
//!
//! What a term as it was read stands for, and which nodes are at fault, is told by gv_terms; here stand the places of the nodes
//! beside it. `resolving` has terms of any sort, and `whole_term` those that must have a given one.
#![tactic(auto)]

mod resolving;
mod term_fault;
mod whole_term;

pub use resolving::make_term;
pub use term_fault::{Fault, TermFault};
pub use whole_term::{make_plain_term, make_term_of};
