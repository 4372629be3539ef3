//! The first fault of a script's names and counts.
//!
//! `least` keeps the least of the faults that were met, `words` tells words by their classes, `names` has sets and tables of names,
//! and `scoped` what names stand for. `declared` and `mentions` note the faults of names that are declared and used.
#![tactic(auto)]

mod bodies;
mod books;
mod counting;
mod declared;
mod known;
mod least;
mod mentions;
mod methods;
mod names;
mod ops;
mod outline;
mod outside;
mod preds;
mod procs;
mod scoped;
mod words;

pub use gv_typing::Fault;
pub use outline::first_fault;
