//! Reads lists of tokens exactly, by a grammar that is data: one engine, proved once, for every grammar whose table
//! passes a check.
//!
//! A caller hands over the class of each token, a number from 1 on. A derivation is a list of steps: the next token is
//! taken, or an act is due. Acts from `FIRST_ACT` on are the caller's, to build a tree by; those below are marks for the
//! levels of nesting. docs/grammar.md tells how a language is made of this.
#![tactic(auto)]

mod derivation;
mod faults;
mod grammars;
mod levels;
mod read_faults;
mod reading;
mod steps;
mod symbols;

pub use derivation::{Run, derive, longest};
pub use faults::Fault;
pub use grammars::Grammar;
pub use levels::{FIRST_ACT, OPEN, OPEN_BEFORE, RESTORE, SAVE, first_deep};
pub use read_faults::ReadFault;
pub use reading::{DerivedRun, derive_within, longest_within};
pub use steps::Step;
pub use symbols::Symbol;
