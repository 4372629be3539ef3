//! Texts of lines: histories, the moves of an explanation, and schedules.
//!
//! `what` tells what a token says, and `sight` also where it stands. `part` has the tokens that a line may have one after
//! another, and `lines` the lines of a text one after another. What lines come to under a specification is an `account`:
//! `moves` and `plan` are the two kinds, and `meaning` is what both have in common. `progress` is how far the one pass over
//! a text has come, `pass` is that pass, and `reading` has the calls.
#![tactic(auto)]

mod account;
mod argument;
mod laws;
mod line;
mod lines;
mod literal;
mod meaning;
mod moves;
mod operations;
mod part;
mod pass;
mod plan;
mod progress;
mod reading;
mod schedule;
mod sight;
mod what;

pub use gv_spec::{Entry, Event, Move};
pub use laws::first_faults;
pub use reading::{read_history, read_moves, read_schedule};
pub use schedule::{Line, Schedule};
