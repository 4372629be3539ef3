//! The lines of histories and of moves, as they are printed.
#![tactic(auto)]

mod bytes;
mod entries;
mod moves;
mod values;

pub use entries::{entry_line, entry_lines};
pub use moves::{move_line, move_lines};
