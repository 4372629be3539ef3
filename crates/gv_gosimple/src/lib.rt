//! Walks over simple statements: assignments, definitions, `x++`, `x op= e` and calls, by the nodes of a package's tree.
//!
//! What is found in them, and what they declare, is defined in gv_gotypes. Of what is found a walk knows the one fault that is told.
#![tactic(auto)]

mod assigns;
mod declares;
mod definitions;
mod given;
mod places;
mod rights;
mod sides;
mod simple;
mod targets;

pub use places::places_at;
pub use rights::{results_fault, right_fault};
pub use sides::{Side, side_at};
pub use simple::{declare_simple, simple_fault};
