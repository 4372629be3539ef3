//! Walks over the operands and the types of a package, by the nodes of its tree.
//!
//! What is right, and where a fault stands, is defined in gv_gotypes. What a walk asks of the names that are seen where it
//! stands is the trait `Names`.
#![tactic(auto)]

mod names;
mod operands;
mod places;
mod types;

pub use names::Names;
pub use operands::{library_at, library_named, operand_at};
pub use places::placed_at;
pub use types::{entity_of, type_at, written_at};
