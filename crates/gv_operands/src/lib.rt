//! What operands of packages are, and what operators make of them.
//!
//! `specs/Types` has the types, `specs/Operators` what each operator makes of two operands, by what these are.
#![tactic(auto)]

mod constants;
mod operators;
mod part;
mod types;

pub use operators::{binary, is_fixed, takes_word, to_byte, to_word, unary};
pub use part::{Part, Spot, Want};
pub use types::{Base, Class, GoType, Kind, Value, has_nil, indexed, item_of, own_type, same_type};
