//! What a checker of names and types makes of each form of a package, by what it knows of the form's parts.
//!
//! What is right, and where a fault stands, is defined in gv_gotypes. A function here stands for one form: of what is known of
//! the parts it makes what is known of the whole, with the one fault of it that is told. gv_gowalk walks over a tree with them.
#![tactic(auto)]

mod fault;
mod forms;
mod kinds;
mod members;
mod names;
mod operands;
mod outcomes;
mod places;

pub use fault::{Fault, earliest};
pub use kinds::{
    WrittenType, written_block, written_map, written_pointer, written_pointers, written_slice,
    written_word,
};
pub use members::Member;
pub use names::name_operand;
pub use operands::{
    binary_operand, convert_operand, index_operand, library_operand, literal_operand,
    paren_operand, select_operand, slice_operand, unary_operand,
};
pub use outcomes::{Made, Operand};
pub use places::in_place;
