//! Formulas as steps that make terms.

use gv_terms::Operator;

/// A step that makes a term, on a stack of terms. A formula is its steps, each operator behind its parts. Places of parts
/// count from 0. This project's own.
#[derive(Clone, Copy, Debug)]
pub enum Step {
    /// The part at a place.
    Part(u8),
    /// How many copies the maker at a place makes, as a number.
    Literal(u8),
    /// What the maker at a place copies.
    Copied(u8),
    /// The zero of what the list or map at a place holds.
    Zero(u8),
    /// An operator over as many of the last terms.
    Apply(Operator, u8),
}
