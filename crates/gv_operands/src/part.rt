//! Operands where they stand, and what a place wants of them.

use crate::types::{Class, GoType};

/// Where an operand begins, by the bytes of the text before it: with its own parentheses, and without them.
#[derive(Clone, Copy, Debug, PartialEq, Eq)]
pub struct Spot {
    pub start: u32,
    pub inner: u32,
}

/// An operand where it stands, and what it is, if anything: one with a fault in it is nothing.
#[derive(Clone, Copy, Debug, PartialEq, Eq)]
pub struct Part {
    pub spot: Spot,
    pub class: Option<Class>,
}

/// What a place wants: an operand of a type, one that has any type by itself, a slice or a map, which `nil` is not, or
/// nothing that is known.
#[derive(Clone, Copy, Debug, PartialEq, Eq)]
pub enum Want {
    Exactly(GoType),
    AnyTyped,
    ASlice,
    AMap,
    Unknown,
}
