//! What is made of operands.

use crate::fault::Fault;
use gv_operands::{Class, Part};

/// What is made of an operand, nothing where it has a fault, and the fault in it that is told.
#[derive(Clone, Copy, Debug)]
pub struct Made {
    pub class: Option<Class>,
    pub first: Option<Fault>,
}

/// An operand that was walked over: where it begins, what it is, and the fault in it that is told.
#[derive(Clone, Copy, Debug)]
pub struct Operand {
    pub part: Part,
    pub first: Option<Fault>,
}
