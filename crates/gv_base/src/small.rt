//! Packages and specifications of the small form: operations that return a Sum of their arguments.

use crate::list::List;
use crate::name::Name;

/// The operations of a package, or of a specification, in the order of its text.
/// This project's own.
#[derive(Debug, PartialEq, Eq, Drop)]
pub struct Small {
    pub ops: List<SmallOp>,
}

/// One operation: its parameters, all of 64 bits without sign, and the Sum that it returns, which
/// begins with `first` and takes each of `rest` in turn. This project's own.
#[derive(Debug, PartialEq, Eq, Drop)]
pub struct SmallOp {
    pub name: Name,
    pub params: List<Name>,
    pub first: Part,
    pub rest: List<Turn>,
}

/// What a Sum adds or takes away: the argument at a place counted from 0, or a number.
/// This project's own.
#[derive(Debug, PartialEq, Eq, Drop)]
pub enum Part {
    Param(u32),
    Number(u64),
}

/// One step of a Sum from the left: its part is added, or taken away where `minus`.
/// This project's own.
#[derive(Debug, PartialEq, Eq, Drop)]
pub struct Turn {
    pub minus: bool,
    pub part: Part,
}
