//! What lines hold: numbers and arguments.

use gv_base::Name;

/// A number of a line, and the byte at which it stands. This project's own.
#[derive(Clone, Copy, Debug, PartialEq, Eq)]
pub struct Number {
    pub at: u32,
    pub value: u64,
}

/// An argument or a reply as it is written.
#[derive(Debug, Drop)]
pub enum Written {
    Word(u64),
    Bool(bool),
    Bytes(Name),
    /// One byte, as often as a number says.
    Repeated { byte: u8, count: Number },
}

/// An argument or a reply, and the byte at which its first token stands. This project's own.
#[derive(Debug, Drop)]
pub struct Argument {
    pub at: u32,
    pub written: Written,
}
