//! Expressions over locals.

/// An operator on one value. This project's own, after the Go specification, "Operators".
#[derive(Clone, Copy, Debug, PartialEq, Eq)]
pub enum Unary {
    Not,
    Complement,
}

/// An operator on two values. `Equal` takes two values of one kind; a shift by 64 or more gives 0;
/// arithmetic goes around at 2^64. This project's own, after the Go specification, "Operators".
#[derive(Clone, Copy, Debug, PartialEq, Eq)]
pub enum Binary {
    Or,
    And,
    Equal,
    Less,
    AtMost,
    Plus,
    Minus,
    BitOr,
    BitXor,
    Times,
    ShiftLeft,
    ShiftRight,
    BitAnd,
    BitClear,
}

/// An expression over the locals of a procedure, which reads no heap and neither divides nor takes
/// a remainder. A local is named by its place in the procedure's list. This project's own.
#[derive(Debug, PartialEq, Eq, Drop)]
pub enum Pure {
    Word(u64),
    Bool(bool),
    Nil,
    NilSlice,
    Local(u32),
    Unary(Unary, Box<Pure>),
    Binary(Binary, Box<Pure>, Box<Pure>),
}
