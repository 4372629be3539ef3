//! What is noted of a variable.

/// A variable, known by the byte at which its name is declared, is used outside of the literal behind `go` in which it is declared,
/// at a byte of the text; or it is assigned.
#[derive(Clone, Copy, Debug, PartialEq, Eq)]
pub enum Use {
    Outer(u32, u32),
    Assigned(u32),
}
