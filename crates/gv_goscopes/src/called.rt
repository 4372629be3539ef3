//! What is known of what is called, and of the keys of literals.

use gv_operands::{GoType, Want};

/// What is called takes operands of these types and gives these, in order. A type that is refused is none.
#[derive(Clone, Copy, Debug)]
pub struct Signature<'a> {
    pub params: &'a [Option<GoType>],
    pub results: &'a [Option<GoType>],
}

/// A member where it is called: what it takes and gives, or a member that is not called.
#[derive(Clone, Copy, Debug)]
pub enum Called<'a> {
    By(Signature<'a>),
    Other,
}

/// A key of a literal: what the struct's field of this name wants, and whether the struct has one. Where there is no struct
/// nothing is known, and each name may be a field.
#[derive(Clone, Copy, Debug)]
pub struct Key {
    pub wants: Want,
    pub is_field: bool,
}
