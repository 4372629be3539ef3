//! Rows of the tables.

use crate::span::Span;
use gv_gotypes::Entity;
use gv_operands::GoType;

/// A name of the package where it stands in the text, and what it stands for.
#[derive(Clone, Copy, Debug)]
pub struct NameRow {
    pub name: Span,
    pub entity: Entity,
}

/// A field of a struct: its name where it stands in the text, and its type, which a refused one hasn't.
#[derive(Clone, Copy, Debug)]
pub struct FieldRow {
    pub name: Span,
    pub kind: Option<GoType>,
}

/// A method of a struct: its name where it stands in the text, and its number among the procedures.
#[derive(Clone, Copy, Debug)]
pub struct MethodRow {
    pub name: Span,
    pub procedure: u32,
}

/// What a name stands for behind a pointer to a struct.
#[derive(Clone, Copy, Debug)]
pub enum MemberRow {
    Field(Option<GoType>),
    Method(u32),
}
