//! What names stand for.

use gv_operands::GoType;

/// A package that may be imported; `primitive` is another name of `machine`.
#[derive(Clone, Copy, Debug, PartialEq, Eq)]
pub enum Library {
    Sync,
    Disk,
    TwoDisk,
    Machine,
}

/// What a name stands for. Structs, constants and procedures have the numbers of their declarations among those of their
/// kind, in order of text; a method is a procedure. A variable is known by the byte at which its name is declared, and has
/// no type where that is refused.
#[derive(Clone, Copy, Debug, PartialEq, Eq)]
pub enum Entity {
    Imported(Library),
    StructOf(u32),
    ConstantOf(u32),
    ProcedureOf(u32),
    Variable(u32, Option<GoType>),
}

/// What a name stands for where it is used, and whether a literal behind `go` begins between its declaration and there.
#[derive(Clone, Copy, Debug, PartialEq, Eq)]
pub struct Found {
    pub entity: Entity,
    pub is_outer: bool,
}
