//! What a package declares.

use gv_gonames::{NameTable, StructTable};
use gv_operands::{Class, GoType};

/// What a function or a method takes and gives. A refused type is none.
#[derive(Drop)]
pub struct Procedure {
    pub params: Vec<Option<GoType>>,
    pub results: Vec<Option<GoType>>,
}

/// Names, structs, procedures and constants of a package: what a name stands for, and, by the numbers that it stands for, the
/// rest. A refused constant has no class.
#[derive(Drop)]
pub struct Declared<'a> {
    pub names: NameTable<'a>,
    pub structs: Vec<StructTable<'a>>,
    pub procedures: Vec<Procedure>,
    pub constants: Vec<Option<Class>>,
}
