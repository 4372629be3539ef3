//! Programs of GooseLang: structs, procedures and their locals.

use crate::cmd::Cmd;
use gv_base::{List, Name};

/// A program: its structs and its procedures, each named by its place, the procedure of recovery, and
/// those of the operations in the order of the text. This project's own.
#[derive(Debug, PartialEq, Eq, Drop)]
pub struct Program {
    pub structs: List<Struct>,
    pub procs: List<Proc>,
    pub recover: u32,
    pub ops: List<u32>,
}

/// A struct, and its fields in their order. This project's own.
#[derive(Debug, PartialEq, Eq, Drop)]
pub struct Struct {
    pub name: Name,
    pub fields: List<Local>,
}

/// A local of a procedure, or a field of a struct. This project's own.
#[derive(Debug, PartialEq, Eq, Drop)]
pub struct Local {
    pub name: Name,
    pub kind: LocalKind,
}

/// The kind of values of a local or a field: a word stands for `uint64` and `byte`, a reference for a
/// pointer, a mutex and a map. This project's own.
#[derive(Clone, Copy, Debug, PartialEq, Eq)]
pub enum LocalKind {
    Word,
    Bool,
    Ref,
    Slice,
}

/// What the cells of a slice hold. This project's own.
#[derive(Clone, Copy, Debug, PartialEq, Eq)]
pub enum ItemKind {
    Byte,
    Word,
    Ref,
}

/// A procedure: the first `params` locals are its parameters. This project's own.
#[derive(Debug, PartialEq, Eq, Drop)]
pub struct Proc {
    pub name: Name,
    pub params: u32,
    pub locals: List<Local>,
    pub results: List<LocalKind>,
    pub body: List<Cmd>,
}
