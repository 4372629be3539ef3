//! What a script declares.

use crate::atom::{RawAtom, RawInst};
use gv_base::{List, Name};
use gv_terms::{RawTerm, Sort, Var};

/// What stands in a heap that a script writes: a formula, or what is owned. This project's own.
#[derive(Debug, Drop)]
pub enum Item {
    Atom(RawAtom),
    Fact(RawTerm),
}

/// A case of a predicate: its own variables, and what it says of them and of the predicate's parameters. This project's own.
#[derive(Debug, Drop)]
pub struct Case {
    pub vars: List<Var>,
    pub items: List<Item>,
}

/// A predicate: one of its cases holds. It names earlier predicates alone. This project's own.
#[derive(Debug, Drop)]
pub struct Pred {
    pub name: Name,
    pub params: List<Var>,
    pub cases: List<Case>,
}

/// A book of the proof: so many cells of one sort, which begin with one term that has no variable. This project's own.
#[derive(Debug, Drop)]
pub struct Book {
    pub name: Name,
    pub sort: Sort,
    pub count: u32,
    pub first: RawTerm,
}

/// What a block of a procedure declares: the procedure by its place in the program, in own mode what a crash must find, its variables,
/// what it is given, the names of its results, and what it owes of them. This project's own.
#[derive(Debug, Drop)]
pub struct ProcDecl {
    pub proc: u32,
    pub own: Option<RawInst>,
    pub vars: List<Var>,
    pub pre: List<Item>,
    pub results: List<Name>,
    pub post: List<Item>,
}

/// What a script declares. The predicates are numbered by their places; those that every script has stand before its own: `BlockLease`,
/// then `BookLease.B` of each book B in order. `crash` and `root` are such numbers. This project's own.
#[derive(Debug, Drop)]
pub struct Decls {
    pub preds: List<Pred>,
    pub books: List<Book>,
    pub crash: u32,
    pub root: u32,
    pub procs: List<ProcDecl>,
}
