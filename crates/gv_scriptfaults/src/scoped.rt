//! What names stand for.

use crate::names::{NameSet, Table};
use gv_base::List;

/// How many parameters a predicate has, and whether it has one alone, a reference.
#[derive(Clone, Copy, Debug, PartialEq, Eq)]
pub struct Params {
    pub count: u64,
    pub is_one_ref: bool,
}

/// The fields and operations of a specification, these with the number of their parameters, and of a program the cells, the facts of
/// the procedures, and the places of these by their names and, of operations, by those of their methods.
#[derive(Drop)]
pub struct Known {
    pub fields: NameSet,
    pub ops: Table<u64>,
    pub cells: NameSet,
    pub facts: List<ProcFacts>,
    pub procs: Table<usize>,
    pub methods: Table<usize>,
}

/// The predicates and the books that may be named.
#[derive(Drop)]
pub struct Outside {
    pub preds: Table<Params>,
    pub books: NameSet,
}

/// What a script may say of a procedure: how many points it has, at most those that u64 can number, the names of its locals and of
/// its parameters, and how many results it has.
#[derive(Drop)]
pub struct ProcFacts {
    pub points: u64,
    pub locals: NameSet,
    pub params: NameSet,
    pub results: u64,
}
