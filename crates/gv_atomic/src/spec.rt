//! Atomic specifications.

ghost use Rattle.std.specs.Prelude.{◌≡◌, true, IfOk};
ghost use Rattle.gv_atomic.specs.Typed.{is_typed};
ghost use Rattle.gv_atomic.specs.declared.spec.SpecFault.TheVariants as fault;

use gv_base::{List, Name, NoMemory};
use gv_terms::{Sort, Term, TermStore, Value, Var, copy_list};
use std::alloc::Global;
use thiserror::Error;

/// A field, and the term of its initial value, which has no variable.
#[derive(Debug, Drop)]
pub struct Field {
    pub name: Name,
    pub sort: Sort,
    pub leased: bool,
    pub first: Term,
}

/// A field, by its place in the list of fields, and the term of its new value.
#[derive(Clone, Copy, Debug, PartialEq, Eq)]
pub struct Assign {
    pub field: u32,
    pub term: Term,
}

/// A number that a body may choose below a bound, whose term speaks of the old fields, the arguments and
/// the earlier picks. Where the bound is 0 the number is 0.
#[derive(Debug, Drop)]
pub struct Pick {
    pub name: Name,
    pub bound: Term,
}

/// An operation: which arguments it may be called with, what it picks, what it assigns, and what it
/// replies. All assignments and the reply speak of the old fields, the arguments and the picks.
#[derive(Debug, Drop)]
pub struct Op {
    pub name: Name,
    pub params: List<Var>,
    pub allowed: Term,
    pub picks: List<Pick>,
    pub body: List<Assign>,
    pub reply: Option<Term>,
}

/// The values of the fields, in their order.
#[derive(Debug, Drop)]
pub struct State {
    pub values: List<Value>,
}

/// An atomic specification, whose terms are of its store and which is typed.
/// This project's own.
#[derive(Debug, Drop)]
pub struct Spec {
    pub disks: u32,
    /// How many blocks each disk has; 0 where there is no disk.
    pub blocks: u32,
    pub fields: List<Field>,
    pub ops: List<Op>,
    /// What a crash picks, which speaks of the old fields alone.
    pub crash_picks: List<Pick>,
    /// What becomes of the fields after a crash and the recovery from it.
    pub crash: List<Assign>,
    pub store: TermStore,
    ghost typed: { is_typed disks blocks fields ops crash_picks crash store ≡ true },
}

/// Why parts make no specification.
#[derive(Debug, Drop, Error)]
pub enum SpecFault {
    #[error("out of memory")]
    NoMemory,
    #[error("a specification is not typed")]
    Untyped,
}

impl From<NoMemory> for SpecFault {
    ghost from_gives = { λ _ e. e ≡ fault.NoMemory };

    fn from(_e: NoMemory) -> SpecFault {
        SpecFault::NoMemory
    }
}

impl State {
    /// An equal state.
    pub fn copy(&self, alloc: Global) -> Result<State, NoMemory>
        ensures { IfOk result (λ s. s ≡ self.now) }
    {
        let values = copy_list(alloc, &self.values)?;
        Ok(State { values })
    }
}
