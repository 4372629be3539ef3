//! Terms of a store, the nodes that make them, and why none is made.

ghost use Rattle.std.specs.Prelude.{◌≡◌};
ghost use Rattle.gv_terms.specs.declared.term.MakeFault.TheVariants as fault;

use crate::tree::Head;
use gv_base::{List, NoMemory};
use std::alloc::{AllocError, AllocFailed};
use thiserror::Error;

/// A term, by its number in the store that made it. This project's own.
#[derive(Clone, Copy, Debug, PartialEq, Eq)]
pub struct Term {
    pub id: u64,
}

/// A head over terms of one store. This project's own.
#[derive(Debug, PartialEq, Eq, Drop)]
pub struct Node {
    pub head: Head,
    pub parts: List<Term>,
}

/// Why a node makes no term.
#[derive(Debug, PartialEq, Eq, Drop, Error)]
pub enum MakeFault {
    #[error("out of memory")]
    NoMemory,
    #[error("a term has no sort")]
    WrongSort,
}

impl From<NoMemory> for MakeFault {
    ghost from_gives = { λ _ e. e ≡ fault.NoMemory };

    fn from(_e: NoMemory) -> MakeFault {
        MakeFault::NoMemory
    }
}

impl From<AllocError> for MakeFault {
    ghost from_gives = { λ _ e. e ≡ fault.NoMemory };

    fn from(_e: AllocError) -> MakeFault {
        MakeFault::NoMemory
    }
}

impl<T: Drop> From<AllocFailed<T>> for MakeFault {
    ghost from_gives = { λ _ e. e ≡ fault.NoMemory };

    fn from(_e: AllocFailed<T>) -> MakeFault {
        MakeFault::NoMemory
    }
}
