//! Why there is no instance.

ghost use Rattle.std.specs.Prelude.{◌≡◌};
ghost use Rattle.gv_axioms.specs.declared.fault.AxiomFault.TheVariants as fault;

use gv_base::NoMemory;
use gv_terms::MakeFault;
use std::alloc::{AllocError, AllocFailed};
use thiserror::Error;

/// Why there is no instance of an axiom: memory was refused, or no axiom has this number and these parts, by their count,
/// their sorts or their form. This project's own.
#[derive(Debug, PartialEq, Eq, Drop, Error)]
pub enum AxiomFault {
    #[error("out of memory")]
    NoMemory,
    #[error("no axiom has this number and these parts")]
    BadAxiom,
}

impl From<NoMemory> for AxiomFault {
    ghost from_gives = { λ _ e. e ≡ fault.NoMemory };

    fn from(_e: NoMemory) -> AxiomFault {
        AxiomFault::NoMemory
    }
}

impl From<AllocError> for AxiomFault {
    ghost from_gives = { λ _ e. e ≡ fault.NoMemory };

    fn from(_e: AllocError) -> AxiomFault {
        AxiomFault::NoMemory
    }
}

impl<T: Drop> From<AllocFailed<T>> for AxiomFault {
    ghost from_gives = { λ _ e. e ≡ fault.NoMemory };

    fn from(_e: AllocFailed<T>) -> AxiomFault {
        AxiomFault::NoMemory
    }
}
