//! Why a rule gives nothing.

ghost use Rattle.std.specs.Prelude.{◌≡◌};
ghost use Rattle.gv_certs.specs.declared.fault.RuleFault.TheVariants as fault;

use crate::cause::Cause;
use gv_base::NoMemory;
use std::alloc::{AllocError, AllocFailed};
use thiserror::Error;

/// Why a rule gives nothing: memory was refused, or one of its premises fails, and this is the cause of the first that does.
/// This project's own.
#[derive(Debug, PartialEq, Eq, Drop, Error)]
pub enum RuleFault {
    #[error("out of memory")]
    NoMemory,
    #[error("a premise fails")]
    Cause(Cause),
}

impl From<NoMemory> for RuleFault {
    ghost from_gives = { λ _ e. e ≡ fault.NoMemory };

    fn from(_e: NoMemory) -> RuleFault {
        RuleFault::NoMemory
    }
}

impl From<AllocError> for RuleFault {
    ghost from_gives = { λ _ e. e ≡ fault.NoMemory };

    fn from(_e: AllocError) -> RuleFault {
        RuleFault::NoMemory
    }
}

impl<T: Drop> From<AllocFailed<T>> for RuleFault {
    ghost from_gives = { λ _ e. e ≡ fault.NoMemory };

    fn from(_e: AllocFailed<T>) -> RuleFault {
        RuleFault::NoMemory
    }
}
