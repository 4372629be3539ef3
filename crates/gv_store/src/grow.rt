//! Why a store can't grow.

ghost use Rattle.std.specs.Prelude.{◌≡◌};
ghost use Rattle.gv_store.specs.declared.grow.Grow.TheVariants as grow;

use gv_base::NoMemory;
use std::alloc::{AllocError, AllocFailed};
use thiserror::Error;

/// Why a store can't grow: memory was refused, or there would be more than 2^24 live cells.
/// This project's own.
#[derive(Clone, Copy, Debug, PartialEq, Eq, Error)]
pub enum Grow {
    #[error("out of memory")]
    NoMemory,
    #[error("too many live cells")]
    TooMany,
}

impl From<AllocError> for Grow {
    ghost from_gives = { λ _ e. e ≡ grow.NoMemory };

    fn from(_e: AllocError) -> Grow {
        Grow::NoMemory
    }
}

impl<T: Drop> From<AllocFailed<T>> for Grow {
    ghost from_gives = { λ _ e. e ≡ grow.NoMemory };

    fn from(_e: AllocFailed<T>) -> Grow {
        Grow::NoMemory
    }
}

impl From<NoMemory> for Grow {
    ghost from_gives = { λ _ e. e ≡ grow.NoMemory };

    fn from(_e: NoMemory) -> Grow {
        Grow::NoMemory
    }
}
