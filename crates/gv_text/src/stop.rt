//! Faults at bytes.

ghost use Rattle.std.specs.Prelude.{◌≡◌};
ghost use Rattle.gv_text.specs.declared.stop.Stop.TheVariants as stop;

use gv_base::{Code, NoMemory};
use std::alloc::AllocError;
use thiserror::Error;

/// Why reading stops: memory was refused, or there is a fault at a byte, by a code. This project's own.
#[derive(Debug, Drop, Error)]
pub enum Stop {
    #[error("out of memory")]
    NoMemory,
    #[error("there is a fault")]
    At(u32, Code),
}

impl From<NoMemory> for Stop {
    ghost from_gives = { λ _ e. e ≡ stop.NoMemory };

    fn from(_e: NoMemory) -> Stop {
        Stop::NoMemory
    }
}

impl From<AllocError> for Stop {
    ghost from_gives = { λ _ e. e ≡ stop.NoMemory };

    fn from(_e: AllocError) -> Stop {
        Stop::NoMemory
    }
}
