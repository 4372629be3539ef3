//! Why a schedule isn't run to its end.

ghost use Rattle.std.specs.Prelude.{◌≡◌};
ghost use Rattle.gv_played.specs.declared.fault.ReplayFault.TheVariants as fault;

use gv_base::{NoMemory, Place};
use thiserror::Error;

/// Why a schedule isn't run: memory was refused, or an event of the line that begins at this place would leave
/// more than 2^24 live cells. This project's own.
#[derive(Debug, PartialEq, Eq, Drop, Error)]
pub enum ReplayFault {
    #[error("out of memory")]
    NoMemory,
    #[error("too many live cells at {}:{}", .0.line, .0.column)]
    TooManyCells(Place),
}

impl From<NoMemory> for ReplayFault {
    ghost from_gives = { λ _ e. e ≡ fault.NoMemory };

    fn from(_e: NoMemory) -> ReplayFault {
        ReplayFault::NoMemory
    }
}
