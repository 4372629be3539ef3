//! Why a list isn't read within a limit of nesting.

use std::alloc::{AllocError, AllocFailed};

/// Why classes, or the tokens that have them, aren't read within the levels of nesting.
#[derive(Clone, Copy, Debug, PartialEq, Eq)]
pub enum ReadFault {
    NoMemory,
    /// The tokens before this place begin a text, those up to it begin none.
    Refused { at: usize },
    /// The token at this place opens a level above the limit.
    TooDeep { at: usize },
    /// The tokens begin a text and are none.
    End,
}

impl From<AllocError> for ReadFault {
    ghost use Rattle.std.specs.Prelude.{◌≡◌};
    ghost use Rattle.gv_grammar.specs.declared.read_faults.ReadFault.TheVariants.{NoMemory};

    ghost from_gives = { λ _ e. e ≡ NoMemory };

    fn from(_e: AllocError) -> ReadFault {
        ReadFault::NoMemory
    }
}

impl<T: Drop> From<AllocFailed<T>> for ReadFault {
    ghost use Rattle.std.specs.Prelude.{◌≡◌};
    ghost use Rattle.gv_grammar.specs.declared.read_faults.ReadFault.TheVariants.{NoMemory};

    ghost from_gives = { λ _ e. e ≡ NoMemory };

    fn from(_e: AllocFailed<T>) -> ReadFault {
        ReadFault::NoMemory
    }
}
