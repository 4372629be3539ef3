//! Faults of texts that the grammar allows, and why there is no term.

ghost use Rattle.std.specs.Prelude.{◌≡◌, ◌⊎◌};
ghost use Rattle.gv_typing.specs.declared.term_fault.TermFault.TheVariants as answer;
ghost use Rattle.gv_base.specs.Codes.{code_number};
ghost use Rattle.gv_text.specs.Answers.{IsNotAfter};
ghost use Rattle.gv_typing.specs.Placing.{IsFirstWith};

use gv_base::{Code, NoMemory};
use std::alloc::{AllocError, AllocFailed};
use thiserror::Error;

/// A fault of a text: the byte at which it stands, and its code. This project's own.
#[derive(Clone, Copy, Debug, PartialEq, Eq)]
pub struct Fault {
    pub start: u32,
    pub code: Code,
}

impl Fault {
    /// Of two faults the one that counts: that at the earlier place, at one place that with the lower number.
    pub fn or_earlier(self, other: Fault) -> Fault
        ensures { ((result ≡ self) × IsNotAfter code_number self.start self.code other.start other.code)
            ⊎ ((result ≡ other) × IsNotAfter code_number other.start other.code self.start self.code) }
    {
        if other.start < self.start
            || (other.start == self.start && other.code.number() < self.code.number())
        {
            other
        } else {
            self
        }
    }
}

// A fault beside the first of earlier ones, where there is one: the first of all.
pub(crate) fn first_with(first: Option<Fault>, fault: Fault) -> Fault
    ensures { IsFirstWith first fault result }
{
    match first {
        None => fault,
        Some(f) => f.or_earlier(fault),
    }
}

/// Why there is no term: memory was refused, or the first fault, by the byte at which it stands and its code. This
/// project's own.
#[derive(Debug, PartialEq, Eq, Drop, Error)]
pub enum TermFault {
    #[error("out of memory")]
    NoMemory,
    #[error("a term is refused")]
    At { start: u32, code: Code },
}

impl From<NoMemory> for TermFault {
    ghost from_gives = { λ _ e. e ≡ answer.NoMemory };

    fn from(_e: NoMemory) -> TermFault {
        TermFault::NoMemory
    }
}

impl From<AllocError> for TermFault {
    ghost from_gives = { λ _ e. e ≡ answer.NoMemory };

    fn from(_e: AllocError) -> TermFault {
        TermFault::NoMemory
    }
}

impl<T: Drop> From<AllocFailed<T>> for TermFault {
    ghost from_gives = { λ _ e. e ≡ answer.NoMemory };

    fn from(_e: AllocFailed<T>) -> TermFault {
        TermFault::NoMemory
    }
}

impl From<Fault> for TermFault {
    ghost from_gives = { λ f e. e ≡ answer.At f.start f.code };

    fn from(fault: Fault) -> TermFault {
        TermFault::At {
            start: fault.start,
            code: fault.code,
        }
    }
}
