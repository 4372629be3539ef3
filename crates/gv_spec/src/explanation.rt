//! What an explanation of a history is made of.

ghost use Rattle.std.specs.Prelude.{◌≡◌, ◌↔◌, IfOk, IsTrue};

use crate::entry::Entry;
use gv_atomic::Spec;
use gv_base::{List, NoMemory};
use gv_terms::copy_list;
use std::alloc::Global;

/// A move of an explanation: the call under a number acts, all at once, under these choices; recovery
/// returns, and the crash that it ends has made these choices; or an entry of the history.
/// `Other(Entry::Boot)` is a boot without choices. This project's own.
#[derive(Debug, Drop)]
pub enum Move {
    Act { number: u32, choices: List<u64> },
    Boot { choices: List<u64> },
    Other(Entry),
}

impl Move {
    ghost use Rattle.gv_spec.specs.History.{IsMoveOf};

    /// An equal move.
    pub fn copy(&self, alloc: Global) -> Result<Move, NoMemory>
        ensures { IfOk result (λ m. m ≡ self.now) }
    {
        match self {
            Move::Act { number, choices } => Ok(Move::Act {
                number: *number,
                choices: copy_list(alloc, choices)?,
            }),
            Move::Boot { choices } => Ok(Move::Boot {
                choices: copy_list(alloc, choices)?,
            }),
            Move::Other(entry) => Ok(Move::Other(entry.copy(alloc)?)),
        }
    }

    /// Whether a call is of an operation of the specification, with arguments of its parameters' sorts.
    pub fn is_of(&self, spec: &Spec) -> bool
        ensures { IsTrue result ↔ IsMoveOf spec.now self.now }
    {
        match self {
            Move::Other(entry) => entry.is_of(spec),
            _ => true,
        }
    }
}
