//! Why moves don't explain a history.

ghost use Rattle.std.specs.Prelude.{◌≡◌};
ghost use Rattle.gv_history.specs.declared.fault.WalkFault.TheVariants as fault;

use gv_base::NoMemory;
use thiserror::Error;

/// Why a move is refused. `Missing` stands one past the last move, where history is left; `Order` is
/// told before the other causes, and `BadChoice` after them. This project's own.
#[derive(Clone, Copy, Debug, PartialEq, Eq, Error)]
pub enum WalkCause {
    #[error("Repeated")]
    Repeated,
    #[error("NotCalled")]
    NotCalled,
    #[error("ActedAlready")]
    ActedAlready,
    #[error("NotActed")]
    NotActed,
    #[error("WrongReply")]
    WrongReply,
    #[error("Order")]
    Order,
    #[error("Missing")]
    Missing,
    #[error("BadChoice")]
    BadChoice,
}

impl WalkCause {
    ghost use Rattle.gv_history.specs.Fault.{cause_name};

    /// The cause's name as a report writes it.
    pub fn name(self) -> &'static str
        ensures { result.now ≡ cause_name self }
    {
        match self {
            WalkCause::Repeated => "Repeated",
            WalkCause::NotCalled => "NotCalled",
            WalkCause::ActedAlready => "ActedAlready",
            WalkCause::NotActed => "NotActed",
            WalkCause::WrongReply => "WrongReply",
            WalkCause::Order => "Order",
            WalkCause::Missing => "Missing",
            WalkCause::BadChoice => "BadChoice",
        }
    }
}

/// Why a walk gives nothing: memory was refused, or a move is, by its number from 1.
/// This project's own.
#[derive(Debug, PartialEq, Eq, Drop, Error)]
pub enum WalkFault {
    #[error("out of memory")]
    NoMemory,
    #[error("not explained at {index} {cause}")]
    At { index: u32, cause: WalkCause },
}

impl From<NoMemory> for WalkFault {
    ghost from_gives = { λ _ e. e ≡ fault.NoMemory };

    fn from(_e: NoMemory) -> WalkFault {
        WalkFault::NoMemory
    }
}
