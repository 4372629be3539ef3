//! Why a step of a thread is undefined.

ghost use Rattle.std.specs.Prelude.{◌≡◌};
ghost use Rattle.gv_base.specs.Reasons.{reason_name};

/// Why a step is undefined: a racing access, a use of nil, an index out of range, a division by
/// zero, an unlock of a free mutex, a block that the disk doesn't have, a slice that isn't as long
/// as a block, an operand of another kind than the command wants. This project's own.
#[derive(Clone, Copy, Debug, PartialEq, Eq)]
pub enum Reason {
    Race,
    NilUse,
    OutOfRange,
    DivideByZero,
    UnlockFree,
    BadAddress,
    BadBlockLength,
    Kind,
}

impl Reason {
    /// The reason's name as a report writes it. This project's own.
    pub fn name(self) -> &'static str
        ensures { result.now ≡ reason_name self }
    {
        match self {
            Reason::Race => "Race",
            Reason::NilUse => "NilUse",
            Reason::OutOfRange => "OutOfRange",
            Reason::DivideByZero => "DivideByZero",
            Reason::UnlockFree => "UnlockFree",
            Reason::BadAddress => "BadAddress",
            Reason::BadBlockLength => "BadBlockLength",
            Reason::Kind => "Kind",
        }
    }
}
