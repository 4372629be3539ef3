//! Laws of the definitions in this crate. Each function does nothing: its contract is the law.

ghost use Rattle.gv_acting.specs.Laws.{ActsLaw, BootsLaw, SharingLaw};

/// Recovery drops its tokens and shares what it owns, in two moves.
pub fn sharing_sound()
    ensures { SharingLaw }
{}

/// A call acts once: its token becomes its reply, and the fields and the leases of those that change get what
/// its operation leaves.
pub fn acts_sound()
    ensures { ActsLaw }
{}

/// At boot the crash has its effect on the fields, and calls of before have left the table; beside every rest
/// without their tokens.
pub fn boots_sound()
    ensures { BootsLaw }
{}
