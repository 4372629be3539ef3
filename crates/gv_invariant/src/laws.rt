//! Laws of the definitions in this crate. Each function does nothing: its contract is the law.

ghost use Rattle.gv_invariant.specs.Laws.{CrashLaw, ExplainedLaw, FailLaw, FirstLaw, StepLaw};

/// The history of a state with the invariant has an explanation.
pub fn histories_are_explained()
    ensures { ExplainedLaw }
{}

/// The first state has the invariant, where the crash invariant stands for it.
pub fn runs_begin()
    ensures { FirstLaw }
{}

/// A disk may fail, where it may: the invariant holds after it.
pub fn disks_may_fail()
    ensures { FailLaw }
{}

/// A crash at any moment, also between the two steps of a write and while recovery runs, leaves what recovery begins with.
pub fn crashes_are_survived()
    ensures { CrashLaw }
{}

/// No step of a thread is undefined, and the invariant holds after it.
pub fn steps_are_kept()
    ensures { StepLaw }
{}
