//! Laws of the definitions in this crate. Each function does nothing: its contract is the law.

ghost use Rattle.gv_wholeruns.specs.Laws.{CallLaw, RunLaw};

/// A call may start, where it is allowed: the invariant holds after it.
pub fn calls_are_kept()
    ensures { CallLaw }
{}

/// Over every list of calls, steps, crashes and disks that fail no step is undefined, and the history has an explanation.
pub fn runs_are_explained()
    ensures { RunLaw }
{}
