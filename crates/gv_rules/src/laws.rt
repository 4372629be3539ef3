//! Laws of the definitions in this crate. Each function does nothing: its contract is the law.

ghost use Rattle.gv_rules.specs.Laws.{ClosesLaw, CopiesLaw, LetsLaw, LoadsLaw, LocksLaw, OpensLaw, StoresLaw, UnlocksLaw};

/// What is persistent may be copied.
pub fn copies_sound()
    ensures { CopiesLaw }
{}

/// In shared mode the crash invariant may be opened.
pub fn opens_sound()
    ensures { OpensLaw }
{}

/// It is closed where it holds again.
pub fn closes_sound()
    ensures { ClosesLaw }
{}

/// Setting a local is sound beside every rest.
pub fn lets_sound()
    ensures { LetsLaw }
{}

/// Reading a cell that is owned or read-only is sound beside every rest.
pub fn loads_sound()
    ensures { LoadsLaw }
{}

/// Writing a cell that is owned is sound beside every rest, in both of its steps: others may step in between.
pub fn stores_sound()
    ensures { StoresLaw }
{}

/// Locking a mutex waits, or gives what the mutex guards, whatever others own.
pub fn locks_sound()
    ensures { LocksLaw }
{}

/// Unlocking a mutex that is held is never undefined, and gives up what the mutex guards.
pub fn unlocks_sound()
    ensures { UnlocksLaw }
{}
