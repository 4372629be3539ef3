//! Laws of the definitions in this crate. Each function does nothing: its contract is the law.

ghost use Rattle.gv_putting.specs.Laws.{PutsLaw};

/// An item of a slice that is owned is written in two steps, where the slice is known to have it.
pub fn puts_sound()
    ensures { PutsLaw }
{}
