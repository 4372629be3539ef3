//! Laws of the definitions in this crate. Each function does nothing: its contract is the law.

ghost use Rattle.gv_slicing.specs.Laws.{ItemsLaw, MakesLaw};

/// Making a slice gives one of zeros, which nobody had before.
pub fn makes_sound()
    ensures { MakesLaw }
{}

/// An item of a slice that is owned or read-only is read, where the slice is known to have it.
pub fn items_sound()
    ensures { ItemsLaw }
{}
