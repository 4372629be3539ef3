//! Laws of the definitions in this crate. Each function does nothing: its contract is the law.

ghost use Rattle.gv_clashing.specs.Laws.{ClashesLaw, AgreesLaw};

/// Where a path owns what nobody owns at once, no frame stands at it.
pub fn clashes_sound()
    ensures { ClashesLaw }
{}

/// Where a path owns two things that tell one value, what it knows of their values is equal.
pub fn agrees_sound()
    ensures { AgreesLaw }
{}
