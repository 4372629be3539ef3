//! Laws of the definitions in this crate. Each function does nothing: its contract is the law.

ghost use Rattle.gv_appending.specs.Laws.{AppendsLaw};

/// An append to a slice whose cells and spare cells are owned is never undefined: it writes into a spare cell in
/// two steps, or makes a new object in one.
pub fn appends_sound()
    ensures { AppendsLaw }
{}
