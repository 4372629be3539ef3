//! The law of the table. The function does nothing: its contract is the law.

ghost use Rattle.gv_axioms.specs.Truth.{AxiomsAreTrue};

/// Each axiom of the table is true: under every valuation, of whatever parts, where the premises that it asks for are true,
/// so is what it gives.
pub fn axioms_are_true()
    ensures { AxiomsAreTrue }
{}
