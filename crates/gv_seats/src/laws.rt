//! Laws of the definitions in this crate. Each function does nothing: its contract is the law.

ghost use Rattle.gv_seats.specs.Laws.{BegunLaw, ExpressionsLaw, SeatsLaw};

/// An expression over locals has the value of its term.
pub fn expression_values()
    ensures { ExpressionsLaw }
{}

/// A frame at its seat meets no write of others in what it owns, and finds the invariants that nobody has taken.
pub fn seats()
    ensures { SeatsLaw }
{}

/// In the middle of a write others meet it in nothing that they own.
pub fn begun_writes()
    ensures { BegunLaw }
{}
