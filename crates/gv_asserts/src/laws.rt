//! Laws of the definitions in this crate. Each function does nothing: its contract is the law.

ghost use Rattle.gv_asserts.specs.Keeping.{NotedLaw};
ghost use Rattle.gv_asserts.specs.Knowing.{KnowingLaw, EndingLaw};
ghost use Rattle.gv_asserts.specs.Staying.{StayingLaw};

/// A path state whose terms are those of a store stands for the same path while the store grows.
pub fn states_stay()
    ensures { StayingLaw }
{}

/// What follows from the facts of a path is added by a move that is sound beside every rest, and where nothing meets them, no frame
/// stands at the path.
pub fn facts_follow()
    ensures added { KnowingLaw }
    ensures ended { EndingLaw }
{}

/// What is noted of predicates, one after another, is what the logic says of them.
pub fn predicates_are_noted()
    ensures { NotedLaw }
{}
