//! Laws of the definitions in this crate. Each function does nothing: its contract is the law.

ghost use Rattle.gv_replay.specs.Faults.{MovesTellFirst, PlansTellFirst};

/// Of all faults of names, numbers and sorts that the lines of a text have, the one that is told is the first: it stands at
/// the least place, and at that place it has the code with the least number. And lines are told where they have no fault.
#[tactic(auto, using(crate::proofs::OrderLemmas::moves_tell_first, crate::proofs::OrderLemmas::plans_tell_first))]
pub fn first_faults()
    ensures moves { MovesTellFirst }
    ensures schedules { PlansTellFirst }
{}
