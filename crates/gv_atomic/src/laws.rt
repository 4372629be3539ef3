//! Laws of the definitions in this crate. Each function does nothing: its contract is the law.

ghost use Rattle.gv_atomic.specs.Laws.{ChoicesFit, OperationsWithoutPicks, CrashesWithoutPicks};

/// Which lists of choices are allowed, said of each pick by its place.
#[tactic(auto, using(crate::proofs::Choices::choices_fit))]
pub fn allowed_choices()
    ensures { ChoicesFit }
{}

/// A specification that picks nothing means what its assignments and replies say, and allows no choice.
#[tactic(auto, using(crate::proofs::Choices::operations_without_picks, crate::proofs::Choices::crashes_without_picks))]
pub fn without_picks()
    ensures operations { OperationsWithoutPicks }
    ensures crashes { CrashesWithoutPicks }
{}
