//! What is proved of the steps of actions.

ghost use Rattle.gv_steps.specs.Acting.{StepsAct};
ghost use Rattle.gv_steps.specs.Keeping.{BoundsAreKept};

/// The step of an action is the step of each thread whose next command it is.
#[tactic(auto, using(crate::proofs::Stepping::steps_act))]
pub fn actions()
    ensures { StepsAct }
{}

/// Slices that are bounded stay so, whatever happens to a machine.
#[tactic(auto, using(crate::proofs::BoundedSteps::bounds_are_kept))]
pub fn bounds()
    ensures { BoundsAreKept }
{}
