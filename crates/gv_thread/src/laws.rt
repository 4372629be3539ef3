//! What is proved of the steps of threads.

ghost use Rattle.gv_thread.specs.Settling.{StepsLeave};

/// What a step of a thread leaves, once its command has had an effect.
#[tactic(auto, using(crate::proofs::Leaving::steps_leave))]
pub fn steps()
    ensures { StepsLeave }
{}
