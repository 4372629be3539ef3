//! What is computed of lines.

ghost use Rattle.gv_pointlines.specs.Worked.{Worked};

/// The lines of one program.
#[tactic(auto, using(crate::proofs::Computed::worked))]
pub fn worked()
    ensures { Worked }
{}
