//! What is so of every package, and worked rows. Each function does nothing: its contract is the law.

ghost use Rattle.gv_gotypes.specs.Laws.{AreDecided, AreTold, FaultsSilence};
ghost use Rattle.gv_gotypes.specs.Rows.{AreRows};

/// A package is typed, or refused at one place by one code, and not both; and the least of what is found in it tells which.
#[tactic(auto, using(crate::proofs::Told::all_told))]
pub fn packages_are_typed_or_refused()
    ensures decided { AreDecided }
    ensures told { AreTold }
{}

/// An operand with a fault in it is nothing: no place tests it, and what stands on it is nothing. So of two faults none follows
/// from the other.
pub fn faults_silence()
    ensures { FaultsSilence }
{}

/// Small packages with the answers that the rules give them: typed ones, and a refusal for each of the readings that a
/// rule alone leaves open.
pub fn worked_packages()
    ensures { AreRows }
{}
