//! What is so of every script. Each function does nothing: its contract is the law.

ghost use Rattle.gv_scriptnumbers.specs.Constructs.{AreNumbered};
ghost use Rattle.gv_scriptnumbers.specs.Rows.{AreRows};

/// Which numbers each construct of a script takes.
#[tactic(auto, using(crate::proofs::Constructs::all_numbered))]
pub fn numbered_by_constructs()
    ensures { AreNumbered }
{}

/// Small scripts with the bytes at which their numbered commands begin.
#[tactic(auto, using(crate::proofs::Rows::all_rows))]
pub fn worked_numbers()
    ensures { AreRows }
{}
