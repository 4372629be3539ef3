//! What is so of every script. Each function does nothing: its contract is the law.

ghost use Rattle.gv_scriptnames.specs.Constructs.{AreNamed};
ghost use Rattle.gv_scriptnames.specs.Laws.{AreFound, AreRefusedOnce};
ghost use Rattle.gv_scriptnames.specs.Rows.{AreRows};

/// A script with a fault is refused at one place by one code, and isn't typed. Its faults are those of a list that can be computed.
#[tactic(auto, using(crate::proofs::Once::all_once, crate::proofs::Once::all_found))]
pub fn scripts_are_refused_once()
    ensures once { AreRefusedOnce }
    ensures found { AreFound }
{}

/// Small scripts with the answers that the rules give them.
#[tactic(auto, using(crate::proofs::Rows::all_rows))]
pub fn worked_scripts()
    ensures { AreRows }
{}

/// What each construct of a script names.
#[tactic(auto, using(crate::proofs::Constructs::all_named))]
pub fn named_by_constructs()
    ensures { AreNamed }
{}
