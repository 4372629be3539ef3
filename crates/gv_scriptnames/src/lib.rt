//! Names and counts of scripts: which of them the rules allow, and where the others are refused.
//!
//! `specs/Faults` has the rules, a constructor each, over the outline of a script (`outline`), which `specs/Outlines` gives for the trees
//! of gv_scriptsyntax; `specs/Mentions` says what a script names, and `specs/Scopes` what names stand for.
#![tactic(auto)]

mod laws;
mod mention;
mod outline;

pub use laws::{named_by_constructs, scripts_are_refused_once, worked_scripts};
pub use mention::Mention;
pub use outline::{
    BodyOutline, BookOutline, CaseOutline, CutOutline, OpOutline, Outline, PredOutline, ProcOutline,
};
