//! Checks tables of axioms over terms, each with its instance or that there is none: axiom_cases FILE..
//!
//! The text of a case is the number of an axiom and its parts, `NUMBER (TERM; TERM)`. The answer is `BadAxiom` where the axiom has
//! no instance over these parts, and else its premises, in order, and what they give: `TERM; TERM gives TERM`.
#![tactic(auto)]

mod cases;
mod made;
mod terms;
mod variables;

use crate::cases::Axioms;
use anyhow::Result;
use case_table::check_tables;
use std::process::ExitCode;

fn main(rt: HostRuntime) -> Result<ExitCode> {
    check_tables::<Axioms>(&rt)
}
