//! Checks tables of texts, each with its tree or whether it is a script, or how it is refused: script_cases FILE..
//!
//! `texts` says how a table writes its texts, `fronts` how fronts of one are refused, `shown` how it writes the answer, and `printed` how it writes a tree.
#![tactic(auto)]

mod fronts;
mod printed;
mod shown;
mod texts;

use crate::texts::Texts;
use anyhow::Result;
use case_table::check_tables;
use std::process::ExitCode;

fn main(rt: HostRuntime) -> Result<ExitCode> {
    check_tables::<Texts>(&rt)
}
