//! Checks tables of terms, each with its value, its sort or its refusal: term_cases FILE..
//!
//! `names` has what a term gives under the names that a table binds, and `shown` how a table writes a value.
#![tactic(auto)]

mod names;
mod shown;

use crate::names::Names;
use anyhow::Result;
use case_table::check_tables;
use std::process::ExitCode;

fn main(rt: HostRuntime) -> Result<ExitCode> {
    check_tables::<Names>(&rt)
}
