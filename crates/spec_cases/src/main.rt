//! Checks tables of specifications and terms, each with what it is read as or with its refusal: spec_cases FILE..
//!
//! `form` says what is asked of a text, `typed` what sort a term has, and `shown` how a table writes trees.
#![tactic(auto)]

mod form;
mod shown;
mod typed;

use crate::form::Form;
use anyhow::Result;
use case_table::check_tables;
use std::process::ExitCode;

fn main(rt: HostRuntime) -> Result<ExitCode> {
    check_tables::<Form>(&rt)
}
