//! Checks tables of reports, as text and in JSON: report_cases FILE..
#![tactic(auto)]

mod form;
mod names;
mod reports;

use crate::form::Form;
use anyhow::Result;
use case_table::check_tables;
use std::process::ExitCode;

fn main(rt: HostRuntime) -> Result<ExitCode> {
    check_tables::<Form>(&rt)
}
