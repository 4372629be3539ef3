//! Checks tables of answers in JSON, and of digests: json_cases FILE..
#![tactic(auto)]

mod form;
mod parts;

use crate::form::Form;
use anyhow::Result;
use case_table::check_tables;
use std::process::ExitCode;

fn main(rt: HostRuntime) -> Result<ExitCode> {
    check_tables::<Form>(&rt)
}
