//! Checks tables of rows with their factors, each with what the check of factors answers: linear_cases FILE..
//!
//! The text of a case is `UNKNOWNS; ROW; ROW`. A row is its items, each a coefficient, `x` and the number of its unknown; its
//! constant; `= 0` or `>= 0`; and `by` with its factor.
#![tactic(auto)]

mod case;
mod order;

use crate::case::Rows;
use anyhow::Result;
use case_table::check_tables;
use std::process::ExitCode;

fn main(rt: HostRuntime) -> Result<ExitCode> {
    check_tables::<Rows>(&rt)
}
