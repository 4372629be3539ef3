//! Checks tables of programs, each with the lines of its points: point_cases FILE..
//!
//! A line `program` begins a program, whose lines `case_programs` tells, and `done` ends it. The text of a case is the name of one of
//! its procedures, or `all`. The answer is the lines of that procedure's points, or all lines, with `; ` between them.
#![tactic(auto)]

mod table;

use crate::table::Table;
use anyhow::Result;
use case_table::check_tables;
use std::process::ExitCode;

fn main(rt: HostRuntime) -> Result<ExitCode> {
    check_tables::<Table>(&rt)
}
