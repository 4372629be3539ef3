//! Checks tables of scripts, each with whether it is read for the program and the specification that stand above it, or how it
//! is refused: scriptname_cases FILE..
//!
//! A line `program` begins a program, whose lines `case_programs` tells, and `done` ends it. `setting` stands before a
//! specification, on one line. `around A @ B` says that A and B stand before and behind each text below it, `around nothing` that
//! nothing does. The answer is `script`, or the line, the column and the code of the refusal.
#![tactic(auto)]

mod table;

use crate::table::Table;
use anyhow::Result;
use case_table::check_tables;
use std::process::ExitCode;

fn main(rt: HostRuntime) -> Result<ExitCode> {
    check_tables::<Table>(&rt)
}
