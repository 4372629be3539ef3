//! Checks tables of schedules, each with what it comes to on the machine of the program that stands above it:
//! machine_cases FILE..
//!
//! A line `program` begins a program, whose lines `case_programs` tells, and `done` ends it; `program of no good
//! shape` begins one that `well_shaped` doesn't take. `setting` stands before a specification, on one line. The text of a
//! case is a schedule, with `; ` between its lines. Below `form run` the answer is the lines of the history and `end`, or the
//! number of the undefined event and the reason, or the line at which there are too many cells. Below `form tries` it is what
//! came of each event: for each line of the schedule how many were done or not possible, in their order.
#![tactic(auto)]

mod runs;
mod table;
mod tally;
mod tries;

use crate::table::Table;
use anyhow::Result;
use case_table::check_tables;
use std::process::ExitCode;

fn main(rt: HostRuntime) -> Result<ExitCode> {
    check_tables::<Table>(&rt)
}
