//! Checks tables of recorded histories, each with what the judge answers and within how many nodes: judge_cases FILE..
//!
//! A line `spec NAME; ..` is the specification of the cases below it, on one line. The text of a case is a history, with `; `
//! between its lines, or `calls N`, a history of N calls of `Inc` one after another. The answer is the number of nodes, and what is
//! answered within as many, and within one more: `yes` with the moves, the number being that of the first full node; `no`, the
//! number being that of all nodes; or `spent`. Within one node less it is `spent` in each case. The moves of each `yes` are walked
//! along beside the history. Of more than a hundred moves only their number stands in the table.
#![tactic(auto)]

mod answer;
mod history;
mod table;

use crate::table::Table;
use anyhow::Result;
use case_table::check_tables;
use std::process::ExitCode;

fn main(rt: HostRuntime) -> Result<ExitCode> {
    check_tables::<Table>(&rt)
}
