//! Checks tables of small texts, each with its tokens or its refusal: token_cases FILE..
//!
//! `language` says what is asked of a text, and `shown` how a table writes the answer.
#![tactic(auto)]

mod language;
mod shown;

use crate::language::Language;
use anyhow::Result;
use case_table::check_tables;
use std::process::ExitCode;

fn main(rt: HostRuntime) -> Result<ExitCode> {
    check_tables::<Language>(&rt)
}
