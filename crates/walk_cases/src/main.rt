//! Checks tables of texts of lines, each with what it tells, and of walks, each with where it ends or why it is refused:
//! walk_cases FILE..
//!
//! The text of a case is `FORM SPEC TEXT`. FORM is `moves`, `history` or `schedule`, `both` for a text that tells the same as
//! moves and as a history, or `walk`, whose text is a history and moves with ` | ` between them. `calls` and `boots` are walks
//! along many moves, whose number is the text. In a text bytes are written as `unescaped` of case_table says.
#![tactic(auto)]

mod answer;
mod many;
mod show;
mod specs;

use crate::answer::answer_of;
use crate::specs::{Specs, all_specs};
use anyhow::Result;
use case_table::{Meaning, check_tables};
use std::alloc::Global;
use std::process::ExitCode;

impl Meaning for Specs {
    fn new(alloc: Global) -> Result<Specs> {
        all_specs(alloc)
    }

    fn take(&mut self, _alloc: Global, _line: &str) -> Result<bool> {
        Ok(false)
    }

    fn other(&self, alloc: Global, text: &str, want: &str) -> Result<Option<String>> {
        let answer = answer_of(alloc, self, text)?;
        Ok(if answer.as_str() == want {
            None
        } else {
            Some(answer)
        })
    }
}

fn main(rt: HostRuntime) -> Result<ExitCode> {
    check_tables::<Specs>(&rt)
}
