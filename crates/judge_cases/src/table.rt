//! The lines of a table.

use crate::answer::answer_of;
use crate::history::{history_of, refused};
use anyhow::{Context, Result, bail};
use case_table::Meaning;
use gv_specs::{Spec, read_spec};
use std::alloc::Global;

/// What the texts below a line of a table mean: the specification that stands above them. This project's own.
#[derive(Drop)]
pub(crate) struct Table {
    spec: Spec,
}

fn specification(alloc: Global, text: &str) -> Result<Spec> {
    if text.len() >= u32::MAX as usize {
        bail!("a text too long");
    }
    match read_spec(alloc, text.as_bytes()) {
        Ok(spec) => Ok(spec),
        Err(refusal) => {
            refused(refusal)?;
            bail!("refused")
        }
    }
}

// The number of nodes that an answer begins with.
fn number_in(want: &str) -> Result<u64> {
    let Some((number, _)) = want.split_once(' ') else {
        bail!("no number and answer: {want}");
    };
    match number.parse::<u64>() {
        Ok(number) => Ok(number),
        Err(_) => bail!("no number: {number}"),
    }
}

impl Meaning for Table {
    fn new(alloc: Global) -> Result<Table> {
        Ok(Table {
            spec: specification(alloc, "spec none; disks 0; crash { }")?,
        })
    }

    fn take(&mut self, alloc: Global, line: &str) -> Result<bool> {
        if !line.starts_with("spec ") {
            return Ok(false);
        }
        self.spec = specification(alloc, line).context(format_args!("{line}"))?;
        Ok(true)
    }

    fn other(&self, alloc: Global, text: &str, want: &str) -> Result<Option<String>> {
        let history = history_of(alloc, &self.spec, text)?;
        let answer = answer_of(alloc, &self.spec, &history, number_in(want)?)?;
        Ok(if answer.as_str() == want {
            None
        } else {
            Some(answer)
        })
    }
}
