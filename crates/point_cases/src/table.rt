//! The cases of a table.

use anyhow::{Context, Result, bail};
use case_programs::Reading;
use case_table::Meaning;
use gv_base::Name;
use gv_lang::{Program, well_shaped};
use gv_pointlines::point_lines;
use gv_points::points;
use std::alloc::Global;

/// The lines of the program above, and a program that is being read.
#[derive(Drop)]
pub(crate) struct Table {
    reading: Option<Reading>,
    lines: Vec<Name>,
}

fn lines_of(alloc: Global, program: &Program) -> Result<Vec<Name>> {
    if !well_shaped(program) {
        bail!("no program of a good shape");
    }
    let graph = points(alloc, program)?;
    let lines = point_lines(alloc, program, &graph)?;
    Ok(lines.into_vec())
}

// A line's bytes, with `; ` before them where they aren't the first.
fn push_line(out: &mut Vec<u8>, line: &[u8]) -> Result<()> {
    if !out.is_empty() {
        out.extend_from_slice(b"; ")?;
    }
    out.extend_from_slice(line)?;
    Ok(())
}

// The lines of one procedure's points, or all lines.
fn answer(alloc: Global, lines: &[Name], said: &str) -> Result<Vec<u8>> {
    let mut out = Vec::new(alloc);
    let mut within = false;
    for line in lines {
        let bytes = line.as_slice();
        if said == "all" {
            push_line(&mut out, bytes)?;
        } else if let Some(name) = bytes.strip_prefix(b"proc ") {
            within = name == said.as_bytes();
        } else if within {
            push_line(&mut out, bytes)?;
        }
    }
    Ok(out)
}

impl Table {
    fn take_line(&mut self, alloc: Global, line: &str) -> Result<bool> {
        match self.reading.take() {
            Some(reading) if line == "done" => self.lines = lines_of(alloc, &reading.finish()?)?,
            Some(reading) => {
                let mut more = reading;
                more.take(alloc, line.trim_start())?;
                self.reading = Some(more);
            }
            None if line == "program" => self.reading = Some(Reading::new(alloc)),
            None => return Ok(false),
        }
        Ok(true)
    }
}

impl Meaning for Table {
    fn new(alloc: Global) -> Result<Table> {
        Ok(Table {
            reading: None,
            lines: Vec::new(alloc),
        })
    }

    fn take(&mut self, alloc: Global, line: &str) -> Result<bool> {
        self.take_line(alloc, line).context(format_args!("{line}"))
    }

    fn other(&self, alloc: Global, text: &str, want: &str) -> Result<Option<String>> {
        let answer = answer(alloc, self.lines.as_slice(), text)?;
        if answer.as_slice() == want.as_bytes() {
            return Ok(None);
        }
        let shown = answer.as_slice().escape_ascii();
        Ok(Some(format!(in alloc; "{shown}")?))
    }
}
