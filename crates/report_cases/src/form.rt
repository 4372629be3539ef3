//! What is asked of the reports of a table.

use crate::reports::report_of;
use anyhow::Result;
use case_table::{Meaning, unescaped};
use gv_base::{List, MemSink, Name};
use gv_report::{Format, Output};
use std::alloc::Global;

/// What is asked of a report: its status and all that is written of it, in one of the two formats.
#[derive(Clone, Copy, Debug)]
pub(crate) enum Form {
    Text,
    /// With two digests, `ab` and `cd`.
    Json,
}

impl Form {
    fn format(self, alloc: Global) -> Result<Format> {
        match self {
            Form::Text => Ok(Format::Text),
            Form::Json => {
                let mut digests = List::new(alloc);
                digests.push(Name::from_slice(alloc, b"ab")?)?;
                digests.push(Name::from_slice(alloc, b"cd")?)?;
                Ok(Format::Json { digests })
            }
        }
    }

    // The answer for a report, as a table writes it: the status, and behind a blank what is written.
    fn answer(self, alloc: Global, said: &str) -> Result<Vec<u8>> {
        let report = report_of(alloc, said)?;
        let output = Output::new(alloc, report, self.format(alloc)?);
        let mut sink = MemSink::new(alloc, 10_000, List::new(alloc))?;
        let status = output.tell(&mut sink);
        let head = format!(in alloc; "{status} ")?;
        let mut answer = Vec::from_slice(alloc, head.as_bytes())?;
        answer.extend_from_slice(sink.written().as_slice())?;
        Ok(answer)
    }
}

impl Meaning for Form {
    fn new(_alloc: Global) -> Result<Form> {
        Ok(Form::Text)
    }

    fn take(&mut self, _alloc: Global, line: &str) -> Result<bool> {
        match line {
            "form text" => *self = Form::Text,
            "form json" => *self = Form::Json,
            _ => return Ok(false),
        }
        Ok(true)
    }

    fn other(&self, alloc: Global, text: &str, want: &str) -> Result<Option<String>> {
        let answer = self.answer(alloc, text)?;
        if answer.as_slice() == unescaped(alloc, want)?.as_slice() {
            return Ok(None);
        }
        let answer = answer.as_slice().escape_ascii();
        Ok(Some(format!(in alloc; "{answer}")?))
    }
}
