//! What is asked of the texts of a table.

use crate::parts::Parts;
use anyhow::{Context, Result, bail};
use case_table::{Meaning, unescaped};
use gv_digest::digest;
use gv_json::json_line;
use std::alloc::Global;

/// What is asked of a text.
#[derive(Clone, Copy, Debug)]
pub(crate) enum Form {
    /// The line in JSON of an answer with these parts, without its newline.
    Line,
    /// The digest of bytes, written `COUNT*BYTES` where they stand so many times.
    Digest,
}

// The line, whose newline a table leaves out.
fn line(alloc: Global, said: &str) -> Result<Vec<u8>> {
    let parts = Parts::read(alloc, said)?;
    let mut line = json_line(
        alloc,
        parts.digests.as_slice(),
        parts.lines.as_slice(),
        parts.status,
    )?;
    match line.pop() {
        Some(b'\n') => Ok(line),
        _ => bail!("no newline at the end"),
    }
}

fn digest_of(alloc: Global, said: &str) -> Result<Vec<u8>> {
    let Some((count, bytes)) = said.split_once("*") else {
        bail!("no number of times: {said}");
    };
    let count = count.parse::<u32>().context("the number of times")?;
    let piece = unescaped(alloc, bytes)?;
    let mut text = Vec::new(alloc);
    for _ in 0..count {
        text.extend_from_slice(piece.as_slice())?;
    }
    Ok(Vec::from_slice(alloc, digest(alloc, text.as_slice())?.as_slice())?)
}

impl Form {
    // The answer for a text, as a table writes it.
    fn answer(self, alloc: Global, said: &str) -> Result<Vec<u8>> {
        match self {
            Form::Line => line(alloc, said),
            Form::Digest => digest_of(alloc, said),
        }
    }
}

impl Meaning for Form {
    fn new(_alloc: Global) -> Result<Form> {
        Ok(Form::Line)
    }

    fn take(&mut self, _alloc: Global, line: &str) -> Result<bool> {
        match line {
            "form line" => *self = Form::Line,
            "form digest" => *self = Form::Digest,
            _ => return Ok(false),
        }
        Ok(true)
    }

    fn other(&self, alloc: Global, text: &str, want: &str) -> Result<Option<String>> {
        let answer = self.answer(alloc, text)?;
        if answer.as_slice() == want.as_bytes() {
            return Ok(None);
        }
        let answer = answer.as_slice().escape_ascii();
        Ok(Some(format!(in alloc; "{answer}")?))
    }
}
