//! The parts of an answer as a table writes them.

use anyhow::{Result, bail};
use case_table::unescaped;
use gv_base::Name;
use std::alloc::Global;

/// A status, and the digests and the lines that stand beside it.
#[derive(Drop)]
pub(crate) struct Parts {
    pub status: u8,
    pub digests: Vec<Name>,
    pub lines: Vec<Name>,
}

// A word, and the number behind it, where one is written: `WORD` or `WORD*COUNT`.
fn counted(head: &str) -> Result<(&str, u32)> {
    match head.split_once("*") {
        Some((word, count)) => Ok((word, count.parse::<u32>()?)),
        None => Ok((head, 1)),
    }
}

fn push_times(alloc: Global, list: &mut Vec<Name>, text: &str, count: u32) -> Result<()> {
    let name = Name::from_vec(alloc, unescaped(alloc, text)?)?;
    for _ in 0..count {
        list.push(name.copy(alloc)?)?;
    }
    Ok(())
}

impl Parts {
    // A digest or a line, as often as it is said: `digest:BYTES`, `line:BYTES` or `line*COUNT:BYTES`.
    fn take(&mut self, alloc: Global, part: &str) -> Result<()> {
        let Some((head, text)) = part.split_once(":") else {
            bail!("no part of an answer: {part}");
        };
        let (word, count) = counted(head)?;
        match word {
            "digest" => push_times(alloc, &mut self.digests, text, count),
            "line" => push_times(alloc, &mut self.lines, text, count),
            _ => bail!("no part of an answer: {part}"),
        }
    }

    /// The parts that are written so: the status, and then the others, with ` | ` before each.
    pub(crate) fn read(alloc: Global, said: &str) -> Result<Parts> {
        let (status, rest) = match said.split_once(" | ") {
            Some((status, rest)) => (status, Some(rest)),
            None => (said, None),
        };
        let mut parts = Parts {
            status: status.parse::<u8>()?,
            digests: Vec::new(alloc),
            lines: Vec::new(alloc),
        };
        if let Some(rest) = rest {
            for part in rest.split(" | ") {
                parts.take(alloc, part)?;
            }
        }
        Ok(parts)
    }
}
