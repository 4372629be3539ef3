//! What a schedule comes to, as a table writes it.

ghost use Rattle.std.specs.Prelude.{◌≤◌, All, map, sum};
ghost use Rattle.std.specs.Bool.{OnTrue};
ghost use Rattle.gv_spec.specs.History.{IsEventOf};

use anyhow::{Result, bail};
use gv_atomic::Spec;
use gv_base::Reason;
use gv_lang::Program;
use gv_lines::entry_line;
use gv_machine::Entry;
use gv_played::{Ran, ReplayFault, replay};
use gv_replay::{Line, Schedule};
use std::alloc::Global;

// Whether there are at most 1,000,000 events.
fn are_few(lines: &[Line]) -> bool
    ensures { OnTrue result (sum (map (λ l. l.count) lines.now) ≤ 1000000) }
{
    let mut left = 1000000u32;
    let mut rest = lines;
    while let [first, tail @ ..] = rest {
        if left < first.count {
            return false;
        }
        left -= first.count;
        rest = tail;
    }
    true
}

fn push_entries(alloc: Global, out: &mut Vec<u8>, spec: &Spec, history: &[Entry]) -> Result<()> {
    for entry in history {
        let line = entry_line(alloc, spec, entry)?;
        out.extend_from_slice(line.as_slice())?;
        out.extend_from_slice(b"; ")?;
    }
    Ok(())
}

fn push_undefined(alloc: Global, out: &mut Vec<u8>, number: u32, reason: Reason) -> Result<()> {
    let name = reason.name();
    let text = format!(in alloc; "undefined {number} {name}")?;
    out.extend_from_slice(text.as_bytes())?;
    Ok(())
}

fn ran_text(alloc: Global, spec: &Spec, ran: &Ran) -> Result<Vec<u8>> {
    let mut out = Vec::new(alloc);
    push_entries(alloc, &mut out, spec, ran.history.as_slice())?;
    match ran.undefined {
        Some((number, reason)) => push_undefined(alloc, &mut out, number, reason)?,
        None => out.extend_from_slice(b"end")?,
    }
    Ok(out)
}

// The number of the line whose event would leave too many live cells.
fn too_many_text(alloc: Global, line: u32) -> Result<Vec<u8>> {
    let text = format!(in alloc; "too many cells at line {line}")?;
    Ok(Vec::from_slice(alloc, text.as_bytes())?)
}

/// The lines of the history, and then `end`, or the number of the undefined event and its reason.
pub(crate) fn run_text(
    alloc: Global,
    program: &Program,
    spec: &Spec,
    schedule: &Schedule,
) -> Result<Vec<u8>>
    requires of_spec { All (λ l. IsEventOf spec.now l.event) schedule.now.events }
{
    if !are_few(schedule.events.as_slice()) {
        bail!("more than 1,000,000 events");
    }
    match replay(alloc, program, spec, schedule) {
        Ok(ran) => ran_text(alloc, spec, &ran),
        Err(ReplayFault::TooManyCells(place)) => too_many_text(alloc, place.line),
        Err(ReplayFault::NoMemory) => bail!("out of memory"),
    }
}
