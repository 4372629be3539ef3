//! What the judge answers, as a table writes it.

ghost use Rattle.std.specs.Prelude.{◌<◌, ◌≤◌, ◌-◌, ◌^◌, All, length};
ghost use Rattle.gv_spec.specs.History.{IsEntryOf, IsMoveOf};

use anyhow::{Result, bail};
use gv_history::{WalkFault, walk};
use gv_judge::{Judged, judge};
use gv_lines::move_lines;
use gv_spec::{Entry, Move, Spec};
use std::alloc::Global;

// The most moves that a table writes out.
const MOST_MOVES: usize = 100;

// The moves of a yes, or their number where there are many.
fn moves_text(alloc: Global, spec: &Spec, moves: &[Move]) -> Result<String> {
    if moves.len() > MOST_MOVES {
        let count = moves.len();
        return Ok(format!(in alloc; "yes by {count} moves")?);
    }
    let mut text = String::new(alloc);
    text.push_str("yes")?;
    for (at, line) in move_lines(alloc, spec, moves)?.iter().enumerate() {
        text.push_str(if at == 0 { " " } else { "; " })?;
        let shown = line.as_slice().escape_ascii();
        text.push_str(format!(in alloc; "{shown}")?.as_str())?;
    }
    Ok(text)
}

// The text of a yes, whose moves must explain the history.
fn yes_text(alloc: Global, spec: &Spec, history: &Vec<Entry>, moves: &Vec<Move>) -> Result<String>
    requires entries { All (IsEntryOf spec.now) history.now.items }
    requires moves { All (IsMoveOf spec.now) moves.now.items }
{
    if moves.len() >= u32::MAX as usize {
        bail!("too many moves");
    }
    match walk(alloc, spec, history, moves) {
        Ok(_) => moves_text(alloc, spec, moves.as_slice()),
        Err(WalkFault::NoMemory) => bail!("out of memory"),
        Err(WalkFault::At { index, cause }) => {
            let name = cause.name();
            Ok(format!(in alloc; "yes, and move {index} is refused: {name}")?)
        }
    }
}

// What is answered within so many nodes.
fn told(alloc: Global, spec: &Spec, history: &Vec<Entry>, most: u64) -> Result<String>
    requires most { 1 ≤ most }
    requires few { length history.now.items < 2 ^ 31 - 1 }
    requires entries { All (IsEntryOf spec.now) history.now.items }
{
    match judge(alloc, spec, history, most)? {
        Judged::Yes { moves } => yes_text(alloc, spec, history, &moves.into_vec()),
        Judged::No => Ok(format!(in alloc; "no")?),
        Judged::Spent => Ok(format!(in alloc; "spent")?),
    }
}

// What is answered within one node less. Within none nothing is asked.
fn told_below(alloc: Global, spec: &Spec, history: &Vec<Entry>, number: u64) -> Result<String>
    requires few { length history.now.items < 2 ^ 31 - 1 }
    requires entries { All (IsEntryOf spec.now) history.now.items }
{
    if number < 2 {
        return Ok(format!(in alloc; "spent")?);
    }
    told(alloc, spec, history, number - 1)
}

/// What is answered of a history within so many nodes, where one node less gives `spent` and one more the same; else what is
/// wrong with that.
pub(crate) fn answer_of(
    alloc: Global,
    spec: &Spec,
    history: &Vec<Entry>,
    number: u64,
) -> Result<String>
    requires few { length history.now.items < 2 ^ 31 - 1 }
    requires entries { All (IsEntryOf spec.now) history.now.items }
{
    if number < 1 || number > u32::MAX as u64 {
        bail!("no number of nodes: {number}");
    }
    let below = told_below(alloc, spec, history, number)?;
    let at = told(alloc, spec, history, number)?;
    let above = told(alloc, spec, history, number + 1)?;
    if below.as_str() != "spent" {
        return Ok(format!(in alloc; "less than {number}: {below}")?);
    }
    if above.as_str() != at.as_str() {
        return Ok(format!(in alloc; "{number} {at}, and with one more {above}")?);
    }
    Ok(format!(in alloc; "{number} {at}")?)
}
