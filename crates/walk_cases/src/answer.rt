//! What the calls answer, as a table writes it.

ghost use Rattle.std.specs.Prelude.{◌<◌, ◌-◌, ◌^◌, IfOk, length};

use crate::many::{Pair, many_boots, many_calls};
use crate::show::{fault_text, history_text, moves_text, refusal_text, schedule_text, state_text};
use crate::specs::Specs;
use anyhow::{Result, bail};
use case_table::unescaped;
use gv_history::walk;
use gv_replay::{read_history, read_moves, read_schedule};
use gv_spec::Spec;
use std::alloc::Global;

// The bytes of a text that calls take.
fn short_text(alloc: Global, said: &str) -> Result<Vec<u8>>
    ensures { IfOk result (λ v. length v.items < 2 ^ 32 - 1) }
{
    let text = unescaped(alloc, said)?;
    if text.len() >= u32::MAX as usize {
        bail!("a text too long");
    }
    Ok(text)
}

fn moves_answer(alloc: Global, spec: &Spec, said: &str) -> Result<String> {
    let text = short_text(alloc, said)?;
    match read_moves(alloc, text.as_slice(), spec) {
        Ok(moves) => moves_text(alloc, moves.as_slice()),
        Err(refusal) => refusal_text(alloc, refusal),
    }
}

fn history_answer(alloc: Global, spec: &Spec, said: &str) -> Result<String> {
    let text = short_text(alloc, said)?;
    match read_history(alloc, text.as_slice(), spec) {
        Ok(history) => history_text(alloc, history.as_slice()),
        Err(refusal) => refusal_text(alloc, refusal),
    }
}

fn schedule_answer(alloc: Global, spec: &Spec, said: &str) -> Result<String> {
    let text = short_text(alloc, said)?;
    match read_schedule(alloc, text.as_slice(), spec) {
        Ok(schedule) => schedule_text(alloc, &schedule),
        Err(refusal) => refusal_text(alloc, refusal),
    }
}

// A text that is to tell the same as moves and as a history.
fn both_answer(alloc: Global, spec: &Spec, said: &str) -> Result<String> {
    let moves = moves_answer(alloc, spec, said)?;
    let history = history_answer(alloc, spec, said)?;
    if moves.as_str() == history.as_str() {
        Ok(moves)
    } else {
        Ok(format!(in alloc; "{moves} as moves, {history} as a history")?)
    }
}

// What a walk answers along moves beside a history.
fn walk_answer(alloc: Global, spec: &Spec, said: &str) -> Result<String> {
    let Some((before, behind)) = said.split_once(" | ") else {
        bail!("no history and moves");
    };
    walked(alloc, spec, before, behind)
}

// A walk along moves that are made.
fn pair_answer(alloc: Global, spec: &Spec, pair: Pair) -> Result<String> {
    walked(alloc, spec, pair.history.as_str(), pair.moves.as_str())
}

fn count_of(said: &str) -> Result<u32> {
    match said.parse::<u32>() {
        Ok(count) => Ok(count),
        Err(_) => bail!("no count"),
    }
}

fn walked(alloc: Global, spec: &Spec, before: &str, behind: &str) -> Result<String> {
    let text = short_text(alloc, before)?;
    let history = match read_history(alloc, text.as_slice(), spec) {
        Ok(history) => history,
        Err(_) => bail!("a history that is refused"),
    };
    let text = short_text(alloc, behind)?;
    let moves = match read_moves(alloc, text.as_slice(), spec) {
        Ok(moves) => moves,
        Err(_) => bail!("moves that are refused"),
    };
    if moves.len() >= u32::MAX as usize {
        bail!("too many moves");
    }
    match walk(alloc, spec, &history, &moves) {
        Ok(state) => state_text(alloc, &state),
        Err(fault) => fault_text(alloc, fault),
    }
}

/// What the call of a case answers.
pub(crate) fn answer_of(alloc: Global, specs: &Specs, said: &str) -> Result<String> {
    let Some((form, rest)) = said.split_once(' ') else {
        bail!("no form");
    };
    let (name, text) = match rest.split_once(' ') {
        Some(parts) => parts,
        None => (rest, ""),
    };
    let Some(spec) = specs.named(name) else {
        bail!("no specification {name}");
    };
    match form {
        "moves" => moves_answer(alloc, spec, text),
        "history" => history_answer(alloc, spec, text),
        "schedule" => schedule_answer(alloc, spec, text),
        "both" => both_answer(alloc, spec, text),
        "walk" => walk_answer(alloc, spec, text),
        "calls" => pair_answer(alloc, spec, many_calls(alloc, count_of(text)?)?),
        "boots" => pair_answer(alloc, spec, many_boots(alloc, count_of(text)?)?),
        _ => bail!("no form {form}"),
    }
}
