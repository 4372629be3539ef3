//! The history of a case.

ghost use Rattle.std.specs.Prelude.{◌<◌, ◌-◌, ◌^◌, All, IfOk, length};
ghost use Rattle.gv_spec.specs.History.{IsEntryOf};

use anyhow::{Result, bail};
use gv_base::{Place, Refusal};
use gv_replay::read_history;
use gv_spec::{Entry, Spec};
use std::alloc::Global;

// A text whose lines have `; ` between them.
fn lines(alloc: Global, said: &str) -> Result<String> {
    let mut text = String::new(alloc);
    for part in said.split("; ") {
        text.push_str(part)?;
        text.push_str("\n")?;
    }
    Ok(text)
}

// One call of `Inc` after another: each is answered before the next one starts.
fn many_calls(alloc: Global, count: u32) -> Result<String> {
    let mut text = String::new(alloc);
    text.push_str("boot\n")?;
    for n in 0..count {
        text.push_str(format!(in alloc; "call {n} Inc\nanswer {n} {n}\n")?.as_str())?;
    }
    Ok(text)
}

// The text of the history that a case says.
fn text_of(alloc: Global, said: &str) -> Result<String> {
    match said.strip_prefix("calls ") {
        None => lines(alloc, said),
        Some(count) => match count.parse::<u32>() {
            Ok(count) => many_calls(alloc, count),
            Err(_) => bail!("no count: {count}"),
        },
    }
}

/// An error that says where a text is refused.
pub(crate) fn refused(refusal: Refusal) -> Result<()> {
    match refusal {
        Refusal::NoMemory => bail!("out of memory"),
        Refusal::At { place, code } => {
            let Place { line, column } = place;
            let name = code.name();
            bail!("refused at {line}:{column}: {name}")
        }
    }
}

/// The history that a case says.
pub(crate) fn history_of(alloc: Global, spec: &Spec, said: &str) -> Result<Vec<Entry>>
    ensures entries { IfOk result (λ v. All (IsEntryOf spec.now) v.items) }
    ensures few { IfOk result (λ v. length v.items < 2 ^ 31 - 1) }
{
    let text = text_of(alloc, said)?;
    if text.len() >= u32::MAX as usize {
        bail!("a text too long");
    }
    match read_history(alloc, text.as_bytes(), spec) {
        Ok(history) if history.len() < i32::MAX as usize => Ok(history),
        Ok(_) => bail!("a history too long"),
        Err(refusal) => {
            refused(refusal)?;
            bail!("refused")
        }
    }
}
