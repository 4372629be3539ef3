//! What texts tell, as a table writes it: each line with its parts, the number of the operation in place of its name, and `;`
//! behind it.

use anyhow::Result;
use gv_base::{Place, Refusal};
use gv_history::WalkFault;
use gv_replay::{Entry, Event, Move, Schedule};
use gv_spec::State;
use gv_terms::Value;
use std::alloc::Global;

// Many equal bytes as one of them and their number, and others one by one.
fn show_bytes(alloc: Global, out: &mut String, bytes: &[u8]) -> Result<()> {
    out.push_str(" #")?;
    let count = bytes.len();
    if let [first, ..] = bytes {
        if count > 64 && bytes.iter().all(|byte| *byte == *first) {
            out.push_str(format!(in alloc; "{first:02x}*{count}")?.as_str())?;
            return Ok(());
        }
    }
    for byte in bytes {
        out.push_str(format!(in alloc; "{byte:02x}")?.as_str())?;
    }
    Ok(())
}

fn show_value(alloc: Global, out: &mut String, value: &Value) -> Result<()> {
    match value {
        Value::Word(n) => out.push_str(format!(in alloc; " {n}")?.as_str())?,
        Value::Bool(b) => out.push_str(format!(in alloc; " {b}")?.as_str())?,
        Value::Bytes(bytes) => show_bytes(alloc, out, bytes.as_slice())?,
        Value::Unit => {}
        _ => out.push_str(" ?")?,
    }
    Ok(())
}

fn show_entry(alloc: Global, out: &mut String, entry: &Entry) -> Result<()> {
    match entry {
        Entry::Call { number, op, args } => {
            out.push_str(format!(in alloc; "call {number} {op}")?.as_str())?;
            for value in args.as_slice() {
                show_value(alloc, out, value)?;
            }
        }
        Entry::Answer { number, reply } => {
            out.push_str(format!(in alloc; "answer {number}")?.as_str())?;
            show_value(alloc, out, reply)?;
        }
        Entry::Crash => out.push_str("crash")?,
        Entry::Boot => out.push_str("boot")?,
    }
    out.push_str(";")?;
    Ok(())
}

fn show_choices(alloc: Global, out: &mut String, choices: &[u64]) -> Result<()> {
    for choice in choices {
        out.push_str(format!(in alloc; " {choice}")?.as_str())?;
    }
    out.push_str(";")?;
    Ok(())
}

/// The lines of moves.
pub(crate) fn moves_text(alloc: Global, moves: &[Move]) -> Result<String> {
    let mut out = String::new(alloc);
    for m in moves {
        match m {
            Move::Act { number, choices } => {
                out.push_str(format!(in alloc; "act {number}")?.as_str())?;
                show_choices(alloc, &mut out, choices.as_slice())?;
            }
            Move::Boot { choices } => {
                out.push_str("boot")?;
                show_choices(alloc, &mut out, choices.as_slice())?;
            }
            Move::Other(entry) => show_entry(alloc, &mut out, entry)?,
        }
    }
    Ok(out)
}

/// The lines of a history.
pub(crate) fn history_text(alloc: Global, history: &[Entry]) -> Result<String> {
    let mut out = String::new(alloc);
    for entry in history {
        show_entry(alloc, &mut out, entry)?;
    }
    Ok(out)
}

fn show_event(alloc: Global, out: &mut String, event: &Event) -> Result<()> {
    match event {
        Event::Call { op, args } => {
            out.push_str(format!(in alloc; "call {op}")?.as_str())?;
            for value in args.as_slice() {
                show_value(alloc, out, value)?;
            }
        }
        Event::Step { thread, extra } => {
            out.push_str(format!(in alloc; "step {thread} {extra}")?.as_str())?
        }
        Event::Crash => out.push_str("crash")?,
        Event::Fail { disk } => out.push_str(format!(in alloc; "fail {disk}")?.as_str())?,
    }
    Ok(())
}

/// The lines of a schedule, each with its place, its event, and how often that happens.
pub(crate) fn schedule_text(alloc: Global, schedule: &Schedule) -> Result<String> {
    let mut out = String::new(alloc);
    for line in schedule.events.as_slice() {
        let Place { line: row, column } = line.place;
        out.push_str(format!(in alloc; "{row}:{column} ")?.as_str())?;
        show_event(alloc, &mut out, &line.event)?;
        let count = line.count;
        out.push_str(format!(in alloc; " *{count};")?.as_str())?;
    }
    Ok(out)
}

/// Where a text is refused and by which code.
pub(crate) fn refusal_text(alloc: Global, refusal: Refusal) -> Result<String> {
    match refusal {
        Refusal::NoMemory => Ok(format!(in alloc; "out of memory")?),
        Refusal::At { place, code } => {
            let Place { line, column } = place;
            let name = code.name();
            Ok(format!(in alloc; "{line}:{column} {name}")?)
        }
    }
}

/// The values of the fields where a walk ended.
pub(crate) fn state_text(alloc: Global, state: &State) -> Result<String> {
    let mut out = String::new(alloc);
    out.push_str("explained")?;
    for value in state.values.as_slice() {
        show_value(alloc, &mut out, value)?;
    }
    Ok(out)
}

/// The number of the move that is refused, and why.
pub(crate) fn fault_text(alloc: Global, fault: WalkFault) -> Result<String> {
    match fault {
        WalkFault::NoMemory => Ok(format!(in alloc; "out of memory")?),
        WalkFault::At { index, cause } => {
            let name = cause.name();
            Ok(format!(in alloc; "{index} {name}")?)
        }
    }
}
