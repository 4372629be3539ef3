//! Entries of histories as lines.

ghost use Rattle.std.specs.Prelude.{◌≡◌, ◌++◌, OnOk, IfOk};
ghost use Rattle.gv_lines.specs.Lines as lines;
ghost use Rattle.gv_spec.specs.declared.entry.Entry.TheVariants as entry;

use crate::values::{push_value, push_values};
use gv_base::{List, Name, NoMemory};
use gv_spec::{Entry, Spec};
use gv_terms::Value;
use std::alloc::Global;

fn push_name(out: &mut Vec<u8>, spec: &Spec, op: u32) -> Result<(), NoMemory>
    ensures { OnOk result (out.new.items ≡ out.old.items ++ lines.op_name spec.now op) }
{
    match spec.ops.get(op as usize) {
        Some(op) => {
            out.extend_from_slice(op.name.as_slice())?;
            Ok(())
        }
        None => Ok(()),
    }
}

fn call_line(
    alloc: Global,
    spec: &Spec,
    number: u32,
    op: u32,
    args: &List<Value>,
) -> Result<Vec<u8>, NoMemory>
    ensures { IfOk result (λ line. line.items ≡ lines.entry_line spec.now (entry.Call number op args.now)) }
{
    let start = format!(in alloc; "call {} ", number)?;
    let mut line = Vec::from_slice(alloc, start.as_bytes())?;
    push_name(&mut line, spec, op)?;
    push_values(alloc, &mut line, args.as_slice())?;
    Ok(line)
}

fn answer_line(alloc: Global, spec: &Spec, number: u32, reply: &Value) -> Result<Vec<u8>, NoMemory>
    ensures { IfOk result (λ line. line.items ≡ lines.entry_line spec.now (entry.Answer number reply.now)) }
{
    let start = format!(in alloc; "answer {}", number)?;
    let mut line = Vec::from_slice(alloc, start.as_bytes())?;
    push_value(alloc, &mut line, reply)?;
    Ok(line)
}

/// An entry of a history as a line of one, without its newline: `call K OP ARGS`, `answer K REPLY`, `crash` or `boot`. Words are
/// decimal, truth values `true` and `false`, and bytes `#` with two digits a byte, or `#HH*COUNT` where at least two bytes are
/// there and all are equal. Of an operation that the specification doesn't have the name is empty. This project's own.
pub fn entry_line(alloc: Global, spec: &Spec, e: &Entry) -> Result<Name, NoMemory>
    ensures { IfOk result (λ line. line ≡ lines.entry_line spec.now e.now) }
{
    let line = match e {
        Entry::Call { number, op, args } => call_line(alloc, spec, *number, *op, args)?,
        Entry::Answer { number, reply } => answer_line(alloc, spec, *number, reply)?,
        Entry::Crash => Vec::from_slice(alloc, b"crash")?,
        Entry::Boot => Vec::from_slice(alloc, b"boot")?,
    };
    Name::from_vec(alloc, line)
}

/// The lines of a history in order.
pub fn entry_lines(alloc: Global, spec: &Spec, history: &[Entry]) -> Result<Vec<Name>, NoMemory>
    ensures { IfOk result (λ made. made.items ≡ lines.entry_lines spec.now history.now) }
{
    let mut made = Vec::new(alloc);
    for e in history {
        made.push(entry_line(alloc, spec, e)?)?;
    }
    Ok(made)
}
