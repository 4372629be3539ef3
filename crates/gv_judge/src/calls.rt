//! The calls that are in the table.

ghost use Rattle.std.specs.Prelude.{◌≡◌, IfOk};
ghost use Rattle.std.specs.Option.{option_copied};
ghost use Rattle.gv_judge.specs.Calls.{put_in, taken_out, kept_under, kept_without};

use gv_base::{List, NoMemory};
use gv_terms::Value;
use std::alloc::Global;

/// A call that has not acted: its number, its operation, and its arguments, which are the history's.
/// This project's own.
#[derive(Clone, Copy, Drop)]
pub struct Waiting<'h> {
    pub number: u32,
    pub op: u32,
    pub args: &'h List<Value>,
}

/// A call that has acted and not answered: its number, and the reply that its act kept.
/// This project's own.
#[derive(Drop)]
pub struct Kept {
    pub number: u32,
    pub reply: Value,
}

/// The calls and one more, which comes before those of greater numbers.
pub fn put_in<'h>(
    alloc: Global,
    calls: &[Waiting<'h>],
    new: Waiting<'h>,
) -> Result<Vec<Waiting<'h>>, NoMemory>
    ensures { IfOk result (λ v. v.items ≡ put_in new.entry calls.now) }
{
    let mut out = Vec::new(alloc);
    let mut left = calls;
    let mut is_put = false;
    while let [call, rest @ ..] = left {
        if !is_put && new.number < call.number {
            out.push(new)?;
            is_put = true;
        }
        out.push(*call)?;
        left = rest;
    }
    if !is_put {
        out.push(new)?;
    }
    Ok(out)
}

/// The calls but for the one under a number.
pub fn taken_out<'h>(
    alloc: Global,
    calls: &[Waiting<'h>],
    number: u32,
) -> Result<Vec<Waiting<'h>>, NoMemory>
    ensures { IfOk result (λ v. v.items ≡ taken_out number calls.now) }
{
    let mut out = Vec::new(alloc);
    let mut left = calls;
    while let [call, rest @ ..] = left {
        if number != call.number {
            out.push(*call)?;
        }
        left = rest;
    }
    Ok(out)
}

/// Equal calls.
pub fn same_waiting<'h>(alloc: Global, calls: &[Waiting<'h>]) -> Result<Vec<Waiting<'h>>, NoMemory>
    ensures { IfOk result (λ v. v.items ≡ calls.now) }
{
    let mut out = Vec::new(alloc);
    let mut left = calls;
    while let [call, rest @ ..] = left {
        out.push(*call)?;
        left = rest;
    }
    Ok(out)
}

/// Equal calls with their replies.
pub fn same_kept(alloc: Global, calls: &[Kept]) -> Result<Vec<Kept>, NoMemory>
    ensures { IfOk result (λ v. v.items ≡ calls.now) }
{
    let mut out = Vec::new(alloc);
    let mut left = calls;
    while let [call, rest @ ..] = left {
        out.push(call.copy(alloc)?)?;
        left = rest;
    }
    Ok(out)
}

/// The calls with their replies, but for the one under a number.
pub fn kept_without(alloc: Global, calls: &[Kept], number: u32) -> Result<Vec<Kept>, NoMemory>
    ensures { IfOk result (λ v. v.items ≡ kept_without number calls.now) }
{
    let mut out = Vec::new(alloc);
    let mut left = calls;
    while let [call, rest @ ..] = left {
        if number != call.number {
            out.push(call.copy(alloc)?)?;
        }
        left = rest;
    }
    Ok(out)
}

/// The reply of the call under a number, where it is there.
pub fn kept_under(calls: &[Kept], number: u32) -> Option<&Value>
    ensures { option_copied result ≡ kept_under calls.now number }
{
    let mut left = calls;
    while let [call, rest @ ..] = left {
        if number == call.number {
            return Some(&call.reply);
        }
        left = rest;
    }
    None
}

impl Kept {
    /// An equal one.
    pub fn copy(&self, alloc: Global) -> Result<Kept, NoMemory>
        ensures { IfOk result (λ k. k ≡ self.now) }
    {
        Ok(Kept {
            number: self.number,
            reply: self.reply.copy(alloc)?,
        })
    }
}
