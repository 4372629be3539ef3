//! What comes of each event of a schedule.

ghost use Rattle.std.specs.Prelude.{◌≡◌, ◌+◌, ◌≤◌, ◌^◌, All, length};
ghost use Rattle.gv_spec.specs.History.{IsEventOf};
ghost use Rattle.gv_machine.specs.Machines.{spec_in, state_in};

use crate::tally::Tally;
use anyhow::{Result, bail};
use gv_atomic::Spec;
use gv_lang::Program;
use gv_machine::{Event, Machine};
use gv_replay::Schedule;
use std::alloc::Global;

// The same event so many times.
fn tried(alloc: Global, machine: &mut Machine<'_>, e: &Event, count: u32) -> Result<Vec<u8>>
    requires of_spec { IsEventOf (spec_in machine.old) e.now }
    requires few { length (state_in machine.old).threads + count ≤ 2 ^ 32 }
    ensures threads { length (state_in machine.new).threads ≤ length (state_in machine.old).threads + count }
    ensures spec { spec_in machine.new ≡ spec_in machine.old }
{
    let mut tally = Tally::new(alloc);
    let mut done = 0;
    while done < count {
        tally.add(alloc, machine.event(alloc, e))?;
        done += 1;
    }
    tally.finish(alloc)
}

fn push_part(out: &mut Vec<u8>, part: &[u8]) -> Result<()> {
    if !out.is_empty() {
        out.extend_from_slice(b"; ")?;
    }
    out.extend_from_slice(part)?;
    Ok(())
}

/// For each line what came of its events, those in a row together; `; ` stands between the lines.
pub(crate) fn tries_text(
    alloc: Global,
    program: &Program,
    spec: &Spec,
    schedule: &Schedule,
) -> Result<Vec<u8>>
    requires of_spec { All (λ l. IsEventOf spec.now l.event) schedule.now.events }
{
    let mut machine = Machine::start(alloc, program, spec)?;
    let mut out = Vec::new(alloc);
    let mut left = 1000000u32;
    let mut rest = schedule.events.as_slice();
    while let [line, tail @ ..] = rest {
        if left < line.count {
            bail!("more than 1,000,000 events");
        }
        left -= line.count;
        let part = tried(alloc, &mut machine, &line.event, line.count)?;
        push_part(&mut out, part.as_slice())?;
        rest = tail;
    }
    Ok(out)
}
