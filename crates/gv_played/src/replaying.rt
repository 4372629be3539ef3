//! The run of a schedule.

ghost use Rattle.std.specs.Prelude.{◌≡◌, ◌≤◌, All, IfOk, IfErr, map, sum};
ghost use Rattle.gv_lang.specs.Plain.{program_of};
ghost use Rattle.gv_spec.specs.History.{IsEventOf};
ghost use Rattle.gv_played.specs.Played.{IsRan, IsFault};

use crate::fault::ReplayFault;
use crate::line::{Played, play};
use gv_atomic::Spec;
use gv_base::{List, Reason};
use gv_lang::Program;
use gv_machine::{Entry, Machine};
use gv_replay::Schedule;
use std::alloc::Global;

/// What a schedule came to: the history, and where an event was undefined its number in the schedule, counted
/// from 1, and why. This project's own.
#[derive(Debug, Drop)]
pub struct Ran {
    pub history: List<Entry>,
    pub undefined: Option<(u32, Reason)>,
}

/// The run of a schedule's events, one after another, on the machine of a program in the setting of a
/// specification, up to the first undefined event. An event that isn't possible counts, and changes nothing.
///
/// The calls are those of the specification, and the counts come to 1,000,000 at most, as in each schedule that
/// `read_schedule` reads. `TooManyCells` names the line of the first event that would leave more than 2^24 live
/// cells, where no event before it is undefined. This project's own.
pub fn replay(
    alloc: Global,
    program: &Program,
    spec: &Spec,
    s: &Schedule,
) -> Result<Ran, ReplayFault>
    requires of_spec { All (λ l. IsEventOf spec.now l.event) s.now.events }
    requires few { sum (map (λ l. l.count) s.now.events) ≤ 1000000 }
    ensures ran { IfOk result (IsRan (program_of program.now) spec.now s.now.events) }
    ensures fault { IfErr result (IsFault (program_of program.now) spec.now s.now.events) }
{
    let mut machine = Machine::start(alloc, program, spec)?;
    let mut before = 0;
    let mut rest = s.events.as_slice();
    while let [line, tail @ ..] = rest {
        match play(alloc, &mut machine, &line.event, line.count) {
            Played::Through => {
                before += line.count;
                rest = tail;
            }
            Played::Undefined(number, reason) => {
                return Ok(Ran {
                    history: machine.into_history(),
                    undefined: Some((before + number, reason)),
                });
            }
            Played::TooMany(_) => return Err(ReplayFault::TooManyCells(line.place)),
            Played::NoMemory => return Err(ReplayFault::NoMemory),
        }
    }
    Ok(Ran {
        history: machine.into_history(),
        undefined: None,
    })
}
