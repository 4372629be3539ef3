//! The events of a schedule as an account of lines.

ghost use Rattle.std.specs.Prelude.{◌≡◌, ◌+◌, Ok, IfOk, IfErr, OnOk};
ghost use Rattle.gv_text.specs.Stops.{StopsAs};
ghost use Rattle.gv_replay.specs.OperationTable.{IsTableOf};
ghost use Rattle.gv_replay.specs.Plans as plans;

use crate::account::Account;
use crate::argument::Number;
use crate::line::Line;
use crate::meaning::{arity, bounded, called, narrow};
use crate::operations::Operations;
use gv_atomic::Spec;
use gv_base::{Code, List, NoMemory};
use gv_spec::Event;
use gv_text::Stop;
use std::alloc::Global;

// How many events a schedule has at most.
const MOST_EVENTS: u64 = 1_000_000;

/// An event, how often it happens, and the byte of its line's first token. This project's own.
#[derive(Debug, Drop)]
pub struct Planned {
    pub at: u32,
    pub event: Event,
    pub count: u32,
}

/// The lines of a schedule, and how many events they stand for. This project's own.
#[derive(Debug, Drop)]
pub struct Plan {
    pub lines: List<Planned>,
    pub events: u32,
}

impl Plan {
    /// A plan without lines.
    pub fn new(alloc: Global) -> Plan
        ensures { result ≡ plans.no_plan }
    {
        Plan {
            lines: List::new(alloc),
            events: 0,
        }
    }
}

impl Account for Plan {
    ghost with_line = { plans.with_plan };

    fn add(
        self,
        alloc: Global,
        spec: &Spec,
        table: &Operations,
        line: &Line,
    ) -> Result<Plan, Stop> {
        arity_in(spec, table, line)?;
        let size = size_of(line);
        let total = room(self.events, size)?;
        let event = event_in(alloc, spec, table, line)?;
        Ok(with_event(self, size, total, event)?)
    }
}

fn arity_in(spec: &Spec, table: &Operations, line: &Line) -> Result<(), Stop>
    requires { IsTableOf spec.now.ops table.now }
    ensures ok { IfOk result (λ x. plans.arity_in spec.now line.now ≡ Ok x) }
    ensures err { IfErr result (StopsAs (plans.arity_in spec.now line.now)) }
{
    match line {
        Line::Call(call) => arity(spec, table, call),
        _ => Ok(()),
    }
}

// How many events a line stands for, and the byte of its first token.
fn size_of(line: &Line) -> (u64, u32)
    ensures { result ≡ plans.size_of line.now }
{
    match line {
        Line::Call(call) => (1, call.at),
        Line::Crash { at } => (1, *at),
        Line::Step { at, count, .. } => (count_of(*count), *at),
        Line::Fail { at, .. } => (1, *at),
        Line::Grow { at, .. } => (1, *at),
        Line::Answer { .. } | Line::Act { .. } | Line::Boot { .. } | Line::End => (0, 0),
    }
}

fn count_of(count: Option<Number>) -> u64
    ensures { result ≡ plans.count_of count }
{
    match count {
        Some(number) => number.value,
        None => 1,
    }
}

// The number of events with these more, where they aren't too many.
fn room(events: u32, size: (u64, u32)) -> Result<u32, Stop>
    ensures ok { OnOk result (plans.room events size ≡ Ok tt) }
    ensures total { IfOk result (λ n. n ≡ events + size.0) }
    ensures err { IfErr result (StopsAs (plans.room events size)) }
{
    match u64::from(events).checked_add(size.0) {
        Some(total) if total <= MOST_EVENTS => Ok(total as u32),
        _ => Err(Stop::At(size.1, Code::TooManyEvents)),
    }
}

// The event of a line, none of lines that stand in no schedule.
fn event_in(
    alloc: Global,
    spec: &Spec,
    table: &Operations,
    line: &Line,
) -> Result<Option<Event>, Stop>
    requires { IsTableOf spec.now.ops table.now }
    ensures ok { IfOk result (λ e. plans.event_in spec.now line.now ≡ Ok e) }
    ensures err { IfErr result (StopsAs (plans.event_in spec.now line.now)) }
{
    match line {
        Line::Call(call) => {
            let (op, args) = called(alloc, spec, table, call)?;
            Ok(Some(Event::Call { op, args }))
        }
        Line::Crash { .. } => Ok(Some(Event::Crash)),
        Line::Step { thread, .. } => {
            let thread = narrow(*thread)?;
            Ok(Some(Event::Step { thread, extra: 0 }))
        }
        Line::Fail { disk, .. } => {
            let disk = bounded(2, *disk)?;
            Ok(Some(Event::Fail { disk }))
        }
        Line::Grow { thread, extra, .. } => {
            let thread = narrow(*thread)?;
            Ok(Some(Event::Step {
                thread,
                extra: extra.value,
            }))
        }
        Line::Answer { .. } | Line::Act { .. } | Line::Boot { .. } | Line::End => Ok(None),
    }
}

// The plan with a line's event.
fn with_event(
    plan: Plan,
    size: (u64, u32),
    total: u32,
    event: Option<Event>,
) -> Result<Plan, NoMemory>
    requires { total ≡ plan.events + size.0 }
    ensures { IfOk result (λ p. p ≡ plans.planned plan size event) }
{
    let Plan { mut lines, events } = plan;
    let Some(event) = event else {
        return Ok(Plan { lines, events });
    };
    lines.push(Planned {
        at: size.1,
        event,
        count: size.0 as u32,
    })?;
    Ok(Plan {
        lines,
        events: total,
    })
}
