//! What may happen to a running package.

ghost use Rattle.std.specs.Prelude.{◌≡◌, ◌↔◌, IfOk, IsTrue};

use crate::meaning::takes;
use gv_atomic::Spec;
use gv_base::{List, NoMemory};
use gv_terms::{Value, copy_list};
use std::alloc::Global;

/// An event of a run: a call of an operation, by its number from 0; one step of the thread under a
/// number, counted from 1; a crash; or the failure of a disk, 0 or 1. A step that makes a larger copy of
/// a slice gives it `extra` items more than it needs; no other step looks at `extra`.
/// This project's own.
#[derive(Debug, Drop)]
pub enum Event {
    Call { op: u32, args: List<Value> },
    Step { thread: u32, extra: u64 },
    Crash,
    Fail { disk: u32 },
}

impl Event {
    ghost use Rattle.gv_spec.specs.History.{IsEventOf};

    /// An equal event.
    pub fn copy(&self, alloc: Global) -> Result<Event, NoMemory>
        ensures { IfOk result (λ e. e ≡ self.now) }
    {
        match self {
            Event::Call { op, args } => Ok(Event::Call {
                op: *op,
                args: copy_list(alloc, args)?,
            }),
            Event::Step { thread, extra } => Ok(Event::Step {
                thread: *thread,
                extra: *extra,
            }),
            Event::Crash => Ok(Event::Crash),
            Event::Fail { disk } => Ok(Event::Fail { disk: *disk }),
        }
    }

    /// Whether a call is of an operation of the specification, with arguments of its parameters' sorts.
    pub fn is_of(&self, spec: &Spec) -> bool
        ensures { IsTrue result ↔ IsEventOf spec.now self.now }
    {
        match self {
            Event::Call { op, args } => takes(spec, *op, args.as_slice()),
            _ => true,
        }
    }
}
