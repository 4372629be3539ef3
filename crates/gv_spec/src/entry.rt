//! What a history tells of a run.

ghost use Rattle.std.specs.Prelude.{◌≡◌, ◌↔◌, IfOk, IsTrue};
ghost use Rattle.gv_spec.specs.declared.entry.Entry.TheVariants as entry;

use crate::meaning::takes;
use gv_atomic::Spec;
use gv_base::{List, NoMemory};
use gv_terms::{Value, copy_list, same_lists};
use std::alloc::Global;

/// An entry of a history: a call of an operation started under a number, counted from 1; the call
/// under a number answered with this reply; a crash; or the return of recovery.
/// This project's own.
#[derive(Debug, Drop)]
pub enum Entry {
    Call {
        number: u32,
        op: u32,
        args: List<Value>,
    },
    Answer {
        number: u32,
        reply: Value,
    },
    Crash,
    Boot,
}

impl Entry {
    ghost use Rattle.gv_spec.specs.History.{IsEntryOf};

    /// An equal entry.
    pub fn copy(&self, alloc: Global) -> Result<Entry, NoMemory>
        ensures { IfOk result (λ e. e ≡ self.now) }
    {
        match self {
            Entry::Call { number, op, args } => Ok(Entry::Call {
                number: *number,
                op: *op,
                args: copy_list(alloc, args)?,
            }),
            Entry::Answer { number, reply } => Ok(Entry::Answer {
                number: *number,
                reply: reply.copy(alloc)?,
            }),
            Entry::Crash => Ok(Entry::Crash),
            Entry::Boot => Ok(Entry::Boot),
        }
    }

    /// Whether the two entries are equal.
    pub fn same(&self, other: &Entry) -> bool
        ensures { IsTrue result ↔ (self.now ≡ other.now) }
    {
        match self {
            Entry::Call { number, op, args } => other.is_call(*number, *op, args),
            Entry::Answer { number, reply } => other.is_answer(*number, reply),
            Entry::Crash => other.is_crash(),
            Entry::Boot => other.is_boot(),
        }
    }

    /// Whether a call is of an operation of the specification, with arguments of its parameters' sorts.
    pub fn is_of(&self, spec: &Spec) -> bool
        ensures { IsTrue result ↔ IsEntryOf spec.now self.now }
    {
        match self {
            Entry::Call {
                number: _,
                op,
                args,
            } => takes(spec, *op, args.as_slice()),
            _ => true,
        }
    }

    fn is_call(&self, number: u32, op: u32, args: &List<Value>) -> bool
        ensures { IsTrue result ↔ (entry.Call number op args.now ≡ self.now) }
    {
        match self {
            Entry::Call {
                number: n,
                op: o,
                args: values,
            } => number == *n && op == *o && same_lists(args, values),
            _ => false,
        }
    }

    fn is_answer(&self, number: u32, reply: &Value) -> bool
        ensures { IsTrue result ↔ (entry.Answer number reply.now ≡ self.now) }
    {
        match self {
            Entry::Answer {
                number: n,
                reply: value,
            } => number == *n && reply.same(value),
            _ => false,
        }
    }

    fn is_crash(&self) -> bool
        ensures { IsTrue result ↔ (entry.Crash ≡ self.now) }
    {
        match self {
            Entry::Crash => true,
            _ => false,
        }
    }

    fn is_boot(&self) -> bool
        ensures { IsTrue result ↔ (entry.Boot ≡ self.now) }
    {
        match self {
            Entry::Boot => true,
            _ => false,
        }
    }
}
