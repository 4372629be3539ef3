//! Where a node stands: the fields, the calls in the table, and how much of the history is shown.

ghost use Rattle.std.specs.Prelude.{◌≡◌, ◌+◌, ◌<◌, ◌^◌, [], length, IfOk, Some};
ghost use Rattle.gv_atomic.specs.declared.spec.Spec.{Spec as Written};
ghost use Rattle.gv_spec.specs.Atomic.{atomic_of};
ghost use Rattle.gv_spec.specs.Entry as entry;
ghost use Rattle.gv_spec.specs.Move as move;
ghost use Rattle.gv_spec.specs.Walks.{first_walk};
ghost use Rattle.gv_judge.specs.Calls.{waiting_under};
ghost use Rattle.gv_judge.specs.Node.{StandsAt, StandsHere, Takes, TakesCall};

use crate::calls::{
    Kept, Waiting, kept_under, kept_without, put_in, same_kept, same_waiting, taken_out,
};
use crate::fields::Fields;
use gv_base::{List, NoMemory};
use gv_spec::{Spec, apply, crashed, init};
use gv_terms::Value;
use std::alloc::Global;

/// Where a node stands: the fields, the calls that have not acted by ascending numbers, those that have and
/// not answered, and how many entries of the history are shown. This project's own.
#[derive(Drop)]
pub struct Node<'h> {
    pub fields: Fields,
    pub waiting: Vec<Waiting<'h>>,
    pub acted: Vec<Kept>,
    pub place: usize,
}

impl<'h> Node<'h> {
    /// The first node.
    pub fn first(alloc: Global, spec: &Spec) -> Result<Node<'h>, NoMemory>
        ensures { IfOk result (λ n. StandsAt spec.now [] n (first_walk (atomic_of spec.now))) }
    {
        Ok(Node {
            fields: Fields::new(alloc, init(alloc, spec)?)?,
            waiting: Vec::new(alloc),
            acted: Vec::new(alloc),
            place: 0,
        })
    }

    /// A call starts, unless its number was used.
    pub fn call(
        &self,
        alloc: Global,
        new: Waiting<'h>,
        is_repeat: bool,
    ) -> Result<Option<Node<'h>>, NoMemory>
        requires { self.now.place + 1 < 2 ^ 64 }
        ensures { IfOk result (TakesCall self.now new.entry is_repeat) }
    {
        if is_repeat {
            return Ok(None);
        }
        Ok(Some(Node {
            fields: self.fields.share()?,
            waiting: put_in(alloc, self.waiting.as_slice(), new)?,
            acted: same_kept(alloc, self.acted.as_slice())?,
            place: self.place + 1,
        }))
    }

    /// A call answers, where its act kept this reply.
    pub fn answer(
        &self,
        alloc: Global,
        number: u32,
        reply: &Value,
    ) -> Result<Option<Node<'h>>, NoMemory>
        requires { self.now.place + 1 < 2 ^ 64 }
        ensures { IfOk result (λ o. (s : Written) → StandsHere s self.now (λ before w. Takes s before w (move.Other (entry.Answer number reply.now)) o)) }
    {
        match kept_under(self.acted.as_slice(), number) {
            None => Ok(None),
            Some(kept) => {
                if !reply.same(kept) {
                    return Ok(None);
                }
                Ok(Some(Node {
                    fields: self.fields.share()?,
                    waiting: same_waiting(alloc, self.waiting.as_slice())?,
                    acted: kept_without(alloc, self.acted.as_slice(), number)?,
                    place: self.place + 1,
                }))
            }
        }
    }

    /// A crash.
    pub fn crash(&self, alloc: Global) -> Result<Node<'h>, NoMemory>
        requires { self.now.place + 1 < 2 ^ 64 }
        ensures { IfOk result (λ n. (s : Written) → StandsHere s self.now (λ before w. Takes s before w (move.Other entry.Crash) (Some n))) }
    {
        Ok(Node {
            fields: self.fields.share()?,
            waiting: same_waiting(alloc, self.waiting.as_slice())?,
            acted: same_kept(alloc, self.acted.as_slice())?,
            place: self.place + 1,
        })
    }

    /// Recovery returns, where the crash that it ends allows the choices.
    pub fn boot(
        &self,
        alloc: Global,
        spec: &Spec,
        choices: &[u64],
    ) -> Result<Option<Node<'h>>, NoMemory>
        requires { self.now.place + 1 < 2 ^ 64 }
        ensures { IfOk result (λ o. StandsHere spec.now self.now (λ before w. Takes spec.now before w (move.Boot choices.now) o)) }
    {
        match crashed(alloc, spec, self.fields.state(), choices)? {
            None => Ok(None),
            Some(state) => {
                let fields = Fields::new(alloc, state)?;
                Ok(Some(Node {
                    fields,
                    waiting: Vec::new(alloc),
                    acted: Vec::new(alloc),
                    place: self.place + 1,
                }))
            }
        }
    }

    /// A call acts, where its operation allows the choices.
    pub fn act(
        &self,
        alloc: Global,
        spec: &Spec,
        call: Waiting<'h>,
        choices: &[u64],
    ) -> Result<Option<Node<'h>>, NoMemory>
        requires { call.op < length spec.now.ops }
        ensures { IfOk result (λ o. waiting_under self.now.waiting.items call.entry.number ≡ Some (call.entry.op, call.entry.args.now)
            → StandsHere spec.now self.now (λ before w. Takes spec.now before w (move.Act call.entry.number choices.now) o)) }
    {
        match apply(
            alloc,
            spec,
            self.fields.state(),
            call.op,
            call.args.as_slice(),
            choices,
        )? {
            None => Ok(None),
            Some((state, reply)) => {
                let fields = Fields::new(alloc, state)?;
                let number = call.number;
                let mut acted = same_kept(alloc, self.acted.as_slice())?;
                acted.push(Kept { number, reply })?;
                Ok(Some(Node {
                    fields,
                    waiting: taken_out(alloc, self.waiting.as_slice(), number)?,
                    acted,
                    place: self.place,
                }))
            }
        }
    }
}
