//! The walk along the moves of an explanation.

ghost use Rattle.std.specs.Prelude.{◌≡◌, ◌≤◌, ◌<◌, ◌+◌, ◌^◌, IfOk, IfErr, OnOk, map, Some};
ghost use Rattle.gv_atomic.specs.declared.spec.Spec.{Spec as Written};
ghost use Rattle.gv_terms.specs.Values.{value_eq};
ghost use Rattle.gv_spec.specs.Atomic.{atomic_of};
ghost use Rattle.gv_spec.specs.History.{entry_of, move_of};
ghost use Rattle.gv_spec.specs.Move as move;
ghost use Rattle.gv_spec.specs.Move.{shown};
ghost use Rattle.gv_spec.specs.Walks.{Acted, Answered, entered, first_walk, walk_called, walk_acted, walk_answered, booted_to, walk_moved, in_order, left_after, moved_beside};
ghost use Rattle.gv_history.specs.Fault.{Follows, IsRefused};
ghost use Rattle.gv_history.specs.Walker.{HasOps};

use crate::fault::{WalkCause, WalkFault};
use crate::seen::Standing;
use crate::table::Table;
use gv_base::{List, NoMemory};
use gv_spec::{Entry, Move, Spec, State, apply, crashed, init};
use gv_terms::{Value, copy_list};
use std::alloc::Global;

/// The fields and the table of calls. This project's own.
#[derive(Drop)]
pub struct Walker {
    pub fields: State,
    pub table: Table,
}

impl Walker {
    ghost use Rattle.gv_history.specs.Walker.{walk_in};
    ghost use Rattle.gv_history.specs.Table.{standing_in};

    /// The walk before its first move.
    pub fn start(alloc: Global, spec: &Spec) -> Result<Walker, NoMemory>
        ensures first { IfOk result (λ w. walk_in w ≡ first_walk (atomic_of spec.now)) }
        ensures boots { IfOk result (λ w. w.table.boots ≡ 0) }
    {
        Ok(Walker {
            fields: init(alloc, spec)?,
            table: Table::new(alloc),
        })
    }

    /// One move beside what is left of the history.
    pub fn step(
        &mut self,
        alloc: Global,
        spec: &Spec,
        index: u32,
        left: &[Entry],
        m: &Move,
    ) -> Result<(), WalkFault>
        requires boots { self.old.table.boots + 1 < 2 ^ 64 }
        requires ops { HasOps spec.now (walk_in self.old) }
        ensures step { Follows index result (moved_beside (atomic_of spec.now) (walk_in self.old) (map entry_of left.now) (move_of m.now)) (walk_in self.new) }
        ensures boots { OnOk result (self.new.table.boots ≤ self.old.table.boots + 1) }
    {
        if !is_in_order(left, m) {
            return Err(WalkFault::At {
                index,
                cause: WalkCause::Order,
            });
        }
        self.make(alloc, spec, index, m)
    }

    fn make(&mut self, alloc: Global, spec: &Spec, index: u32, m: &Move) -> Result<(), WalkFault>
        requires boots { self.old.table.boots + 1 < 2 ^ 64 }
        requires ops { HasOps spec.now (walk_in self.old) }
        ensures step { Follows index result (walk_moved (atomic_of spec.now) (walk_in self.old) (move_of m.now)) (walk_in self.new) }
        ensures boots { OnOk result (self.new.table.boots ≤ self.old.table.boots + 1) }
    {
        match m {
            Move::Act { number, choices } => {
                self.act(alloc, spec, index, *number, choices.as_slice())
            }
            Move::Boot { choices } => self.boot(alloc, spec, index, choices.as_slice()),
            Move::Other(entry) => self.tell(alloc, spec, index, entry),
        }
    }

    // An entry of the history.
    fn tell(
        &mut self,
        alloc: Global,
        spec: &Spec,
        index: u32,
        entry: &Entry,
    ) -> Result<(), WalkFault>
        requires { self.old.table.boots + 1 < 2 ^ 64 }
        ensures step { Follows index result (walk_moved (atomic_of spec.now) (walk_in self.old) (move.Other (entry_of entry.now))) (walk_in self.new) }
        ensures boots { OnOk result (self.new.table.boots ≤ self.old.table.boots + 1) }
    {
        match entry {
            Entry::Call { number, op, args } => self.call(alloc, index, *number, *op, args),
            Entry::Answer { number, reply } => self.answer(index, *number, reply),
            Entry::Crash => Ok(()),
            Entry::Boot => self.boot(alloc, spec, index, &[]),
        }
    }

    // A call starts: it enters the table, under a number that was never used.
    fn call(
        &mut self,
        alloc: Global,
        index: u32,
        number: u32,
        op: u32,
        args: &List<Value>,
    ) -> Result<(), WalkFault>
        ensures step { (s : Written) → Follows index result
            (walk_called (atomic_of s) (walk_in self.old) number op args.now (standing_in self.old.table number)) (walk_in self.new) }
        ensures boots { self.new.table.boots ≡ self.old.table.boots }
    {
        if self.table.was_called(number) {
            return Err(WalkFault::At {
                index,
                cause: WalkCause::Repeated,
            });
        }
        let args = copy_list(alloc, args)?;
        self.table.enter(number, Standing::Called { op, args })?;
        Ok(())
    }

    // A call acts: its operation is applied to the fields under these choices, and its reply kept.
    fn act(
        &mut self,
        alloc: Global,
        spec: &Spec,
        index: u32,
        number: u32,
        choices: &[u64],
    ) -> Result<(), WalkFault>
        requires { HasOps spec.now (walk_in self.old) }
        ensures step { Follows index result (walk_acted (atomic_of spec.now) (walk_in self.old) number choices.now (standing_in self.old.table number))
            (walk_in self.new) }
        ensures boots { self.new.table.boots ≡ self.old.table.boots }
    {
        let (fields, reply) = self.applied(alloc, spec, index, number, choices)?;
        self.table.enter(number, Standing::Acted { reply })?;
        self.fields = fields;
        Ok(())
    }

    // The fields and the reply after the call's operation, where it is in the table, has not acted, and
    // the choices are allowed.
    fn applied(
        &self,
        alloc: Global,
        spec: &Spec,
        index: u32,
        number: u32,
        choices: &[u64],
    ) -> Result<(State, Value), WalkFault>
        requires { HasOps spec.now (walk_in self.now) }
        ensures ok { IfOk result (λ r. walk_acted (atomic_of spec.now) (walk_in self.now) number choices.now (standing_in self.now.table number)
            ≡ Ok (record { fields = r.0.values; table = entered (standing_in self.now.table) number (Acted r.1) })) }
        ensures err { IfErr result (IsRefused index
            (walk_acted (atomic_of spec.now) (walk_in self.now) number choices.now (standing_in self.now.table number))) }
    {
        let cause = match self.table.present(number) {
            Some(Standing::Called { op, args }) => {
                if let Some(after) = apply(
                    alloc,
                    spec,
                    &self.fields,
                    *op,
                    args.as_slice(),
                    choices,
                )? {
                    return Ok(after);
                }
                WalkCause::BadChoice
            }
            Some(Standing::Acted { .. }) => WalkCause::ActedAlready,
            Some(Standing::Answered) | None => WalkCause::NotCalled,
        };
        Err(WalkFault::At { index, cause })
    }

    // A call answers with the reply that its act kept, and leaves the table.
    fn answer(&mut self, index: u32, number: u32, reply: &Value) -> Result<(), WalkFault>
        ensures step { (s : Written) → Follows index result
            (walk_answered (atomic_of s) (walk_in self.old) number reply.now (standing_in self.old.table number)) (walk_in self.new) }
        ensures boots { self.new.table.boots ≡ self.old.table.boots }
    {
        self.replies(index, number, reply)?;
        self.table.enter(number, Standing::Answered)?;
        Ok(())
    }

    // Whether this is the reply that the call's act kept.
    fn replies(&self, index: u32, number: u32, reply: &Value) -> Result<(), WalkFault>
        ensures ok { OnOk result ((s : Written)
            → walk_answered (atomic_of s) (walk_in self.now) number reply.now (standing_in self.now.table number)
            ≡ Ok (record (walk_in self.now) { table = entered (standing_in self.now.table) number Answered })) }
        ensures err { IfErr result (λ e. (s : Written)
            → IsRefused index (walk_answered (atomic_of s) (walk_in self.now) number reply.now (standing_in self.now.table number)) e) }
    {
        let cause = match self.table.present(number) {
            Some(Standing::Acted { reply: kept }) => {
                if reply.same(kept) {
                    return Ok(());
                }
                WalkCause::WrongReply
            }
            Some(Standing::Called { .. }) => WalkCause::NotActed,
            Some(Standing::Answered) | None => WalkCause::NotCalled,
        };
        Err(WalkFault::At { index, cause })
    }

    // Recovery returned: the fields are those after the crash that it ends, under these choices, and the
    // table is emptied.
    fn boot(
        &mut self,
        alloc: Global,
        spec: &Spec,
        index: u32,
        choices: &[u64],
    ) -> Result<(), WalkFault>
        requires { self.old.table.boots + 1 < 2 ^ 64 }
        ensures step { Follows index result
            (booted_to (atomic_of spec.now) (walk_in self.old) ((atomic_of spec.now).crashed choices.now self.old.fields.values)) (walk_in self.new) }
        ensures boots { OnOk result (self.new.table.boots ≡ self.old.table.boots + 1) }
    {
        match crashed(alloc, spec, &self.fields, choices)? {
            Some(fields) => {
                self.fields = fields;
                self.table.boot();
                Ok(())
            }
            None => Err(WalkFault::At {
                index,
                cause: WalkCause::BadChoice,
            }),
        }
    }
}

// Whether a move may stand here: an act may, and what shows the next entry of what is left of the history.
fn is_in_order(left: &[Entry], m: &Move) -> bool
    ensures { result ≡ in_order value_eq (map entry_of left.now) (shown (move_of m.now)) }
{
    match m {
        Move::Act { .. } => true,
        Move::Boot { .. } => is_next(left, &Entry::Boot),
        Move::Other(entry) => is_next(left, entry),
    }
}

// Whether this is the next entry of what is left of the history.
fn is_next(left: &[Entry], entry: &Entry) -> bool
    ensures { result ≡ in_order value_eq (map entry_of left.now) (Some (entry_of entry.now)) }
{
    match left {
        [next, ..] => entry.same(next),
        [] => false,
    }
}

/// What is left of the history after a move.
pub fn rest_after<'h>(left: &'h [Entry], m: &Move) -> &'h [Entry]
    ensures { map entry_of result.now ≡ left_after (map entry_of left.now) (shown (move_of m.now)) }
{
    match m {
        Move::Act { .. } => left,
        Move::Boot { .. } | Move::Other(_) => match left {
            [_, rest @ ..] => rest,
            [] => left,
        },
    }
}
