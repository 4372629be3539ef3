//! What is added next to a node.

ghost use Rattle.std.specs.Prelude.{◌≡◌, ◌<◌, ◌++◌, length, drop, map, All, IfOk, List as Lists, Some};
ghost use Rattle.gv_spec.specs.declared.entry.Entry.{Entry as HeldEntry};
ghost use Rattle.gv_spec.specs.Atomic.{atomic_of};
ghost use Rattle.gv_spec.specs.History.{entry_of, move_of, IsEntryOf};
ghost use Rattle.gv_judge.specs.Choosing.{choosing_of};
ghost use Rattle.gv_judge.specs.Search.{showing};
ghost use Rattle.gv_judge.specs.Calls.{waiting_under};
ghost use Rattle.gv_judge.specs.Node.{IsReady};
ghost use Rattle.gv_judge.specs.Turn.{acts_from, acts_later, boots_later, move_first, moves_later, turn_moves, IsTurn, IsLaterTurn};

use crate::calls::Waiting;
use crate::choices::{first_choices, next_choices};
use crate::node::Node;
use gv_base::{List, NoMemory};
use gv_spec::{Entry, Move, Spec, crash_before, crash_parts, op_before, operation};
use gv_terms::{Value, copy_list};
use std::alloc::Global;

/// What is added next to a node: the history's next entry, where that is a boot under these choices, or an
/// act of a call under these choices. `next` is the place of the call that comes after it among those that
/// have not acted. This project's own.
#[derive(Drop)]
pub enum Turn<'h> {
    Call(Waiting<'h>),
    Answer {
        number: u32,
        reply: &'h Value,
    },
    Crash,
    Boot {
        choices: Vec<u64>,
    },
    Act {
        call: Waiting<'h>,
        next: usize,
        choices: Vec<u64>,
    },
}

/// What is added first to a node.
pub fn first_turn<'h>(
    alloc: Global,
    spec: &Spec,
    history: &'h [Entry],
    node: &Node<'h>,
) -> Result<Option<Turn<'h>>, NoMemory>
    requires history { All (IsEntryOf spec.now) history.now }
    requires node { IsReady spec.now node.now }
    ensures moves { IfOk result (λ o. turn_moves spec.now node.now o
        ≡ showing (atomic_of spec.now) (choosing_of spec.now) node.now.fields.values (map entry_of (drop node.now.place history.now))
        ++ acts_from spec.now node.now.fields.values node.now.waiting.items) }
    ensures turn { IfOk result (IsTurn spec.now history.now node.now) }
{
    match history.get(node.place) {
        None => first_act(alloc, spec, node, 0),
        Some(Entry::Call { number, op, args }) => Ok(Some(Turn::Call(Waiting {
            number: *number,
            op: *op,
            args,
        }))),
        Some(Entry::Answer { number, reply }) => Ok(Some(Turn::Answer {
            number: *number,
            reply,
        })),
        Some(Entry::Crash) => Ok(Some(Turn::Crash)),
        Some(Entry::Boot) => Ok(Some(Turn::Boot {
            choices: first_choices(alloc, crash_parts(spec).0)?,
        })),
    }
}

// The next boot, or else the first act.
fn later_boot<'h>(
    alloc: Global,
    spec: &Spec,
    node: &Node<'h>,
    choices: &[u64],
) -> Result<Option<Turn<'h>>, NoMemory>
    requires { IsReady spec.now node.now }
    ensures moves { IfOk result (λ o. turn_moves spec.now node.now o ≡ boots_later spec.now node.now choices.now) }
    ensures turn { IfOk result (IsLaterTurn spec.now node.now) }
{
    let picks = crash_parts(spec).0;
    if picks.is_empty() {
        return first_act(alloc, spec, node, 0);
    }
    let before = crash_before(alloc, spec, node.fields.state())?;
    match next_choices(alloc, &spec.store, before, picks, choices)? {
        Some(choices) => Ok(Some(Turn::Boot { choices })),
        None => first_act(alloc, spec, node, 0),
    }
}

// The call's next act, or else the first act of the calls behind it.
fn later_act<'h>(
    alloc: Global,
    spec: &Spec,
    node: &Node<'h>,
    call: Waiting<'h>,
    next: usize,
    choices: &[u64],
) -> Result<Option<Turn<'h>>, NoMemory>
    requires node { IsReady spec.now node.now }
    requires waits { waiting_under node.now.waiting.items call.number ≡ Some (call.op, call.args.now) }
    requires op { call.op < length spec.now.ops }
    ensures moves { IfOk result (λ o. turn_moves spec.now node.now o ≡ acts_later spec.now node.now call.entry next choices.now) }
    ensures turn { IfOk result (IsLaterTurn spec.now node.now) }
{
    let op = operation(spec, call.op);
    let picks = op.picks.as_slice();
    if picks.is_empty() {
        return first_act(alloc, spec, node, next);
    }
    let before = op_before(alloc, spec, node.fields.state(), op, call.args.as_slice())?;
    match next_choices(alloc, &spec.store, before, picks, choices)? {
        Some(choices) => Ok(Some(Turn::Act {
            call,
            next,
            choices,
        })),
        None => first_act(alloc, spec, node, next),
    }
}

// The first act of the calls from a place on.
fn first_act<'h>(
    alloc: Global,
    spec: &Spec,
    node: &Node<'h>,
    place: usize,
) -> Result<Option<Turn<'h>>, NoMemory>
    requires { IsReady spec.now node.now }
    ensures moves { IfOk result (λ o. turn_moves spec.now node.now o ≡ acts_from spec.now node.now.fields.values (drop place node.now.waiting.items)) }
    ensures turn { IfOk result (IsLaterTurn spec.now node.now) }
{
    match node.waiting.as_slice().get(place) {
        None => Ok(None),
        Some(call) => {
            let op = operation(spec, call.op);
            Ok(Some(Turn::Act {
                call: *call,
                next: place + 1,
                choices: first_choices(alloc, op.picks.as_slice())?,
            }))
        }
    }
}

impl<'h> Turn<'h> {
    /// The move that is added.
    pub fn first_move(&self, alloc: Global) -> Result<Move, NoMemory>
        ensures { IfOk result (λ m. move_of m ≡ move_first self.now) }
    {
        match self {
            Turn::Call(call) => Ok(Move::Other(Entry::Call {
                number: call.number,
                op: call.op,
                args: copy_list(alloc, call.args)?,
            })),
            Turn::Answer { number, reply } => Ok(Move::Other(Entry::Answer {
                number: *number,
                reply: reply.copy(alloc)?,
            })),
            Turn::Crash => Ok(Move::Other(Entry::Crash)),
            Turn::Boot { choices } => Ok(Move::Boot {
                choices: List::from_vec(choices.clone()?),
            }),
            Turn::Act { call, choices, .. } => Ok(Move::Act {
                number: call.number,
                choices: List::from_vec(choices.clone()?),
            }),
        }
    }

    /// What is added after it.
    pub fn later(
        &self,
        alloc: Global,
        spec: &Spec,
        node: &Node<'h>,
    ) -> Result<Option<Turn<'h>>, NoMemory>
        requires node { IsReady spec.now node.now }
        requires turn { (history : Lists HeldEntry) × IsTurn spec.now history node.now (Some self.now) }
        ensures moves { IfOk result (λ o. turn_moves spec.now node.now o ≡ moves_later spec.now node.now self.now) }
        ensures turn { IfOk result (IsLaterTurn spec.now node.now) }
    {
        match self {
            Turn::Boot { choices } => later_boot(alloc, spec, node, choices.as_slice()),
            Turn::Act {
                call,
                next,
                choices,
            } => later_act(alloc, spec, node, *call, *next, choices.as_slice()),
            _ => first_act(alloc, spec, node, 0),
        }
    }
}
