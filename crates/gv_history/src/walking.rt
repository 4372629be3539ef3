//! Whether moves explain a history.

ghost use Rattle.std.specs.Prelude.{◌≡◌, ◌<◌, ◌-◌, ◌^◌, All, IfOk, IfErr, OnOk, length};
ghost use Rattle.gv_spec.specs.History.{IsEntryOf, IsMoveOf, IsExplanation, walked};
ghost use Rattle.gv_history.specs.Fault.{fields_at_end, IsFaultOf, IsUnexplained};

use crate::fault::{WalkCause, WalkFault};
use crate::walker::{Walker, rest_after};
use gv_spec::{Entry, Move, Spec, State};
use std::alloc::Global;

/// The fields at the end of the walk along the moves, where they explain the history: without their
/// acts, and the choices of boots, they are the history, and the walk refuses none. Else the first move that is refused, counted
/// from 1, and why. This project's own.
pub fn walk(
    alloc: Global,
    spec: &Spec,
    history: &Vec<Entry>,
    moves: &Vec<Move>,
) -> Result<State, WalkFault>
    requires few { length moves.now.items < 2 ^ 32 - 1 }
    requires history { All (IsEntryOf spec.now) history.now.items }
    requires moves { All (IsMoveOf spec.now) moves.now.items }
    ensures passes { IfOk result (λ s. fields_at_end (walked spec.now history.now.items moves.now.items) ≡ Ok s.values) }
    ensures explains { OnOk result (IsExplanation spec.now moves.now.items history.now.items) }
    ensures fault { IfErr result (IsFaultOf (walked spec.now history.now.items moves.now.items)) }
    ensures unexplained { IfErr result (IsUnexplained spec.now moves.now.items history.now.items) }
{
    let mut walker = Walker::start(alloc, spec)?;
    let mut left = history.as_slice();
    for (i, m) in moves.iter().enumerate() {
        let index = i as u32 + 1;
        walker.step(alloc, spec, index, left, m)?;
        left = rest_after(left, m);
    }
    if left.is_empty() {
        Ok(walker.fields)
    } else {
        Err(WalkFault::At {
            index: moves.len() as u32 + 1,
            cause: WalkCause::Missing,
        })
    }
}
