//! The judge of one recorded history.

ghost use Rattle.std.specs.Prelude.{◌≡◌, ◌+◌, ◌-◌, ◌*◌, ◌<◌, ◌≤◌, ◌^◌, length, map, All, IfOk, None};
ghost use Rattle.gv_spec.specs.History.{entry_of, IsEntryOf};
ghost use Rattle.gv_judge.specs.Bound.{IsOneByOne};
ghost use Rattle.gv_judge.specs.Explained.{PicksNothing};
ghost use Rattle.gv_judge.specs.Judged.{IsJudgement, Tells, AreMovesOf, IsDecided};

use crate::repeats::repeats;
use crate::search::Search;
use gv_base::{List, NoMemory};
use gv_spec::{Entry, Move, Spec};
use std::alloc::Global;

/// What is told of a history: it has an explanation, which these moves are; it has none; or as many nodes
/// of the search as were asked for are spent. This project's own.
#[derive(Debug, Drop)]
pub enum Judged {
    Yes { moves: List<Move> },
    No,
    Spent,
}

/// Searches for an explanation of a history among the nodes of the search order, at most `most` of them.
/// Yes comes with the first full node exactly where its number, from 1, is at most `most`; No exactly where
/// there are at most `most` nodes and none is full; Spent in the other cases. The moves of Yes explain the
/// history, and for No nothing does. Where nothing is picked, nothing crashes and each call answers before the next
/// one starts, 2n + 1 nodes are enough for n entries. This project's own.
pub fn judge(
    alloc: Global,
    spec: &Spec,
    history: &Vec<Entry>,
    most: u64,
) -> Result<Judged, NoMemory>
    requires most { 1 ≤ most }
    requires few { length history.now.items < 2 ^ 31 - 1 }
    requires entries { All (IsEntryOf spec.now) history.now.items }
    ensures answer { IfOk result (IsJudgement spec.now history.now.items most) }
    ensures told { IfOk result (Tells spec.now history.now.items) }
    ensures moves { IfOk result (AreMovesOf spec.now) }
    ensures enough { PicksNothing spec.now → IsOneByOne None (map entry_of history.now.items) → 2 * length history.now.items + 1 ≤ most
        → IfOk result IsDecided }
{
    go_through(alloc, spec, history.as_slice(), most)
}

// Goes from node to node, until one is full, there is no other, or as many as asked for are gone through.
fn go_through(alloc: Global, spec: &Spec, history: &[Entry], most: u64) -> Result<Judged, NoMemory>
    requires { All (IsEntryOf spec.now) history.now }
    ensures { IfOk result (IsJudgement spec.now history.now most) }
{
    let repeats = repeats(alloc, history)?;
    let mut search = Search::start(alloc, spec, history)?;
    for _visited in 0..most {
        if search.is_full {
            return Ok(Judged::Yes {
                moves: search.moves,
            });
        }
        if !search.next(alloc, spec, history, repeats.as_slice())? {
            return Ok(Judged::No);
        }
    }
    Ok(Judged::Spent)
}
