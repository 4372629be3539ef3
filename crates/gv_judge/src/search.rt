//! The nodes of the search, one after another.

ghost use Rattle.std.specs.Prelude.{◌≡◌, ◌≤◌, [], length, map, take, All, IfOk, Some};
ghost use Rattle.gv_spec.specs.History.{entry_of, IsEntryOf};
ghost use Rattle.gv_judge.specs.Node.{StandsHere, Takes};
ghost use Rattle.gv_judge.specs.Turn.{move_first, IsTurn};
ghost use Rattle.gv_judge.specs.Repeats.{AreRepeats};
ghost use Rattle.gv_judge.specs.Open.{Advances, Begins, GoesFrom, HasTaken, Stands};

use crate::node::Node;
use crate::turn::{Turn, first_turn};
use gv_base::{List, NoMemory};
use gv_spec::{Entry, Move, Spec};
use std::alloc::Global;

/// A node of the path, and what is added to it next. This project's own.
#[derive(Drop)]
pub struct Frame<'h> {
    pub node: Node<'h>,
    pub turn: Option<Turn<'h>>,
}

/// A search: the nodes of the path to the one where it stands, the first one below, the moves of that node,
/// and whether it is full. Memory is held for one path. This project's own.
#[derive(Drop)]
pub struct Search<'h> {
    pub frames: Vec<Frame<'h>>,
    pub moves: List<Move>,
    pub is_full: bool,
}

impl<'h> Search<'h> {
    /// The search at the first node.
    pub fn start(alloc: Global, spec: &Spec, history: &'h [Entry]) -> Result<Search<'h>, NoMemory>
        requires { All (IsEntryOf spec.now) history.now }
        ensures none { IfOk result (λ x. x.moves ≡ []) }
        ensures at { IfOk result (Begins spec.now history.now) }
    {
        let node = Node::first(alloc, spec)?;
        let turn = first_turn(alloc, spec, history, &node)?;
        let mut frames = Vec::new(alloc);
        frames.push(Frame { node, turn })?;
        Ok(Search {
            frames,
            moves: List::new(alloc),
            is_full: history.is_empty(),
        })
    }

    /// Goes to the next node, where there is one.
    pub fn next(
        &mut self,
        alloc: Global,
        spec: &Spec,
        history: &'h [Entry],
        repeats: &[bool],
    ) -> Result<bool, NoMemory>
        requires entries { All (IsEntryOf spec.now) history.now }
        requires repeats { AreRepeats history.now repeats.now }
        requires at { Stands spec.now history.now self.old }
        ensures { IfOk result (GoesFrom spec.now history.now self.old self.new) }
    {
        while let Some(Frame { node, turn }) = self.frames.pop() {
            match turn {
                None => {
                    let _ = self.moves.pop();
                }
                Some(turn) => {
                    if self.take(alloc, spec, history, repeats, node, turn)? {
                        return Ok(true);
                    }
                }
            }
        }
        Ok(false)
    }

    // Adds a node's next move: goes to the node that it begins, unless it is refused.
    fn take(
        &mut self,
        alloc: Global,
        spec: &Spec,
        history: &'h [Entry],
        repeats: &[bool],
        node: Node<'h>,
        turn: Turn<'h>,
    ) -> Result<bool, NoMemory>
        requires entries { All (IsEntryOf spec.now) history.now }
        requires repeats { AreRepeats history.now repeats.now }
        requires at { HasTaken spec.now history.now node turn self.old }
        ensures { IfOk result (λ b. Advances spec.now history.now b node.entry turn.entry self.old self.new) }
    {
        let child = after(alloc, spec, history, repeats, &node, &turn)?;
        let shown = turn.first_move(alloc)?;
        let later = turn.later(alloc, spec, &node)?;
        self.frames.push(Frame { node, turn: later })?;
        match child {
            None => Ok(false),
            Some(child) => {
                let turn = first_turn(alloc, spec, history, &child)?;
                self.is_full = child.place == history.len();
                self.frames.push(Frame { node: child, turn })?;
                self.moves.push(shown)?;
                Ok(true)
            }
        }
    }
}

// The node after a turn, unless the walk refuses its move.
fn after<'h>(
    alloc: Global,
    spec: &Spec,
    history: &'h [Entry],
    repeats: &[bool],
    node: &Node<'h>,
    turn: &Turn<'h>,
) -> Result<Option<Node<'h>>, NoMemory>
    requires repeats { AreRepeats history.now repeats.now }
    requires place { node.now.place ≤ length history.now }
    requires turn { IsTurn spec.now history.now node.now (Some turn.now) }
    ensures { IfOk result (λ o. StandsHere spec.now node.now (λ before w. before ≡ map entry_of (take node.now.place history.now)
        → Takes spec.now before w (move_first turn.now) o)) }
{
    match turn {
        Turn::Call(new) => node.call(alloc, *new, repeats[node.place]),
        Turn::Answer { number, reply } => node.answer(alloc, *number, reply),
        Turn::Crash => Ok(Some(node.crash(alloc)?)),
        Turn::Boot { choices } => node.boot(alloc, spec, choices.as_slice()),
        Turn::Act { call, choices, .. } => node.act(alloc, spec, *call, choices.as_slice()),
    }
}
