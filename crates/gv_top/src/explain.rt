//! The command `explain SPEC HISTORY MOVES`.

ghost use Rattle.std.specs.Prelude.{◌≡◌, ◌<◌, ◌-◌, ◌^◌, ℕ, List as Seq, All, length};
ghost use Rattle.gv_spec.specs.History.{IsEntryOf, IsMoveOf};
ghost use Rattle.gv_top.specs.Explain as explaining;
ghost use Rattle.gv_top.specs.Files.{asked, outside, Finishes, IsBlamed};

use crate::files::{Halt, read_file};
use crate::forms::{HistoriesOf, MovesOf, Specs};
use crate::outcome::Outcome;
use gv_base::Files;
use gv_history::{WalkCause, WalkFault, walk};
use gv_report::{Format, Report};
use gv_spec::{Entry, Move, Spec};
use std::alloc::Global;

/// The file words of `explain SPEC HISTORY MOVES`. This project's own.
#[derive(Clone, Copy)]
pub struct ExplainWords<'a> {
    pub spec: &'a str,
    pub history: &'a str,
    pub moves: &'a str,
}

/// What comes of an explanation whose three texts are read. This project's own.
#[derive(Debug, Drop)]
pub enum Explanation {
    /// The moves explain the history.
    Explained,
    /// The first move that is refused, counted from 1, or one past the last, where history is left.
    NotExplained { at: u32, cause: WalkCause },
}

impl Outcome for Explanation {
    ghost report_of = { explaining.report_of };

    fn report(self) -> Report {
        match self {
            Explanation::Explained => Report::Explained,
            Explanation::NotExplained { at, cause } => Report::NotExplained { at, cause },
        }
    }
}

// Whether the moves explain the history.
fn walked(
    alloc: Global,
    spec: &Spec,
    history: &Vec<Entry>,
    moves: &Vec<Move>,
) -> Result<Explanation, Halt>
    requires few { length moves.now.items < 2 ^ 32 - 1 }
    requires history { All (IsEntryOf spec.now) history.now.items }
    requires moves { All (IsMoveOf spec.now) moves.now.items }
    ensures { Finishes (explaining.Tells spec.now history.now.items moves.now.items) result }
{
    match walk(alloc, spec, history, moves) {
        Ok(_) => Ok(Explanation::Explained),
        Err(WalkFault::NoMemory) => Err(Halt::NoMemory),
        Err(WalkFault::At { index, cause }) => Ok(Explanation::NotExplained { at: index, cause }),
    }
}

/// What comes of `explain SPEC HISTORY MOVES`: each file is fetched and read before the next is fetched, and
/// then the moves are walked along beside the history.
pub fn explain<F: Files>(
    alloc: Global,
    names: &ExplainWords,
    files: &mut F,
    format: &mut Format,
) -> Result<Explanation, Halt>
    ensures outcome { explaining.Explains (outside (F.held files.old)) names.now.spec.now names.now.history.now names.now.moves.now format.old result format.new }
    ensures blame { IsBlamed (asked F.held F.faults F.failed files.old files.new) result }
    ensures kept { (other : Seq ℕ) → F.held files.new other ≡ F.held files.old other }
{
    let spec = read_file(alloc, &Specs {}, names.spec, files, format)?;
    let history = read_file(
        alloc,
        &HistoriesOf { spec: &spec },
        names.history,
        files,
        format,
    )?;
    let moves = read_file(alloc, &MovesOf { spec: &spec }, names.moves, files, format)?;
    walked(alloc, &spec, &history, &moves)
}
