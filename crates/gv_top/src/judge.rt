//! The command `judge SPEC HISTORY MOST`.

ghost use Rattle.std.specs.Prelude.{◌≡◌, ◌<◌, ◌≤◌, ◌-◌, ◌^◌, ℕ, List as Seq, All, IfSome, IfNone, length};
ghost use Rattle.gv_spec.specs.History.{IsEntryOf};
ghost use Rattle.gv_top.specs.Judge as judging;
ghost use Rattle.gv_top.specs.Judge.{IsMost};
ghost use Rattle.gv_top.specs.Files.{asked, outside, Finishes, IsBlamed};

use crate::files::{Halt, read_file};
use crate::forms::{HistoriesOf, Specs};
use crate::outcome::Outcome;
use gv_base::{Files, List, Name};
use gv_judge::Judged;
use gv_lines::move_lines;
use gv_report::{Format, Report};
use gv_spec::{Entry, Spec};
use itoa::Buffer;
use std::alloc::Global;

/// The most nodes that may be asked for.
const MOST_NODES: u64 = 10_000_000;

/// The words of `judge SPEC HISTORY MOST`: the names of two files, and how many nodes are gone through at most, from 1 to
/// 10,000,000. This project's own.
#[derive(Clone, Copy)]
pub struct JudgeWords<'a> {
    pub spec: &'a str,
    pub history: &'a str,
    pub most: u64,
}

/// What comes of a search for an explanation whose two texts are read. This project's own.
#[derive(Debug, Drop)]
pub enum Judgement {
    /// The lines of the moves of the first full node. They explain the history.
    Explained { lines: List<Name> },
    /// Nothing explains the history.
    Unexplained,
    /// So many nodes are spent, and none of them is full.
    Spent { most: u64 },
}

impl Outcome for Judgement {
    ghost report_of = { judging.report_of };

    fn report(self) -> Report {
        match self {
            Judgement::Explained { lines } => Report::Moves { lines },
            Judgement::Unexplained => Report::NoExplanation,
            Judgement::Spent { most } => Report::Spent { most },
        }
    }
}

/// The number of nodes that a word tells: decimal, without a leading zero, from 1 to 10,000,000.
pub fn most_of(word: &str) -> Option<u64>
    ensures some { IfSome result (IsMost word.now) }
    ensures none { IfNone result ((most : ℕ) → IsMost word.now most → ⊥) }
{
    let Ok(most) = word.parse::<u64>() else {
        return None;
    };
    let mut buffer = Buffer::new();
    if most < 1 || most > MOST_NODES || buffer.format(most) != word {
        return None;
    }
    Some(most)
}

// What the first nodes of a history's search tell of it, at most so many.
fn judged(alloc: Global, spec: &Spec, history: &Vec<Entry>, most: u64) -> Result<Judgement, Halt>
    requires most { 1 ≤ most }
    requires few { length history.now.items < 2 ^ 31 - 1 }
    requires entries { All (IsEntryOf spec.now) history.now.items }
    ensures { Finishes (judging.Tells spec.now history.now.items most) result }
{
    match gv_judge::judge(alloc, spec, history, most)? {
        Judged::Yes { moves } => {
            let lines = move_lines(alloc, spec, moves.as_slice())?;
            Ok(Judgement::Explained {
                lines: List::from_vec(lines),
            })
        }
        Judged::No => Ok(Judgement::Unexplained),
        Judged::Spent => Ok(Judgement::Spent { most }),
    }
}

/// What comes of `judge SPEC HISTORY MOST`: each file is fetched and read before the next is fetched, and then the nodes of the
/// search for an explanation are gone through in their order, at most so many.
pub fn judge<F: Files>(
    alloc: Global,
    names: &JudgeWords,
    files: &mut F,
    format: &mut Format,
) -> Result<Judgement, Halt>
    requires { 1 ≤ names.now.most }
    ensures outcome { judging.Judges (outside (F.held files.old)) names.now.spec.now names.now.history.now names.now.most format.old result format.new }
    ensures blame { IsBlamed (asked F.held F.faults F.failed files.old files.new) result }
    ensures kept { (other : Seq ℕ) → F.held files.new other ≡ F.held files.old other }
{
    let spec = read_file(alloc, &Specs {}, names.spec, files, format)?;
    let history = read_file(
        alloc,
        &HistoriesOf { spec: &spec },
        names.history,
        files,
        format,
    )?;
    judged(alloc, &spec, &history, names.most)
}
