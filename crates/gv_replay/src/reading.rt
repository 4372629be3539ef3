//! Histories, lists of moves and schedules, read from their texts.

ghost use Rattle.std.specs.Prelude.{◌≡◌, ◌-◌, ◌^◌, ◌<◌, ◌++◌, ◌∷◌, [], ℕ, All, List as Seq, length, IfOk, IfErr};
ghost use Rattle.gv_base.specs.Places.{place_at};
ghost use Rattle.gv_base.specs.declared.answers.Code.{Code as AnyCode};
ghost use Rattle.gv_text.specs.Answers.{IsReadAs, AreReadAs, IsRefusedAs, Refuses};
ghost use Rattle.gv_spec.specs.History.{IsEntryOf, IsEventOf, IsMoveOf};
ghost use Rattle.gv_spec.specs.declared.entry.Entry.{Entry as AnyEntry};
ghost use Rattle.gv_spec.specs.declared.explanation.Move.{Move as AnyMove};
ghost use Rattle.gv_replay.specs.declared.schedule.Schedule.{Schedule as AnySchedule};
ghost use Rattle.gv_replay.specs.Plans.{at_place, lines_placed};
ghost use Rattle.gv_replay.specs.Reading as reading;
ghost use Rattle.gv_replay.specs.Reading.{TellsMoves, AreRefusedMoves, TellsHistory, IsRefusedHistory, TellsSchedule, IsRefusedSchedule};

use crate::line::TextKind;
use crate::pass::read;
use crate::plan::{Plan, Planned};
use crate::schedule::{Line, Schedule};
use gv_atomic::Spec;
use gv_base::{Lines, List, NoMemory, Place, Refusal};
use gv_spec::{Entry, Move};
use std::alloc::Global;

/// The moves of an explanation that a text of fewer than 2^32 - 1 bytes tells, in the order of its lines `call K OP ARGS`,
/// `answer K`, `answer K REPLY`, `crash`, `boot` and `act K`, the last two with any number of choices behind them. Each line
/// stands on a line of its own.
///
/// A refusal is that of the first stage that refuses: the characters, as `lex` tells; the lines, with `Unexpected` at the
/// first token that no lines have there, `BadNumber` where that is a number of 2^64 or more, and `EndOfText` where the last
/// line isn't whole; then, at the first place, `WrongCount` at a `call` with another number of arguments than its
/// operation has parameters, `Undeclared` at a name that is no operation's, `WrongType` at an argument of another sort
/// than its parameter, and `TooMany` at a K of 2^32 or more and at a count above 16,777,216. `NoMemory` comes where
/// memory runs out. This project's own.
pub fn read_moves(alloc: Global, text: &[u8], spec: &Spec) -> Result<Vec<Move>, Refusal>
    requires { length text.now < 2 ^ 32 - 1 }
    ensures found { IfOk result (λ moves. TellsMoves spec.now text.now moves.items) }
    ensures only { (moves : Seq AnyMove) → TellsMoves spec.now text.now moves → AreReadAs moves result }
    ensures refused { IfErr result (Refuses text.now (AreRefusedMoves spec.now text.now)) }
    ensures fault { (at : ℕ) (code : AnyCode) → AreRefusedMoves spec.now text.now at code → IsRefusedAs (place_at text.now at) code result }
    ensures of_spec { IfOk result (λ moves. All (IsMoveOf spec.now) moves.items) }
{
    let moves: List<Move> = read(alloc, text, spec, TextKind::Moves, List::new(alloc))?;
    Ok(moves.into_vec())
}

// The entries with one more.
fn added(entries: Vec<Entry>, entry: Entry) -> Result<Vec<Entry>, NoMemory>
    ensures { IfOk result (λ es. es.items ≡ entries.items ++ entry ∷ []) }
{
    let mut entries = entries;
    entries.push(entry)?;
    Ok(entries)
}

// The entries with the one that a move shows, if it shows one.
fn with_shown(entries: Vec<Entry>, m: Move) -> Result<Vec<Entry>, NoMemory>
    ensures { IfOk result (λ es. es.items ≡ entries.items ++ reading.entries_in (m ∷ [])) }
{
    match m {
        Move::Other(entry) => added(entries, entry),
        Move::Boot { .. } => added(entries, Entry::Boot),
        Move::Act { .. } => Ok(entries),
    }
}

// The entries that moves show, in order.
#[tactic(auto, using(crate::proofs::OfSpecLemmas::entries_more))]
fn entries_in(alloc: Global, moves: Vec<Move>) -> Result<Vec<Entry>, NoMemory>
    ensures { IfOk result (λ entries. entries.items ≡ reading.entries_in moves.items) }
{
    let mut entries = Vec::with_capacity(alloc, moves.len())?;
    for m in moves {
        entries = with_shown(entries, m)?;
    }
    Ok(entries)
}

/// The entries of a history that a text of fewer than 2^32 - 1 bytes tells, in the order of its lines: those of
/// `read_moves` but `act K`, a `boot` without choices, and `end`, which may stand as the last line and tells nothing.
/// Refusals are those of `read_moves`. This project's own.
pub fn read_history(alloc: Global, text: &[u8], spec: &Spec) -> Result<Vec<Entry>, Refusal>
    requires { length text.now < 2 ^ 32 - 1 }
    ensures found { IfOk result (λ history. TellsHistory spec.now text.now history.items) }
    ensures only { (history : Seq AnyEntry) → TellsHistory spec.now text.now history → AreReadAs history result }
    ensures refused { IfErr result (Refuses text.now (IsRefusedHistory spec.now text.now)) }
    ensures fault { (at : ℕ) (code : AnyCode) → IsRefusedHistory spec.now text.now at code → IsRefusedAs (place_at text.now at) code result }
    ensures of_spec { IfOk result (λ history. All (IsEntryOf spec.now) history.items) }
{
    let moves: List<Move> = read(alloc, text, spec, TextKind::History, List::new(alloc))?;
    Ok(entries_in(alloc, moves.into_vec())?)
}

// The place of a byte. What is behind the end stands at the end.
fn place_in(index: &Lines, text: &[u8], at: u32) -> Place
    requires of { index.now ≡ text.now }
    requires short { length text.now < 2 ^ 32 - 1 }
    ensures { result ≡ place_at text.now at }
{
    index.place(at.min(text.len() as u32))
}

// The lines with one more.
fn with_placed(lines: Vec<Line>, planned: Planned, place: Place) -> Result<Vec<Line>, NoMemory>
    ensures { IfOk result (λ ls. ls.items ≡ lines.items ++ at_place planned place ∷ []) }
{
    let mut lines = lines;
    let Planned { event, count, .. } = planned;
    lines.push(Line {
        event,
        count,
        place,
    })?;
    Ok(lines)
}

// The lines of a plan with their places.
#[tactic(auto, using(crate::proofs::OfSpecLemmas::placed_more))]
fn placed(alloc: Global, text: &[u8], plan: Plan) -> Result<List<Line>, NoMemory>
    requires { length text.now < 2 ^ 32 - 1 }
    ensures { IfOk result (λ lines. lines ≡ lines_placed text.now plan) }
{
    let index = Lines::new(alloc, text)?;
    let mut lines = Vec::with_capacity(alloc, plan.lines.len())?;
    for planned in plan.lines.into_vec() {
        let place = place_in(&index, text, planned.at);
        lines = with_placed(lines, planned, place)?;
    }
    Ok(List::from_vec(lines))
}

/// The schedule that a text of fewer than 2^32 - 1 bytes tells, in the order of its lines `call OP ARGS`, `step T`,
/// `step T COUNT`, `crash`, `fail D` and `grow T X`. A line `step T COUNT` stands for COUNT steps, `grow T X` for one step
/// with X items of extra room, and any other line for one event.
///
/// Refusals are those of `read_moves`, and besides, in their last stage, `TooMany` at a T of 2^32 or more and at a D above
/// 1, and `TooManyEvents` at the first token of the line that brings the events above 1,000,000. This project's own.
pub fn read_schedule(alloc: Global, text: &[u8], spec: &Spec) -> Result<Schedule, Refusal>
    requires { length text.now < 2 ^ 32 - 1 }
    ensures found { IfOk result (λ schedule. TellsSchedule spec.now text.now schedule) }
    ensures only { (schedule : AnySchedule) → TellsSchedule spec.now text.now schedule → IsReadAs schedule result }
    ensures refused { IfErr result (Refuses text.now (IsRefusedSchedule spec.now text.now)) }
    ensures fault { (at : ℕ) (code : AnyCode) → IsRefusedSchedule spec.now text.now at code → IsRefusedAs (place_at text.now at) code result }
    ensures of_spec { IfOk result (λ schedule. All (λ l. IsEventOf spec.now l.event) schedule.events) }
{
    let plan = read(alloc, text, spec, TextKind::Schedule, Plan::new(alloc))?;
    let events = placed(alloc, text, plan)?;
    Ok(Schedule { events })
}
