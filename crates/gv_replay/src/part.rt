//! Which tokens a line may have, one after another.

ghost use Rattle.std.specs.Prelude.{◌≡◌, IfOk};
ghost use Rattle.gv_replay.specs.Parts as spec;
ghost use Rattle.gv_replay.specs.declared.line.TextKind.TheVariants as text_kind;
ghost use Rattle.gv_replay.specs.declared.part.Part.TheVariants as part;

use crate::argument::{Argument, Number, Written};
use crate::line::{CallLine, Line, TextKind};
use crate::sight::Sight;
use crate::what::What;
use gv_base::{List, Name, NoMemory};
use std::alloc::Global;

/// A literal of one byte, and where it stands; behind it a `*` may follow.
#[derive(Clone, Copy, Debug, PartialEq, Eq)]
pub struct OneByte {
    pub at: u32,
    pub byte: u8,
}

/// The front of a line, as far as it has been read. This project's own.
#[derive(Debug, Drop)]
pub enum Part {
    /// `call`, at this byte.
    Call { at: u32 },
    /// `answer`.
    Answer,
    /// `act`.
    Act,
    /// `act K` and choices.
    Acting { number: Number, choices: List<u64> },
    /// `boot` and choices.
    Booting { choices: List<u64> },
    /// `call K`, or `call` in a schedule.
    Numbered { at: u32, number: Option<Number> },
    /// `call K OP` and arguments.
    Arguments(CallLine),
    /// The same, and a byte as the last argument.
    ArgumentByte { call: CallLine, last: OneByte },
    /// The same, and `*`.
    ArgumentStar { call: CallLine, last: OneByte },
    /// `answer K`.
    Replying { number: Number },
    /// `answer K` and a byte.
    ReplyByte { number: Number, last: OneByte },
    /// `answer K`, a byte and `*`.
    ReplyStar { number: Number, last: OneByte },
    /// `step`, at this byte.
    Step { at: u32 },
    /// `step T`.
    Stepping { at: u32, thread: Number },
    /// `fail`, at this byte.
    Fail { at: u32 },
    /// `grow`, at this byte.
    Grow { at: u32 },
    /// `grow T`.
    Growing { at: u32, thread: Number },
    /// A line to which nothing may be added.
    Whole(Line),
}

/// The front with one more token of the line, where it may stand there.
pub fn next(alloc: Global, part: Part, sight: Sight) -> Result<Option<Part>, NoMemory>
    ensures { IfOk result (λ p. p ≡ spec.next part sight) }
{
    match part {
        Part::Call { at } => Ok(numbered(at, sight)),
        Part::Answer => Ok(replying(sight)),
        Part::Act => Ok(acting(alloc, sight)),
        Part::Acting { number, choices } => acted(number, choices, sight),
        Part::Booting { choices } => booted(choices, sight),
        Part::Numbered { at, number } => Ok(named(alloc, at, number, sight)),
        Part::Arguments(call) => argument(call, sight),
        Part::ArgumentByte { call, last } => behind_byte(alloc, call, last, sight),
        Part::ArgumentStar { call, last } => repeated(call, last, sight),
        Part::Replying { number } => Ok(reply(number, sight)),
        Part::ReplyByte { number, last } => Ok(starred(number, last, sight)),
        Part::ReplyStar { number, last } => Ok(repeated_reply(number, last, sight)),
        Part::Step { at } => Ok(stepping(at, sight)),
        Part::Stepping { at, thread } => Ok(counted(at, thread, sight)),
        Part::Fail { at } => Ok(failing(at, sight)),
        Part::Grow { at } => Ok(growing(at, sight)),
        Part::Growing { at, thread } => Ok(grown(at, thread, sight)),
        Part::Whole(_) => Ok(None),
    }
}

// A number below 2^64.
fn number_of(sight: &Sight) -> Option<Number>
    ensures { result ≡ spec.number_in sight.now }
{
    match sight.what {
        What::Number { value, .. } => Some(Number {
            at: sight.at,
            value,
        }),
        _ => None,
    }
}

// An argument of one token, where it is no single byte.
fn plain(sight: Sight) -> Option<Argument>
    ensures { result ≡ spec.plain_in sight }
{
    let Sight { at, what, .. } = sight;
    let written = written_by(what)?;
    Some(Argument { at, written })
}

fn written_by(what: What) -> Option<Written>
    ensures { result ≡ spec.written_by what }
{
    match what {
        What::Number {
            decimal: true,
            value,
        } => Some(Written::Word(value)),
        What::Bytes(bytes) => Some(Written::Bytes(bytes)),
        What::Word(word) => {
            let truth = truth(word.as_slice())?;
            Some(Written::Bool(truth))
        }
        _ => None,
    }
}

fn truth(word: &[u8]) -> Option<bool>
    ensures { result ≡ spec.truth_of word.now }
{
    if word == b"true".as_slice() {
        Some(true)
    } else if word == b"false".as_slice() {
        Some(false)
    } else {
        None
    }
}

/// The front of a line that is its first token, where it may be.
pub fn first(alloc: Global, kind: TextKind, sight: Sight) -> Option<Part>
    ensures { result ≡ spec.first kind sight }
{
    let Sight { at, what, .. } = sight;
    match what {
        What::Word(word) => first_word(alloc, kind, at, word.as_slice()),
        _ => None,
    }
}

fn first_word(alloc: Global, kind: TextKind, at: u32, word: &[u8]) -> Option<Part>
    ensures { result ≡ spec.first_word kind at word.now }
{
    if word == b"call".as_slice() {
        Some(calling(kind, at))
    } else if word == b"crash".as_slice() {
        Some(Part::Whole(Line::Crash { at }))
    } else {
        match kind {
            TextKind::History => history_word(alloc, at, word),
            TextKind::Moves => moves_word(alloc, at, word),
            TextKind::Schedule => schedule_word(at, word),
        }
    }
}

// `call`, behind which the name of the operation stands at once where calls have no numbers.
fn calling(kind: TextKind, at: u32) -> Part
    ensures { result ≡ spec.calling kind at }
{
    match kind {
        TextKind::Schedule => Part::Numbered { at, number: None },
        TextKind::History | TextKind::Moves => Part::Call { at },
    }
}

// The words that stand in histories.
fn history_word(alloc: Global, _at: u32, word: &[u8]) -> Option<Part>
    ensures { result ≡ spec.own_word text_kind.History _at word.now }
{
    if word == b"answer".as_slice() {
        Some(Part::Answer)
    } else if word == b"boot".as_slice() {
        let choices = List::new(alloc);
        Some(Part::Whole(Line::Boot { choices }))
    } else if word == b"end".as_slice() {
        Some(Part::Whole(Line::End))
    } else {
        None
    }
}

// The words that stand among moves.
fn moves_word(alloc: Global, _at: u32, word: &[u8]) -> Option<Part>
    ensures { result ≡ spec.own_word text_kind.Moves _at word.now }
{
    if word == b"answer".as_slice() {
        Some(Part::Answer)
    } else if word == b"boot".as_slice() {
        let choices = List::new(alloc);
        Some(Part::Booting { choices })
    } else if word == b"act".as_slice() {
        Some(Part::Act)
    } else {
        None
    }
}

// The words that stand in schedules.
fn schedule_word(at: u32, word: &[u8]) -> Option<Part>
    ensures { result ≡ spec.own_word text_kind.Schedule at word.now }
{
    if word == b"step".as_slice() {
        Some(Part::Step { at })
    } else if word == b"fail".as_slice() {
        Some(Part::Fail { at })
    } else if word == b"grow".as_slice() {
        Some(Part::Grow { at })
    } else {
        None
    }
}

fn numbered(at: u32, sight: Sight) -> Option<Part>
    ensures { result ≡ spec.numbered at sight }
{
    let number = number_of(&sight)?;
    Some(Part::Numbered {
        at,
        number: Some(number),
    })
}

fn replying(sight: Sight) -> Option<Part>
    ensures { result ≡ spec.replying sight }
{
    let number = number_of(&sight)?;
    Some(Part::Replying { number })
}

fn acting(alloc: Global, sight: Sight) -> Option<Part>
    ensures { result ≡ spec.acting sight }
{
    let number = number_of(&sight)?;
    let choices = List::new(alloc);
    Some(Part::Acting { number, choices })
}

// One more choice.
fn more_choices(choices: List<u64>, number: Number) -> Result<List<u64>, NoMemory>
    ensures { IfOk result (λ cs. cs ≡ spec.more_choices choices number) }
{
    let mut choices = choices;
    choices.push(number.value)?;
    Ok(choices)
}

fn acted(number: Number, choices: List<u64>, sight: Sight) -> Result<Option<Part>, NoMemory>
    ensures { IfOk result (λ p. p ≡ spec.chosen (part.Acting number) choices sight) }
{
    match number_of(&sight) {
        Some(choice) => {
            let choices = more_choices(choices, choice)?;
            Ok(Some(Part::Acting { number, choices }))
        }
        None => Ok(None),
    }
}

fn booted(choices: List<u64>, sight: Sight) -> Result<Option<Part>, NoMemory>
    ensures { IfOk result (λ p. p ≡ spec.chosen part.Booting choices sight) }
{
    match number_of(&sight) {
        Some(choice) => {
            let choices = more_choices(choices, choice)?;
            Ok(Some(Part::Booting { choices }))
        }
        None => Ok(None),
    }
}

fn stepping(at: u32, sight: Sight) -> Option<Part>
    ensures { result ≡ spec.stepping at sight }
{
    let thread = number_of(&sight)?;
    Some(Part::Stepping { at, thread })
}

fn counted(at: u32, thread: Number, sight: Sight) -> Option<Part>
    ensures { result ≡ spec.counted at thread sight }
{
    let count = number_of(&sight)?;
    Some(Part::Whole(Line::Step {
        at,
        thread,
        count: Some(count),
    }))
}

fn failing(at: u32, sight: Sight) -> Option<Part>
    ensures { result ≡ spec.failing at sight }
{
    let disk = number_of(&sight)?;
    Some(Part::Whole(Line::Fail { at, disk }))
}

fn growing(at: u32, sight: Sight) -> Option<Part>
    ensures { result ≡ spec.growing at sight }
{
    let thread = number_of(&sight)?;
    Some(Part::Growing { at, thread })
}

fn grown(at: u32, thread: Number, sight: Sight) -> Option<Part>
    ensures { result ≡ spec.grown at thread sight }
{
    let extra = number_of(&sight)?;
    Some(Part::Whole(Line::Grow { at, thread, extra }))
}

fn named(alloc: Global, at: u32, number: Option<Number>, sight: Sight) -> Option<Part>
    ensures { result ≡ spec.named at number sight }
{
    let Sight {
        at: op_at,
        what,
        ..
    } = sight;
    match what {
        What::Word(op) => Some(Part::Arguments(CallLine {
            at,
            number,
            op_at,
            op,
            args: List::new(alloc),
        })),
        _ => None,
    }
}

fn with_argument(call: CallLine, argument: Argument) -> Result<CallLine, NoMemory>
    ensures { IfOk result (λ c. c ≡ spec.with_argument call argument) }
{
    let CallLine {
        at,
        number,
        op_at,
        op,
        mut args,
    } = call;
    args.push(argument)?;
    Ok(CallLine {
        at,
        number,
        op_at,
        op,
        args,
    })
}

// A byte that is an argument by itself.
fn single(alloc: Global, last: OneByte) -> Result<Argument, NoMemory>
    ensures { IfOk result (λ a. a ≡ spec.single last) }
{
    Ok(Argument {
        at: last.at,
        written: Written::Bytes(Name::from_slice(alloc, &[last.byte])?),
    })
}

fn times(last: OneByte, count: Number) -> Argument
    ensures { result ≡ spec.times last count }
{
    Argument {
        at: last.at,
        written: Written::Repeated {
            byte: last.byte,
            count,
        },
    }
}

fn one_byte(sight: &Sight) -> Option<OneByte>
    ensures { result ≡ spec.byte_in sight.now }
{
    match sight.what {
        What::Byte(byte) => Some(OneByte { at: sight.at, byte }),
        _ => None,
    }
}

fn is_star(sight: &Sight) -> bool
    ensures { result ≡ spec.is_star sight.now.what }
{
    match sight.what {
        What::Star => true,
        _ => false,
    }
}

fn argument(call: CallLine, sight: Sight) -> Result<Option<Part>, NoMemory>
    ensures { IfOk result (λ p. p ≡ spec.argument call sight) }
{
    if let Some(last) = one_byte(&sight) {
        return Ok(Some(Part::ArgumentByte { call, last }));
    }
    match plain(sight) {
        Some(argument) => Ok(Some(Part::Arguments(with_argument(call, argument)?))),
        None => Ok(None),
    }
}

fn behind_byte(
    alloc: Global,
    call: CallLine,
    last: OneByte,
    sight: Sight,
) -> Result<Option<Part>, NoMemory>
    ensures { IfOk result (λ p. p ≡ spec.behind_byte call last sight) }
{
    if is_star(&sight) {
        return Ok(Some(Part::ArgumentStar { call, last }));
    }
    let call = with_argument(call, single(alloc, last)?)?;
    argument(call, sight)
}

fn repeated(call: CallLine, last: OneByte, sight: Sight) -> Result<Option<Part>, NoMemory>
    ensures { IfOk result (λ p. p ≡ spec.repeated call last sight) }
{
    match number_of(&sight) {
        Some(count) => {
            let call = with_argument(call, times(last, count))?;
            Ok(Some(Part::Arguments(call)))
        }
        None => Ok(None),
    }
}

fn answered(number: Number, argument: Argument) -> Part
    ensures { result ≡ spec.answered number argument }
{
    Part::Whole(Line::Answer {
        number,
        reply: Some(argument),
    })
}

fn reply(number: Number, sight: Sight) -> Option<Part>
    ensures { result ≡ spec.reply number sight }
{
    if let Some(last) = one_byte(&sight) {
        return Some(Part::ReplyByte { number, last });
    }
    match plain(sight) {
        Some(argument) => Some(answered(number, argument)),
        None => None,
    }
}

fn starred(number: Number, last: OneByte, sight: Sight) -> Option<Part>
    ensures { result ≡ spec.starred number last sight }
{
    if is_star(&sight) {
        Some(Part::ReplyStar { number, last })
    } else {
        None
    }
}

fn repeated_reply(number: Number, last: OneByte, sight: Sight) -> Option<Part>
    ensures { result ≡ spec.repeated_reply number last sight }
{
    match number_of(&sight) {
        Some(count) => Some(answered(number, times(last, count))),
        None => None,
    }
}

/// The line, where its front may be all of it.
pub fn line_of(alloc: Global, part: Part) -> Result<Option<Line>, NoMemory>
    ensures { IfOk result (λ line. line ≡ spec.line_of part) }
{
    match part {
        Part::Arguments(call) => Ok(Some(Line::Call(call))),
        Part::ArgumentByte { call, last } => {
            let call = with_argument(call, single(alloc, last)?)?;
            Ok(Some(Line::Call(call)))
        }
        Part::Replying { number } => Ok(Some(Line::Answer {
            number,
            reply: None,
        })),
        Part::ReplyByte { number, last } => Ok(Some(Line::Answer {
            number,
            reply: Some(single(alloc, last)?),
        })),
        Part::Acting { number, choices } => Ok(Some(Line::Act { number, choices })),
        Part::Booting { choices } => Ok(Some(Line::Boot { choices })),
        Part::Stepping { at, thread } => Ok(Some(Line::Step {
            at,
            thread,
            count: None,
        })),
        Part::Whole(line) => Ok(Some(line)),
        _ => Ok(None),
    }
}
