//! The table of commands.

ghost use Rattle.std.specs.Prelude.{◌≡◌, ◌++◌, [], ◌∷◌, ℕ, true, false, List as Seq, IfSome, IfNone, codes};
ghost use Rattle.gv_top.specs.Commands as table;
ghost use Rattle.gv_top.specs.Commands.{Command as AnyCommand, AreWordsOf, AreInRange};
ghost use Rattle.gv_top.specs.Files.{asked, outside};
ghost use Rattle.gv_top.specs.Judge.{IsMost};
ghost use Rattle.gv_top.specs.Run.{IsBlamedIn};

use crate::check::{CheckWords, check};
use crate::explain::{ExplainWords, explain};
use crate::judge::{JudgeWords, judge, most_of};
use crate::outcome::told;
use crate::replay::{ReplayWords, replay};
use gv_base::{Files, List};
use gv_report::{Format, Report};
use std::alloc::Global;

/// A command with its words. This project's own.
#[derive(Clone, Copy)]
pub enum Command<'a> {
    Check(CheckWords<'a>),
    Explain(ExplainWords<'a>),
    Replay(ReplayWords<'a>),
    Judge(JudgeWords<'a>),
}

// Whether the last word is `json`.
fn asks_for_json(words: &[String]) -> bool
    ensures { result ≡ table.asks_for_json (table.texts words.now) }
{
    match words.last() {
        Some(word) => word.as_str() == "json",
        None => false,
    }
}

// The words before a last word `json`, which are a command's own.
fn own_words(words: &[String]) -> &[String]
    ensures { table.texts words.now ≡ table.texts result.now ++ table.words_behind (table.asks_for_json (table.texts words.now)) }
{
    if asks_for_json(words) {
        &words[..words.len() - 1]
    } else {
        words
    }
}

// The command to judge the history under a name, where the last word tells how many nodes.
fn of_judge<'a>(spec: &'a str, history: &'a str, most: &str) -> Option<Command<'a>>
    ensures some { IfSome result (λ c. AreWordsOf (table.named c) (codes "judge" ∷ spec.now ∷ history.now ∷ most.now ∷ [])) }
    ensures none { IfNone result ((n : ℕ) → IsMost most.now n → ⊥) }
{
    match most_of(most) {
        Some(most) => Some(Command::Judge(JudgeWords {
            spec,
            history,
            most,
        })),
        None => None,
    }
}

// The command that a word is with three words behind it: the table's words.
fn of_three<'a>(
    word: &'a str,
    first: &'a str,
    second: &'a str,
    third: &'a str,
) -> Option<Command<'a>>
    ensures some { IfSome result (λ c. AreWordsOf (table.named c) (word.now ∷ first.now ∷ second.now ∷ third.now ∷ [])) }
    ensures none { IfNone result ((c : AnyCommand) → AreWordsOf c (word.now ∷ first.now ∷ second.now ∷ third.now ∷ []) → ⊥) }
{
    match word {
        "check" => Some(Command::Check(CheckWords {
            package: first,
            spec: second,
            script: third,
        })),
        "explain" => Some(Command::Explain(ExplainWords {
            spec: first,
            history: second,
            moves: third,
        })),
        "replay" => Some(Command::Replay(ReplayWords {
            package: first,
            spec: second,
            schedule: third,
        })),
        "judge" => of_judge(first, second, third),
        _ => None,
    }
}

/// The command that the words are, and behind them perhaps `json`. A last word `json` is always that word.
pub fn command_of(words: &Vec<String>) -> Option<Command>
    ensures some { IfSome result (λ c. table.Asks (table.texts words.now.items) (table.named c)) }
    ensures none { IfNone result (table.IsNoCommand (table.texts words.now.items)) }
{
    match own_words(words.as_slice()) {
        [word, first, second, third] => of_three(
            word.as_str(),
            first.as_str(),
            second.as_str(),
            third.as_str(),
        ),
        _ => None,
    }
}

/// The format that the words ask for, before a file is fetched.
pub fn format_for(alloc: Global, words: &Vec<String>) -> Format
    ensures { result ≡ table.format_for (table.texts words.now.items) }
{
    if asks_for_json(words.as_slice()) {
        Format::Json {
            digests: List::new(alloc),
        }
    } else {
        Format::Text
    }
}

/// The report of what comes of a command: what the table says is done.
pub fn perform<F: Files>(
    alloc: Global,
    command: &Command,
    files: &mut F,
    format: &mut Format,
) -> Report
    requires { AreInRange (table.named command.now) }
    ensures comes { table.Comes (outside (F.held files.old)) (table.named command.now) format.old result format.new }
    ensures blame { IsBlamedIn (asked F.held F.faults F.failed files.old files.new) result }
    ensures kept { (other : Seq ℕ) → F.held files.new other ≡ F.held files.old other }
{
    match command {
        Command::Check(names) => told(check(alloc, names, files, format)),
        Command::Explain(names) => told(explain(alloc, names, files, format)),
        Command::Replay(names) => told(replay(alloc, names, files, format)),
        Command::Judge(names) => told(judge(alloc, names, files, format)),
    }
}
