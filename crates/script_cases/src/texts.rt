//! How a table writes its texts.

use crate::fronts::fronts_by_bytes;
use crate::shown::{MOST, answer_text, answer_tree, tokens_of};
use anyhow::{Context, Result, bail};
use case_table::{Meaning, unescaped};
use std::alloc::Global;

/// How the texts are written: whole; as parts that are separated by ` @ `, each with how many times it stands, as in
/// `1 crash C; @ 200 (`; or as what stands in a script of their own, on lines of its second one: the commands of its first
/// block, a certificate, the items of a heap, or declarations before and behind its blocks. Or whole, where the table wants
/// how many of the fronts that end with a token are unfinished, and how many are scripts; or how each front is refused that lacks the
/// last byte.
#[derive(Clone, Copy, Debug)]
pub(crate) enum Texts {
    Whole,
    InParts,
    Commands,
    Certificate,
    Heap,
    Before,
    Behind,
    Fronts,
    ByBytes,
}

// What stands before and behind such a text, and the tree of a script with another one in its place.
fn frame_of(texts: Texts) -> ([&'static str; 2], [&'static str; 2]) {
    match texts {
        Texts::Commands => (
            ["crash C; root R; init {\n", "\n} recover { }"],
            ["[] [] C R {", "} {} [] [] []"],
        ),
        Texts::Certificate => (
            ["crash C; root R; init { have x by\n", "\n; } recover { }"],
            ["[] [] C R {(have x ", ");} {} [] [] []"],
        ),
        Texts::Heap => (
            [
                "pred P() { case () {\n",
                "\n} } crash C; root R; init { } recover { }",
            ],
            ["[] [(pred P () (case () {", "}))] C R {} {} [] [] []"],
        ),
        Texts::Before => (
            ["\n", "\ncrash C; root R; init { } recover { }"],
            ["", " C R {} {} [] [] []"],
        ),
        Texts::Behind => (
            ["crash C; root R; init { } recover { }\n", ""],
            ["[] [] C R {} {} ", ""],
        ),
        Texts::Whole | Texts::InParts | Texts::Fronts | Texts::ByBytes => (["", ""], ["", ""]),
    }
}

fn push_times(text: &mut Vec<u8>, part: &[u8], times: u32) -> Result<()> {
    for _ in 0..times {
        if text.len() > MOST {
            bail!("a text of more than {MOST} bytes");
        }
        text.extend_from_slice(part)?;
    }
    Ok(())
}

// The text that is written as parts.
fn joined(alloc: Global, said: &str) -> Result<Vec<u8>> {
    let mut text = Vec::new(alloc);
    for part in said.split(" @ ") {
        let Some((times, part)) = part.split_once(' ') else {
            bail!("no part: {part}");
        };
        let times = times
            .parse::<u32>()
            .context("how many times a part stands")?;
        push_times(&mut text, &unescaped(alloc, part)?, times)?;
    }
    Ok(text)
}

// An answer, where that isn't what the table wants.
fn other_than(answer: String, want: &str) -> Result<Option<String>> {
    if answer.as_str() == want {
        Ok(None)
    } else {
        Ok(Some(answer))
    }
}

// The same of a text within a script, where the table wants the tree of the text alone or a refusal.
fn other_within(alloc: Global, texts: Texts, said: &str, want: &str) -> Result<Option<String>> {
    let (around, shown) = frame_of(texts);
    let mut text = Vec::new(alloc);
    text.extend_from_slice(around[0].as_bytes())?;
    text.extend_from_slice(unescaped(alloc, said)?.as_slice())?;
    text.extend_from_slice(around[1].as_bytes())?;
    let answer = answer_tree(alloc, &text)?;
    let whole = format!(in alloc; "{}{want}{}", shown[0], shown[1])?;
    if answer.as_str() == whole.as_str() {
        return Ok(None);
    }
    other_than(answer, want)
}

// How many fronts of a text that end with a token are unfinished, and how many are scripts.
fn fronts(alloc: Global, text: &[u8]) -> Result<String> {
    let Ok(tokens) = tokens_of(alloc, text)? else {
        bail!("characters that are no tokens");
    };
    let mut unfinished = 0u64;
    let mut whole = 0u64;
    for token in &tokens {
        let Some(front) = text.get(..token.end as usize) else {
            bail!("a token outside of the text");
        };
        let answer = answer_text(alloc, front)?;
        if answer.as_str() == "script" {
            whole = whole.saturating_add(1);
        } else if answer.as_str().ends_with(" EndOfText") {
            unfinished = unfinished.saturating_add(1);
        } else {
            return Ok(answer);
        }
    }
    Ok(format!(in alloc; "{unfinished} unfinished, {whole} whole")?)
}

impl Meaning for Texts {
    fn new(_alloc: Global) -> Result<Texts> {
        Ok(Texts::Whole)
    }

    fn take(&mut self, _alloc: Global, line: &str) -> Result<bool> {
        match line {
            "trees of texts" => *self = Texts::Whole,
            "texts in parts" => *self = Texts::InParts,
            "commands of a block" => *self = Texts::Commands,
            "certificates" => *self = Texts::Certificate,
            "items of a heap" => *self = Texts::Heap,
            "declarations before the blocks" => *self = Texts::Before,
            "declarations behind the blocks" => *self = Texts::Behind,
            "fronts of texts" => *self = Texts::Fronts,
            "fronts by bytes" => *self = Texts::ByBytes,
            _ => return Ok(false),
        }
        Ok(true)
    }

    fn other(&self, alloc: Global, said: &str, want: &str) -> Result<Option<String>> {
        match self {
            Texts::Whole => other_than(answer_tree(alloc, &unescaped(alloc, said)?)?, want),
            Texts::InParts => other_than(answer_text(alloc, &joined(alloc, said)?)?, want),
            Texts::Fronts => other_than(fronts(alloc, &unescaped(alloc, said)?)?, want),
            Texts::ByBytes => other_than(fronts_by_bytes(alloc, &unescaped(alloc, said)?)?, want),
            Texts::Commands | Texts::Certificate | Texts::Heap | Texts::Before | Texts::Behind =>
                other_within(alloc, *self, said, want),
        }
    }
}
