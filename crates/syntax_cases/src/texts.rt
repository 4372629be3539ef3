//! How a table writes its texts.

use crate::shown::{MOST, answer_text, answer_tree};
use anyhow::{Context, Result, bail};
use case_table::{Meaning, unescaped};
use std::alloc::Global;

/// How the texts are written: whole; as parts that are separated by ` @ `, each with how many times it stands, as in
/// `1 package p\n @ 200 import "a"\n`; several that begin alike, as in `package p\nconst @ + - 5`, where the text before the
/// ` @ ` goes on with a space and with one word of those behind it; or as the number of bytes of a front of one text. Or whole,
/// where the table wants their trees.
#[derive(Debug, Drop)]
pub(crate) enum Texts {
    Whole,
    InParts,
    BegunAlike,
    FrontsOf(Vec<u8>),
    Trees,
}

fn push_times(text: &mut Vec<u8>, part: &[u8], times: u32) -> Result<()> {
    for _ in 0..times {
        if text.len() > MOST {
            bail!("a text of more than {MOST} bytes");
        }
        text.extend_from_slice(part)?;
    }
    Ok(())
}

// The text that is written as parts.
fn joined(alloc: Global, said: &str) -> Result<Vec<u8>> {
    let mut text = Vec::new(alloc);
    for part in said.split(" @ ") {
        let Some((times, part)) = part.split_once(' ') else {
            bail!("no part: {part}");
        };
        let times = times
            .parse::<u32>()
            .context("how many times a part stands")?;
        push_times(&mut text, &unescaped(alloc, part)?, times)?;
    }
    Ok(text)
}

// The answer for a text, where that isn't what the table wants.
fn other_answer(alloc: Global, text: &[u8], want: &str) -> Result<Option<String>> {
    other_than(answer_text(alloc, text)?, want)
}

// An answer, where that isn't what the table wants.
fn other_than(answer: String, want: &str) -> Result<Option<String>> {
    if answer.as_str() == want {
        Ok(None)
    } else {
        Ok(Some(answer))
    }
}

// The first other answer among texts that begin alike, with the word that the text ends with.
fn other_of_alike(alloc: Global, said: &str, want: &str) -> Result<Option<String>> {
    let Some((front, words)) = said.split_once(" @ ") else {
        bail!("no texts that begin alike: {said}");
    };
    for word in words.split(' ') {
        let mut text = unescaped(alloc, front)?;
        text.push(b' ')?;
        text.extend_from_slice(unescaped(alloc, word)?.as_slice())?;
        if let Some(answer) = other_answer(alloc, &text, want)? {
            return Ok(Some(format!(in alloc; "{answer} with {word}")?));
        }
    }
    Ok(None)
}

// The answer for the first bytes of a text, where that isn't what the table wants.
fn other_of_front(alloc: Global, text: &[u8], said: &str, want: &str) -> Result<Option<String>> {
    let length = said.parse::<usize>().context("how many bytes a front has")?;
    match text.get(..length) {
        Some(front) => other_answer(alloc, front, want),
        None => bail!("the text has no front of {length} bytes"),
    }
}

impl Meaning for Texts {
    fn new(_alloc: Global) -> Result<Texts> {
        Ok(Texts::Whole)
    }

    fn take(&mut self, alloc: Global, line: &str) -> Result<bool> {
        if let Some(text) = line.strip_prefix("fronts of ") {
            *self = Texts::FrontsOf(unescaped(alloc, text)?);
            return Ok(true);
        }
        match line {
            "whole texts" => *self = Texts::Whole,
            "texts in parts" => *self = Texts::InParts,
            "texts that begin alike" => *self = Texts::BegunAlike,
            "trees of texts" => *self = Texts::Trees,
            _ => return Ok(false),
        }
        Ok(true)
    }

    fn other(&self, alloc: Global, said: &str, want: &str) -> Result<Option<String>> {
        match self {
            Texts::Whole => other_answer(alloc, &unescaped(alloc, said)?, want),
            Texts::InParts => other_answer(alloc, &joined(alloc, said)?, want),
            Texts::BegunAlike => other_of_alike(alloc, said, want),
            Texts::FrontsOf(text) => other_of_front(alloc, text, said, want),
            Texts::Trees => other_than(answer_tree(alloc, &unescaped(alloc, said)?)?, want),
        }
    }
}
