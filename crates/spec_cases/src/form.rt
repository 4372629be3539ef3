//! What is asked of the texts of a table.

ghost use Rattle.std.specs.Prelude.{◌≤◌, length};

use crate::shown::{push_refusal, push_spec, push_term};
use crate::typed::{Wanted, sort_named, typed};
use anyhow::{Result, bail};
use case_table::Meaning;
use gv_base::{Refusal, Token};
use gv_lex::{lex, term};
use gv_specread::{SpecTree, parse_spec};
use gv_specs::read_spec;
use gv_termread::placed_term;
use std::alloc::Global;

/// The most bytes of a text.
const MOST: usize = 1 << 24;

/// What stands before the body of a crash.
const FIELDS: &str =
    "spec s; disks 0;\nfield n : Word = 0; field m : Word = 0; field b : Bytes = bytes(0, 0); field w : Words = words(0, 0); op A(a : Word) {} crash\n";

/// What is asked of a text.
#[derive(Clone, Copy, Debug)]
pub(crate) enum Form {
    /// Whether it is a specification.
    Text,
    /// Whether it is the second line of one, between `disks` and `crash`.
    Line,
    /// Whether it is the third line of one, behind a field's `=`.
    Field,
    /// What it is as the term behind `reply`, in the second line.
    Reply,
    /// Its whole tree.
    Tree,
    /// What term it begins with, where so many levels are open before it.
    Prefix(u32),
    /// The sort of a term, or its first fault.
    Typed(Wanted),
    /// Whether it is a typed specification.
    Whole,
    /// Whether it is the second line of one, between `disks` and `crash`.
    Middle,
    /// Whether it is the body of a crash over the fields n, m, b and w, in the third line.
    Crash,
}

// The form with this name.
fn form_of(word: &str) -> Option<Form> {
    match word {
        "text" => Some(Form::Text),
        "line" => Some(Form::Line),
        "field" => Some(Form::Field),
        "reply" => Some(Form::Reply),
        "tree" => Some(Form::Tree),
        "sort" => Some(Form::Typed(Wanted::Any)),
        "plain" => Some(Form::Typed(Wanted::Plain)),
        "whole" => Some(Form::Whole),
        "middle" => Some(Form::Middle),
        "crash" => Some(Form::Crash),
        _ => {
            if let Some(sort) = word.strip_prefix("of ") {
                return Some(Form::Typed(Wanted::Of(sort_named(sort)?)));
            }
            let level = word.strip_prefix("prefix ")?;
            match level.parse::<u32>() {
                Ok(level) => Some(Form::Prefix(level)),
                Err(_) => None,
            }
        }
    }
}

// A piece so many times, written PIECE*COUNT.
fn push_times(out: &mut Vec<u8>, said: &str) -> Result<()> {
    let Some((piece, count)) = said.rsplit_once('*') else {
        bail!("no number of times: {said}");
    };
    for _ in 0..count.parse::<u32>()? {
        out.extend_from_slice(piece.as_bytes())?;
    }
    Ok(())
}

// Bytes as a table writes them: `\n` is a newline.
fn push_lines(out: &mut Vec<u8>, said: &str) -> Result<()> {
    let mut first = true;
    for part in said.split("\\n") {
        if !first {
            out.push(b'\n')?;
        }
        first = false;
        out.extend_from_slice(part.as_bytes())?;
    }
    Ok(())
}

// The bytes that are written so: `[[PIECE*COUNT]]` is the piece so many times.
fn push_said(out: &mut Vec<u8>, said: &str) -> Result<()> {
    for part in said.split("[[") {
        match part.split_once("]]") {
            Some((times, rest)) => {
                push_times(out, times)?;
                push_lines(out, rest)?;
            }
            None => push_lines(out, part)?,
        }
    }
    Ok(())
}

fn parsed(alloc: Global, text: &[u8]) -> Result<Result<SpecTree, Refusal>> {
    if text.len() > MOST {
        bail!("a text of more than {MOST} bytes");
    }
    match lex(alloc, text) {
        Ok(tokens) => Ok(parse_spec(alloc, text, &tokens)),
        Err(refusal) => Ok(Err(refusal)),
    }
}

// The text with the front and the back of its form.
fn framed(alloc: Global, front: &str, said: &str, back: &str) -> Result<Vec<u8>> {
    let mut text = Vec::from_slice(alloc, front.as_bytes())?;
    push_said(&mut text, said)?;
    text.extend_from_slice(back.as_bytes())?;
    Ok(text)
}

// `read`, or the refusal.
fn outcome(alloc: Global, text: &[u8]) -> Result<Vec<u8>> {
    let mut out = Vec::new(alloc);
    match parsed(alloc, text)? {
        Ok(_) => out.extend_from_slice(b"read")?,
        Err(refusal) => push_refusal(alloc, &mut out, &refusal)?,
    }
    Ok(out)
}

// `typed`, or the refusal.
fn meaning(alloc: Global, text: &[u8]) -> Result<Vec<u8>> {
    if text.len() > MOST {
        bail!("a text of more than {MOST} bytes");
    }
    let mut out = Vec::new(alloc);
    match read_spec(alloc, text) {
        Ok(_) => out.extend_from_slice(b"typed")?,
        Err(refusal) => push_refusal(alloc, &mut out, &refusal)?,
    }
    Ok(out)
}

// The term that the crash body replies.
fn reply(alloc: Global, text: &[u8]) -> Result<Vec<u8>> {
    let mut out = Vec::new(alloc);
    match parsed(alloc, text)? {
        Ok(tree) => match &tree.crash.reply {
            Some(reply) => push_term(alloc, &mut out, text, &reply.term)?,
            None => bail!("no reply"),
        },
        Err(refusal) => push_refusal(alloc, &mut out, &refusal)?,
    }
    Ok(out)
}

fn tree(alloc: Global, text: &[u8]) -> Result<Vec<u8>> {
    let mut out = Vec::new(alloc);
    match parsed(alloc, text)? {
        Ok(tree) => push_spec(alloc, &mut out, text, &tree)?,
        Err(refusal) => push_refusal(alloc, &mut out, &refusal)?,
    }
    Ok(out)
}

// The term without places must have as many tokens, or be refused alike.
fn agrees(alloc: Global, text: &[u8], tokens: &Vec<Token>, level: u32, next: Option<u32>) -> bool
    requires { length text.now ≤ MOST }
{
    match (term(alloc, text, tokens, 0, level), next) {
        (Ok((_, end)), Some(next)) => end == next,
        (Err(Refusal::At { .. }), None) => true,
        _ => false,
    }
}

// The number of tokens of the term that a text begins with, and the term.
fn prefix(alloc: Global, text: &[u8], level: u32) -> Result<Vec<u8>> {
    if text.len() > MOST {
        bail!("a text of more than {MOST} bytes");
    }
    let mut out = Vec::new(alloc);
    let tokens = match lex(alloc, text) {
        Ok(tokens) => tokens,
        Err(refusal) => {
            push_refusal(alloc, &mut out, &refusal)?;
            return Ok(out);
        }
    };
    let next = match placed_term(alloc, text, &tokens, 0, level) {
        Ok((term, next)) => {
            let head = format!(in alloc; "{next}: ")?;
            out.extend_from_slice(head.as_bytes())?;
            push_term(alloc, &mut out, text, &term)?;
            Some(next)
        }
        Err(refusal) => {
            push_refusal(alloc, &mut out, &refusal)?;
            None
        }
    };
    if !agrees(alloc, text, &tokens, level, next) {
        bail!("the term without places is another one");
    }
    Ok(out)
}

impl Form {
    // The answer for a text, as a table writes it.
    fn answer(self, alloc: Global, said: &str) -> Result<Vec<u8>> {
        match self {
            Form::Text => outcome(alloc, &framed(alloc, "", said, "")?),
            Form::Line => outcome(
                alloc,
                &framed(alloc, "spec s; disks 0;\n", said, "\ncrash {}")?,
            ),
            Form::Field => outcome(
                alloc,
                &framed(alloc, "spec s; disks 0;\nfield a : Word =\n", said, "")?,
            ),
            Form::Reply => reply(
                alloc,
                &framed(alloc, "spec s; disks 0; crash { reply\n", said, "\n; }")?,
            ),
            Form::Tree => tree(alloc, &framed(alloc, "", said, "")?),
            Form::Prefix(level) => prefix(alloc, &framed(alloc, "", said, "")?, level),
            Form::Typed(wanted) => typed(alloc, &framed(alloc, "", said, "")?, wanted),
            Form::Whole => meaning(alloc, &framed(alloc, "", said, "")?),
            Form::Middle => meaning(
                alloc,
                &framed(alloc, "spec s; disks 0;\n", said, "\ncrash {}")?,
            ),
            Form::Crash => meaning(alloc, &framed(alloc, FIELDS, said, "")?),
        }
    }
}

impl Meaning for Form {
    fn new(_alloc: Global) -> Result<Form> {
        Ok(Form::Text)
    }

    fn take(&mut self, _alloc: Global, line: &str) -> Result<bool> {
        let Some(word) = line.strip_prefix("form ") else {
            return Ok(false);
        };
        match form_of(word) {
            Some(form) => *self = form,
            None => bail!("no form: {line}"),
        }
        Ok(true)
    }

    fn other(&self, alloc: Global, text: &str, want: &str) -> Result<Option<String>> {
        let answer = self.answer(alloc, text)?;
        if answer.as_slice() == want.as_bytes() {
            return Ok(None);
        }
        let answer = answer.as_slice().escape_ascii();
        Ok(Some(format!(in alloc; "{answer}")?))
    }
}
