//! What is asked of the texts of a table.

use crate::shown::{answer_text, place_text};
use anyhow::{Context, Result, bail};
use case_table::{Meaning, unescaped};
use gv_base::place_of;
use gv_lex::lex;
use gv_tokens::tokens;
use std::alloc::Global;

/// The most bytes of a text.
const MOST: usize = 1 << 24;

/// What is asked: the tokens of a text of Go, or of one of this project's own, or the place of a byte of a text.
#[derive(Clone, Copy, Debug)]
pub(crate) enum Language {
    Go,
    Own,
    Places,
}

// The place of a byte in a text, written behind the text and ` @ `.
fn place_in(alloc: Global, said: &str) -> Result<Vec<u8>> {
    let Some((text, at)) = said.split_once(" @ ") else {
        bail!("no place: {said}");
    };
    let text = unescaped(alloc, text)?;
    let at = at.parse::<u32>().context("the number of a byte")?;
    if text.len() > MOST || at as usize > text.len() {
        bail!("no byte of the text: {at}");
    }
    place_text(alloc, place_of(&text, at))
}

impl Language {
    // What a line says that begins the cases of one kind.
    fn named(line: &str) -> Option<Language> {
        match line {
            "tokens of Go" => Some(Language::Go),
            "tokens of own texts" => Some(Language::Own),
            "places" => Some(Language::Places),
            _ => None,
        }
    }

    // The answer for a text, as a table writes it.
    fn answer(self, alloc: Global, said: &str) -> Result<Vec<u8>> {
        if let Language::Places = self {
            return place_in(alloc, said);
        }
        let text = unescaped(alloc, said)?;
        if text.len() > MOST {
            bail!("a text of more than {MOST} bytes");
        }
        let read = match self {
            Language::Go => tokens(alloc, &text),
            Language::Own | Language::Places => lex(alloc, &text),
        };
        answer_text(alloc, &text, &read)
    }
}

impl Meaning for Language {
    fn new(_alloc: Global) -> Result<Language> {
        Ok(Language::Go)
    }

    fn take(&mut self, _alloc: Global, line: &str) -> Result<bool> {
        match Language::named(line) {
            Some(next) => {
                *self = next;
                Ok(true)
            }
            None => Ok(false),
        }
    }

    fn other(&self, alloc: Global, text: &str, want: &str) -> Result<Option<String>> {
        let answer = self.answer(alloc, text)?;
        if answer.as_slice() == unescaped(alloc, want)?.as_slice() {
            return Ok(None);
        }
        let answer = answer.as_slice().escape_ascii();
        Ok(Some(format!(in alloc; "{answer}")?))
    }
}
