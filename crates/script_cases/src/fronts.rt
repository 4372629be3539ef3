//! How the fronts of a text are refused, byte by byte.

use crate::shown::{MOST, answer_text, tokens_of};
use anyhow::{Result, bail};
use gv_base::{Place, place_of};
use std::alloc::Global;

/// How many fronts are scripts; and how many are refused at their end, as they begin one, at their last word, which is cut off, or
/// at a dot that nothing follows.
#[derive(Clone, Copy)]
struct Counts {
    whole: u64,
    ended: u64,
    cut: u64,
    dotted: u64,
}

// A refusal at a byte of a text, as an answer writes it.
fn refused_at(alloc: Global, text: &[u8], at: usize, code: &str) -> Result<String> {
    if text.len() > MOST || at > text.len() {
        bail!("a place outside of the text");
    }
    let Place { line, column } = place_of(text, at as u32);
    Ok(format!(in alloc; "{line}:{column} {code}")?)
}

// Where the last token of a text begins, if all its characters make tokens.
fn last_start(alloc: Global, text: &[u8]) -> Result<usize> {
    let Ok(tokens) = tokens_of(alloc, text)? else {
        return Ok(text.len());
    };
    Ok(
        tokens
            .last()
            .map_or(text.len(), |token| token.start as usize),
    )
}

// The counts with one front more, or none where it is refused in no such way.
fn with_front(alloc: Global, front: &[u8], counts: Counts) -> Result<Option<Counts>> {
    let answer = answer_text(alloc, front)?;
    if answer.as_str() == "script" {
        return Ok(Some(Counts {
            whole: counts.whole.saturating_add(1),
            ..counts
        }));
    }
    if answer == refused_at(alloc, front, front.len(), "EndOfText")? {
        return Ok(Some(Counts {
            ended: counts.ended.saturating_add(1),
            ..counts
        }));
    }
    if answer == refused_at(alloc, front, last_start(alloc, front)?, "Unexpected")? {
        return Ok(Some(Counts {
            cut: counts.cut.saturating_add(1),
            ..counts
        }));
    }
    let dot = front.len().saturating_sub(1);
    if front.ends_with(b".") && answer == refused_at(alloc, front, dot, "BadChar")? {
        return Ok(Some(Counts {
            dotted: counts.dotted.saturating_add(1),
            ..counts
        }));
    }
    Ok(None)
}

/// How the fronts of a text are refused that lack its last byte, or which one is refused in another way.
pub(crate) fn fronts_by_bytes(alloc: Global, text: &[u8]) -> Result<String> {
    let mut counts = Counts {
        whole: 0,
        ended: 0,
        cut: 0,
        dotted: 0,
    };
    for end in 0..text.len() {
        match with_front(alloc, &text[..end], counts)? {
            Some(more) => counts = more,
            None => return Ok(format!(in alloc; "another answer for the first {end} bytes")?),
        }
    }
    let Counts {
        whole,
        ended,
        cut,
        dotted,
    } = counts;
    Ok(format!(in alloc;
        "{whole} whole, {ended} at the end, {cut} at a cut word, {dotted} at a dot"
    )?)
}
