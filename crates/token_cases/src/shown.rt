//! Answers as a table writes them.
//!
//! A token is shown as its kind (`w` word, `n` number, `t` text, `s` sign, `;` semicolon) and its bytes, and an inserted semicolon
//! as `~`. Tokens are separated by spaces.

use anyhow::{Context, Result, bail};
use gv_base::{Kind, Place, Refusal, Token};
use std::alloc::Global;

fn letter_of(kind: Kind) -> u8 {
    match kind {
        Kind::Word => b'w',
        Kind::Number => b'n',
        Kind::Text => b't',
        Kind::Sign => b's',
        Kind::Semi => b';',
    }
}

fn show(out: &mut Vec<u8>, text: &[u8], token: Token) -> Result<()> {
    if token.start == token.end {
        out.push(if token.kind == Kind::Semi { b'~' } else { b'?' })?;
        return Ok(());
    }
    let span = token.start as usize..token.end as usize;
    let bytes = text.get(span).context("a span within the text")?;
    out.push(letter_of(token.kind))?;
    out.extend_from_slice(bytes)?;
    Ok(())
}

fn tokens_text(alloc: Global, text: &[u8], tokens: &[Token]) -> Result<Vec<u8>> {
    let mut out = Vec::new(alloc);
    for token in tokens {
        if !out.is_empty() {
            out.push(b' ')?;
        }
        show(&mut out, text, *token)?;
    }
    if out.is_empty() {
        out.extend_from_slice(b"no tokens")?;
    }
    Ok(out)
}

/// A place, as line and column.
pub(crate) fn place_text(alloc: Global, place: Place) -> Result<Vec<u8>> {
    let Place { line, column } = place;
    let text = format!(in alloc; "{line}:{column}")?;
    Ok(Vec::from_slice(alloc, text.as_bytes())?)
}

/// The tokens of a text, or the place and the code of its refusal.
pub(crate) fn answer_text(
    alloc: Global,
    text: &[u8],
    answer: &Result<Vec<Token>, Refusal>,
) -> Result<Vec<u8>> {
    match answer {
        Ok(tokens) => tokens_text(alloc, text, tokens.as_slice()),
        Err(Refusal::NoMemory) => bail!("out of memory"),
        Err(Refusal::At { place, code }) => {
            let mut out = place_text(alloc, *place)?;
            out.push(b' ')?;
            out.extend_from_slice(code.name().as_bytes())?;
            Ok(out)
        }
    }
}
