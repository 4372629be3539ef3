//! Answers as a table writes them: `script` or its tree, or the line, the column and the code of a refusal.

use crate::printed::printed;
use anyhow::{Result, bail};
use gv_base::{Place, Refusal, Token};
use gv_lex::lex;
use gv_scriptparse::parse_script;
use gv_scriptsyntax::Tree;
use std::alloc::Global;

/// The most bytes of a text.
pub(crate) const MOST: usize = 1 << 24;

/// The tokens of a text, or its refusal.
pub(crate) fn tokens_of(alloc: Global, text: &[u8]) -> Result<Result<Vec<Token>, Refusal>> {
    if text.len() > MOST {
        bail!("a text of more than {MOST} bytes");
    }
    Ok(lex(alloc, text))
}

// The tree of a text, by its characters and then by its grammar.
fn read(alloc: Global, text: &[u8]) -> Result<Result<Tree, Refusal>> {
    if text.len() > MOST {
        bail!("a text of more than {MOST} bytes");
    }
    match lex(alloc, text) {
        Ok(tokens) => Ok(parse_script(alloc, text, &tokens)),
        Err(refusal) => Ok(Err(refusal)),
    }
}

// How a refusal is written.
fn refused(alloc: Global, refusal: Refusal) -> Result<String> {
    match refusal {
        Refusal::NoMemory => bail!("out of memory"),
        Refusal::At { place, code } => {
            let Place { line, column } = place;
            Ok(format!(in alloc; "{line}:{column} {}", code.name())?)
        }
    }
}

/// The answer for a text: whether it is a script.
pub(crate) fn answer_text(alloc: Global, text: &[u8]) -> Result<String> {
    match read(alloc, text)? {
        Ok(_) => Ok(String::from_str(alloc, "script")?),
        Err(refusal) => refused(alloc, refusal),
    }
}

/// The answer for a text: its tree.
pub(crate) fn answer_tree(alloc: Global, text: &[u8]) -> Result<String> {
    match read(alloc, text)? {
        Ok(tree) => printed(alloc, text, &tree),
        Err(refusal) => refused(alloc, refusal),
    }
}
