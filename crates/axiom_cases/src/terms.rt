//! Terms as a table writes them, with semicolons between them.

ghost use Rattle.std.specs.Prelude.{◌<◌, length, IfOk};
ghost use Rattle.gv_terms.specs.Store.{AreIn, Grows};

use anyhow::{Result, bail};
use gv_lex::{lex, term};
use gv_terms::{RawTerm, Scope, Term, TermStore, TermTree, resolve};
use std::alloc::Global;

/// The most bytes of a term.
const MOST: usize = 1 << 24;

// The term that a text is, as it was read.
fn raw_term(alloc: Global, text: &str) -> Result<RawTerm> {
    let bytes = text.as_bytes();
    if bytes.len() > MOST {
        bail!("a term that is too long");
    }
    let tokens = lex(alloc, bytes)?;
    let (raw, next) = term(alloc, bytes, &tokens, 0, 0)?;
    if next as usize != tokens.len() {
        bail!("no term: {text}");
    }
    Ok(raw)
}

/// The term that a text is.
pub(crate) fn term_of(
    alloc: Global,
    store: &mut TermStore,
    scope: &Scope,
    text: &str,
) -> Result<Term>
    ensures within { IfOk result (λ t. t.id < length store.new) }
    ensures grows { Grows store.old store.new }
{
    let raw = raw_term(alloc, text)?;
    match resolve(alloc, store, scope, &raw) {
        Ok(term) => Ok(term),
        Err(_) => bail!("no sort: {text}"),
    }
}

/// The terms that a text lists; none where it is empty.
pub(crate) fn terms_of(
    alloc: Global,
    store: &mut TermStore,
    scope: &Scope,
    text: &str,
) -> Result<Vec<Term>>
    ensures within { IfOk result (λ ts. AreIn store.new ts.items) }
    ensures grows { Grows store.old store.new }
{
    let mut terms = Vec::new(alloc);
    if text.is_empty() {
        return Ok(terms);
    }
    for part in text.split("; ") {
        let term = term_of(alloc, store, scope, part)?;
        terms.push(term)?;
    }
    Ok(terms)
}

/// The trees of terms.
pub(crate) fn trees_of(alloc: Global, store: &TermStore, terms: &[Term]) -> Result<Vec<TermTree>>
    requires { AreIn store.now terms.now }
{
    let mut trees = Vec::new(alloc);
    for i in 0..terms.len() {
        trees.push(store.tree_of(alloc, terms[i])?)?;
    }
    Ok(trees)
}
