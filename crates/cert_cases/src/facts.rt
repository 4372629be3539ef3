//! Terms and facts as a table writes them.

ghost use Rattle.gv_terms.specs.Store.{AreIn, Grows};
ghost use Rattle.std.specs.Prelude.{IfOk};

use crate::repeated::MOST;
use anyhow::{Result, bail};
use gv_have::formula;
use gv_known::Facts;
use gv_lex::{lex, term};
use gv_terms::{RawTerm, Scope, TermStore};
use std::alloc::Global;

/// The term that bytes are, as it was read.
pub(crate) fn raw_term(alloc: Global, bytes: &[u8]) -> Result<RawTerm> {
    if bytes.len() > MOST {
        bail!("a term that is too long");
    }
    let tokens = lex(alloc, bytes)?;
    let (raw, next) = term(alloc, bytes, &tokens, 0, 0)?;
    if next as usize != tokens.len() {
        bail!("no term");
    }
    Ok(raw)
}

/// The facts that a text lists, with semicolons between them; none where it is empty.
pub(crate) fn facts_of(
    alloc: Global,
    store: &mut TermStore,
    scope: &Scope,
    text: &str,
) -> Result<Facts>
    ensures within { IfOk result (λ ts. AreIn store.new ts) }
{
    let mut facts = Facts::new(alloc);
    if text.is_empty() {
        return Ok(facts);
    }
    for part in text.split("; ") {
        let raw = raw_term(alloc, part.as_bytes())?;
        let Ok(fact) = formula(alloc, store, scope, &raw) else {
            bail!("no formula: {part}");
        };
        facts.push(store, fact)?;
    }
    Ok(facts)
}
