//! Terms of texts with their sorts, or their first faults, among the variables of all tables.

ghost use Rattle.std.specs.Prelude.{◌<◌, ◌≤◌, length, IfOk};

use crate::shown::push_refusal;
use anyhow::{Result, bail};
use gv_base::{Name, NoMemory, Refusal, place_of};
use gv_lex::lex;
use gv_termread::{PlacedTerm, placed_term};
use gv_terms::{Scope, Sort, Term, TermStore};
use gv_typing::{TermFault, make_plain_term, make_term, make_term_of};
use std::alloc::Global;

/// The most bytes of a text.
const MOST: usize = 1 << 24;

/// What sort a term must have.
#[derive(Clone, Copy, Debug)]
pub(crate) enum Wanted {
    Any,
    Plain,
    Of(Sort),
}

/// The sort with this name.
pub(crate) fn sort_named(word: &str) -> Option<Sort> {
    SORTS.iter().copied().find(|sort| name_of(*sort) == word)
}

const SORTS: [Sort; 12] = [
    Sort::Word,
    Sort::Bool,
    Sort::Bytes,
    Sort::Words,
    Sort::Refs,
    Sort::Blocks,
    Sort::MapWW,
    Sort::MapWB,
    Sort::Ref,
    Sort::SliceS,
    Sort::Call,
    Sort::Name,
];

fn name_of(sort: Sort) -> &'static str {
    match sort {
        Sort::Word => "Word",
        Sort::Bool => "Bool",
        Sort::Bytes => "Bytes",
        Sort::Words => "Words",
        Sort::Refs => "Refs",
        Sort::Blocks => "Blocks",
        Sort::MapWW => "MapWW",
        Sort::MapWB => "MapWB",
        Sort::Ref => "Ref",
        Sort::SliceS => "SliceS",
        Sort::Call => "Call",
        Sort::Name => "Name",
    }
}

// The variables of all tables.
const VARIABLES: [(&str, Sort); 15] = [
    ("x", Sort::Word),
    ("y", Sort::Word),
    ("p", Sort::Bool),
    ("q", Sort::Bool),
    ("b", Sort::Bytes),
    ("c", Sort::Bytes),
    ("w", Sort::Words),
    ("l", Sort::Refs),
    ("k", Sort::Blocks),
    ("m", Sort::MapWW),
    ("n", Sort::MapWB),
    ("r", Sort::Ref),
    ("s", Sort::SliceS),
    ("t", Sort::Call),
    ("g", Sort::Name),
];

fn variables(alloc: Global) -> Result<Scope, NoMemory> {
    let mut scope = Scope::new(alloc);
    for (name, sort) in &VARIABLES {
        scope.declare(Name::from_slice(alloc, name.as_bytes())?, *sort)?;
    }
    Ok(scope)
}

// The term of a whole text.
fn read(alloc: Global, text: &[u8]) -> Result<PlacedTerm>
    requires { length text.now ≤ MOST }
{
    let Ok(tokens) = lex(alloc, text) else {
        bail!("no tokens");
    };
    match placed_term(alloc, text, &tokens, 0, 0) {
        Ok((term, next)) if next as usize == tokens.len() => Ok(term),
        _ => bail!("no term"),
    }
}

fn made(
    alloc: Global,
    store: &mut TermStore,
    wanted: Wanted,
    term: &PlacedTerm,
) -> Result<Term, TermFault>
    ensures { IfOk result (λ t. t.id < length store.new) }
{
    let scope = variables(alloc)?;
    match wanted {
        Wanted::Any => make_term(alloc, store, &scope, term),
        Wanted::Plain => make_plain_term(alloc, store, &scope, term),
        Wanted::Of(sort) => make_term_of(alloc, store, &scope, sort, term),
    }
}

/// The sort of a term, or the place and the code of its first fault.
pub(crate) fn typed(alloc: Global, text: &[u8], wanted: Wanted) -> Result<Vec<u8>> {
    if text.len() > MOST {
        bail!("a text of more than {MOST} bytes");
    }
    let term = read(alloc, text)?;
    let mut store = TermStore::new(alloc)?;
    let mut out = Vec::new(alloc);
    match made(alloc, &mut store, wanted, &term) {
        Ok(term) => out.extend_from_slice(name_of(store.sort_of(term)).as_bytes())?,
        Err(TermFault::NoMemory) => bail!("out of memory"),
        Err(TermFault::At { start, code }) => {
            let place = place_of(text, start.min(text.len() as u32));
            push_refusal(alloc, &mut out, &Refusal::At { place, code })?;
        }
    }
    Ok(out)
}
