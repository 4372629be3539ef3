//! The unknowns of a sum, in the order of their first use.

ghost use Rattle.std.specs.Prelude.{◌≡◌, ◌<◌, length, IfOk};
ghost use Rattle.gv_terms.specs.Store.{tree_at, trees_at, AreIn};
ghost use Rattle.gv_certs.specs.Sums as spec;
ghost use Rattle.std.specs.List.{All};
ghost use Rattle.gv_sums.specs.Reading.{summands_at, summands_of, added_to, with_all, with_terms, unknowns_at, terms_in, sides_in};
ghost use Rattle.gv_sums.specs.Reading.{IsWithin, IsShort, AreShort, AllShort};

use crate::comparison::Compared;
use crate::summand::Summand;
use crate::summands::add_summands;
use gv_base::NoMemory;
use gv_known::{contains, same};
use gv_terms::{Head, Operator, Term, TermStore};
use std::alloc::Global;

/// The number of a literal.
pub(crate) fn number_in(store: &TermStore, term: Term) -> Option<u64>
    requires { term.id < length store.now }
    ensures { result ≡ spec.number_in (tree_at store.now term.id) }
{
    match store.head_of(term) {
        Head::Apply(Operator::Number(number)) => Some(*number),
        _ => None,
    }
}

/// The place of an unknown in their list, or their number where it is none of them.
pub(crate) fn place_in(store: &TermStore, unknowns: &[Term], term: Term) -> usize
    requires all { AreIn store.now unknowns.now }
    requires one { term.id < length store.now }
    ensures { result ≡ spec.place_in (trees_at store.now unknowns.now) (tree_at store.now term.id) }
{
    for i in 0..unknowns.len() {
        if same(store, unknowns[i], term) {
            return i;
        }
    }
    unknowns.len()
}

// Adds a term that is no literal and none of the unknowns.
fn add_unknown(store: &TermStore, unknowns: &mut Vec<Term>, term: Term) -> Result<(), NoMemory>
    requires all { AreIn store.now unknowns.old.items }
    requires one { term.id < length store.now }
    ensures within { IfOk result (λ _. AreIn store.now unknowns.new.items) }
    ensures added { IfOk result (λ _. trees_at store.now unknowns.new.items ≡ added_to store.now unknowns.old.items term) }
{
    if number_in(store, term).is_some() || contains(store, unknowns.as_slice(), term) {
        return Ok(());
    }
    unknowns.push(term)?;
    Ok(())
}

// Adds the unknowns among summands.
fn add_unknowns(
    store: &TermStore,
    unknowns: &mut Vec<Term>,
    summands: &[Summand],
) -> Result<(), NoMemory>
    requires all { AreIn store.now unknowns.old.items }
    requires summands { AreIn store.now (terms_in summands.now) }
    ensures within { IfOk result (λ _. AreIn store.now unknowns.new.items) }
    ensures added { IfOk result (λ _. trees_at store.now unknowns.new.items ≡ with_all store.now unknowns.old.items (summands_at store.now summands.now)) }
{
    for i in 0..summands.len() {
        add_unknown(store, unknowns, summands[i].term)?;
    }
    Ok(())
}

// What a term is the sum of, where that is fewer than 2^32 terms; more are want of memory.
fn summands_of(
    alloc: Global,
    store: &TermStore,
    sums: &[Term],
    term: Term,
) -> Result<Vec<Summand>, NoMemory>
    requires sums { AreIn store.now sums.now }
    requires whole { term.id < length store.now }
    ensures within { IfOk result (λ v. AreIn store.now (terms_in v.items)) }
    ensures told { IfOk result (λ v. summands_at store.now v.items ≡ summands_of store.now sums.now term) }
    ensures short { IfOk result (λ v. IsShort (summands_at store.now v.items)) }
{
    store.numbers_are_words();
    let mut summands = Vec::new(alloc);
    add_summands(store, sums, term, false, &mut summands)?;
    if summands.len() > u32::MAX as usize {
        return Err(NoMemory);
    }
    Ok(summands)
}

// Adds the unknowns of a term.
fn add_term(
    alloc: Global,
    store: &TermStore,
    sums: &[Term],
    unknowns: &mut Vec<Term>,
    term: Term,
) -> Result<(), NoMemory>
    requires sums { AreIn store.now sums.now }
    requires all { AreIn store.now unknowns.old.items }
    requires one { term.id < length store.now }
    ensures within { IfOk result (λ _. AreIn store.now unknowns.new.items) }
    ensures added { IfOk result (λ _. trees_at store.now unknowns.new.items ≡ with_all store.now unknowns.old.items (summands_of store.now sums.now term)) }
    ensures short { IfOk result (λ _. IsShort (summands_of store.now sums.now term)) }
{
    let summands = summands_of(alloc, store, sums, term)?;
    add_unknowns(store, unknowns, summands.as_slice())
}

// Adds the unknowns of terms, one after another.
fn add_terms(
    alloc: Global,
    store: &TermStore,
    sums: &[Term],
    unknowns: &mut Vec<Term>,
    terms: &[Term],
) -> Result<(), NoMemory>
    requires sums { AreIn store.now sums.now }
    requires all { AreIn store.now unknowns.old.items }
    requires terms { AreIn store.now terms.now }
    ensures within { IfOk result (λ _. AreIn store.now unknowns.new.items) }
    ensures added { IfOk result (λ _. trees_at store.now unknowns.new.items ≡ with_terms store.now sums.now unknowns.old.items terms.now) }
    ensures short { IfOk result (λ _. AreShort (trees_at store.now sums.now) (trees_at store.now terms.now)) }
{
    for i in 0..terms.len() {
        add_term(alloc, store, sums, unknowns, terms[i])?;
    }
    Ok(())
}

// The two sides of each comparison.
fn sides(alloc: Global, comparisons: &[Compared]) -> Result<Vec<Term>, NoMemory>
    ensures { IfOk result (λ v. v.items ≡ sides_in comparisons.now) }
{
    let mut terms = Vec::new(alloc);
    for i in 0..comparisons.len() {
        terms.push(comparisons[i].low)?;
        terms.push(comparisons[i].high)?;
    }
    Ok(terms)
}

/// The unknowns of listed sums and of comparisons: each term that is added or taken away, and is no literal, once, in the order
/// of their first use. None of the terms is the sum of 2^32 others or more; such a one is want of memory.
pub(crate) fn unknowns_of(
    alloc: Global,
    store: &TermStore,
    sums: &[Term],
    comparisons: &[Compared],
) -> Result<Vec<Term>, NoMemory>
    requires sums { AreIn store.now sums.now }
    requires comparisons { All (IsWithin store.now) comparisons.now }
    ensures within { IfOk result (λ v. AreIn store.now v.items) }
    ensures told { IfOk result (λ v. trees_at store.now v.items ≡ unknowns_at store.now sums.now comparisons.now) }
    ensures short { IfOk result (λ v. AllShort store.now sums.now comparisons.now) }
{
    let mut unknowns = Vec::new(alloc);
    add_terms(alloc, store, sums, &mut unknowns, sums)?;
    let others = sides(alloc, comparisons)?;
    add_terms(alloc, store, sums, &mut unknowns, others.as_slice())?;
    Ok(unknowns)
}
