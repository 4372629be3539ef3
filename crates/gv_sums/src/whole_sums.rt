//! Listed terms that are sums and differences of whole numbers.

ghost use Rattle.std.specs.Prelude.{◌≡◌, ◌<◌, length, map, IfOk, IfErr, IsSome};
ghost use Rattle.gv_terms.specs.Store.{tree_at, trees_at, AreIn, Grows};
ghost use Rattle.gv_terms.specs.Trees.{sort_of};
ghost use Rattle.gv_certs.specs.Known.{is_known};
ghost use Rattle.gv_certs.specs.Sums as spec;
ghost use Rattle.gv_certs.specs.Proving.{AllHold};
ghost use Rattle.gv_sums.specs.Reading.{over_both};
ghost use Rattle.gv_side.specs.Telling.{IsFault};
ghost use Rattle.gv_sums.specs.Telling as telling;

use gv_base::NoMemory;
use gv_certs::{Cause, RuleFault};
use gv_known::{Facts, known, parts_under};
use gv_side::{ask, over_two};
use gv_terms::{Operator, Term, TermStore};
use std::alloc::Global;

// Whether an operator over two terms is known.
fn is_known_over(
    alloc: Global,
    store: &mut TermStore,
    facts: &Facts,
    operator: Operator,
    a: Term,
    b: Term,
) -> Result<bool, NoMemory>
    requires facts { AreIn store.old facts.now }
    requires first { a.id < length store.old }
    requires second { b.id < length store.old }
    requires sorted { IsSome (sort_of (over_both store.old operator a b)) }
    ensures told { IfOk result (λ k. k ≡ is_known (trees_at store.old facts.now) (over_both store.old operator a b)) }
    ensures grows { Grows store.old store.new }
{
    let formula = over_two(alloc, store, operator, a, b)?;
    known(alloc, store, facts, formula)
}

// Whether a term is `a + b` where `fits(a, b)` is known.
fn is_plus(
    alloc: Global,
    store: &mut TermStore,
    facts: &Facts,
    term: Term,
) -> Result<bool, NoMemory>
    requires facts { AreIn store.old facts.now }
    requires term { term.id < length store.old }
    ensures told { IfOk result (λ k. k ≡ telling.is_plus (trees_at store.old facts.now) (tree_at store.old term.id)) }
    ensures grows { Grows store.old store.new }
{
    let _sort = store.sort_of(term);
    match parts_under(store, Operator::Plus, term) {
        Some(parts) => is_known_over(
            alloc,
            store,
            facts,
            Operator::Fits,
            parts.first,
            parts.second,
        ),
        None => Ok(false),
    }
}

// Whether a term is `a - b` where `b <= a` is known.
fn is_minus(
    alloc: Global,
    store: &mut TermStore,
    facts: &Facts,
    term: Term,
) -> Result<bool, NoMemory>
    requires facts { AreIn store.old facts.now }
    requires term { term.id < length store.old }
    ensures told { IfOk result (λ k. k ≡ telling.is_minus (trees_at store.old facts.now) (tree_at store.old term.id)) }
    ensures grows { Grows store.old store.new }
{
    let _sort = store.sort_of(term);
    match parts_under(store, Operator::Minus, term) {
        Some(parts) => {
            is_known_over(
                alloc,
                store,
                facts,
                Operator::AtMost,
                parts.second,
                parts.first,
            )
        }
        None => Ok(false),
    }
}

// Whether a term is a sum or a difference of whole numbers.
fn is_sum(alloc: Global, store: &mut TermStore, facts: &Facts, term: Term) -> Result<bool, NoMemory>
    requires facts { AreIn store.old facts.now }
    requires term { term.id < length store.old }
    ensures told { IfOk result (λ k. k ≡ spec.is_sum (trees_at store.old facts.now) (tree_at store.old term.id)) }
    ensures grows { Grows store.old store.new }
{
    if is_plus(alloc, store, facts, term)? {
        return Ok(true);
    }
    is_minus(alloc, store, facts, term)
}

/// Each term is a sum or a difference of whole numbers, or `NotAPlus`.
pub(crate) fn ask_sums(
    alloc: Global,
    store: &mut TermStore,
    facts: &Facts,
    sums: &[Term],
) -> Result<(), RuleFault>
    requires facts { AreIn store.old facts.now }
    requires sums { AreIn store.old sums.now }
    ensures holds { IfOk result (λ _. AllHold (map (telling.is_sum_of (trees_at store.old facts.now)) (trees_at store.old sums.now))) }
    ensures cause { IfErr result (IsFault (map (telling.is_sum_of (trees_at store.old facts.now)) (trees_at store.old sums.now))) }
    ensures grows { Grows store.old store.new }
{
    for i in 0..sums.len() {
        ask(is_sum(alloc, store, facts, sums[i])?, Cause::NotAPlus)?;
    }
    Ok(())
}
