//! Known formulas.

ghost use Rattle.std.specs.Prelude.{◌≡◌, ◌<◌, true, length, IsTrue, IfOk};
ghost use Rattle.gv_terms.specs.Store.{tree_at, trees_at, AreIn};
ghost use Rattle.gv_certs.specs.Known.{is_known};

use crate::facts::{contains, is_reflexive, is_turned};
use crate::indexed::Facts;
use crate::parts::parts_under;
use crate::plain::computes;
use gv_base::NoMemory;
use gv_terms::{Operator, Term, TermStore};
use std::alloc::Global;

// Whether the keys of facts lead to a formula, or to it turned round.
fn finds(store: &TermStore, facts: &Facts, formula: Term) -> bool
    requires facts { AreIn store.now facts.now }
    requires formula { formula.id < length store.now }
    ensures { IsTrue result → is_known (trees_at store.now facts.now) (tree_at store.now formula.id) ≡ true }
{
    if facts.finds(store, formula) {
        return true;
    }
    match parts_under(store, Operator::Equal, formula) {
        Some(parts) => facts.finds_equation(store, parts.second, parts.first),
        None => false,
    }
}

/// Whether a formula is known from facts: it is one of them, an equation that is one of them the other way round, `t == t`, or
/// has no variable, is over words and truth values alone, and is true. Where the keys of the facts don't lead to it, and it isn't
/// known from nothing, each fact is looked at, and the trees are compared; two that differ at the root cost one step. This project's
/// own.
pub fn known(
    alloc: Global,
    store: &TermStore,
    facts: &Facts,
    formula: Term,
) -> Result<bool, NoMemory>
    requires facts { AreIn store.now facts.now }
    requires formula { formula.id < length store.now }
    ensures { IfOk result (λ k. k ≡ is_known (trees_at store.now facts.now) (tree_at store.now formula.id)) }
{
    if finds(store, facts, formula)
        || is_reflexive(store, formula)
        || computes(alloc, store, formula)?
    {
        return Ok(true);
    }
    let all = facts.as_slice();
    Ok(contains(store, all, formula) || is_turned(store, all, formula))
}
