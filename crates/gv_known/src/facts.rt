//! Facts, and equations among them.

ghost use Rattle.std.specs.Prelude.{◌≡◌, ◌<◌, length};
ghost use Rattle.gv_terms.specs.Store.{tree_at, trees_at, AreIn};
ghost use Rattle.gv_certs.specs.Trees as spec;
ghost use Rattle.gv_certs.specs.Known as known;

use crate::comparing::same;
use crate::parts::parts_under;
use gv_terms::{Operator, Term, TermStore};

/// Whether a term is among the facts.
#[tactic(auto, using(crate::proofs::Trees::found_here, crate::proofs::Trees::not_here, crate::proofs::Trees::none_left))]
pub fn contains(store: &TermStore, facts: &[Term], term: Term) -> bool
    requires all { AreIn store.now facts.now }
    requires one { term.id < length store.now }
    ensures { result ≡ spec.contains (trees_at store.now facts.now) (tree_at store.now term.id) }
{
    for i in 0..facts.len() {
        if same(store, facts[i], term) {
            return true;
        }
    }
    false
}

/// Whether a term is the equation of two.
pub(crate) fn is_equation(store: &TermStore, term: Term, a: Term, b: Term) -> bool
    requires whole { term.id < length store.now }
    requires first { a.id < length store.now }
    requires second { b.id < length store.now }
    ensures { result ≡ spec.tree_eq (tree_at store.now term.id) (spec.equation (tree_at store.now a.id) (tree_at store.now b.id)) }
{
    match parts_under(store, Operator::Equal, term) {
        Some(parts) => same(store, parts.first, a) && same(store, parts.second, b),
        None => false,
    }
}

/// Whether the equation of two terms is among the facts.
#[tactic(auto, using(crate::proofs::Trees::found_here, crate::proofs::Trees::not_here, crate::proofs::Trees::none_left))]
pub(crate) fn contains_equation(store: &TermStore, facts: &[Term], a: Term, b: Term) -> bool
    requires all { AreIn store.now facts.now }
    requires first { a.id < length store.now }
    requires second { b.id < length store.now }
    ensures { result ≡ spec.contains (trees_at store.now facts.now) (spec.equation (tree_at store.now a.id) (tree_at store.now b.id)) }
{
    for i in 0..facts.len() {
        if is_equation(store, facts[i], a, b) {
            return true;
        }
    }
    false
}

/// Whether a term is an equation that is a fact the other way round.
pub(crate) fn is_turned(store: &TermStore, facts: &[Term], term: Term) -> bool
    requires all { AreIn store.now facts.now }
    requires one { term.id < length store.now }
    ensures { result ≡ known.is_turned (trees_at store.now facts.now) (tree_at store.now term.id) }
{
    match parts_under(store, Operator::Equal, term) {
        Some(parts) => contains_equation(store, facts, parts.second, parts.first),
        None => false,
    }
}

/// Whether a term is `t == t`.
pub fn is_reflexive(store: &TermStore, term: Term) -> bool
    requires { term.id < length store.now }
    ensures { result ≡ known.is_reflexive (tree_at store.now term.id) }
{
    match parts_under(store, Operator::Equal, term) {
        Some(parts) => same(store, parts.first, parts.second),
        None => false,
    }
}
