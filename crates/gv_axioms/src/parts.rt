//! The parts that an axiom is given: their sorts and forms.

ghost use Rattle.std.specs.Prelude.{◌≡◌, ◌<◌, ℕ, true, length, slice_index_or, IfSome, IsSome, Some, option_map};
ghost use Rattle.gv_terms.specs.Store.{tree_at, trees_at, AreIn};
ghost use Rattle.gv_terms.specs.Trees.{sort_of, branches_of};
ghost use Rattle.gv_axioms.specs.Filling as spec;
ghost use Rattle.gv_axioms.specs.Instances.{no_term};

use crate::kind::Kind;
use gv_terms::{Head, Operator, Sort, Term, TermStore};

/// What a maker copies, and how often.
#[derive(Clone, Copy, Debug)]
pub(crate) struct Copies {
    pub count: u64,
    pub item: Term,
}

// How many copies a maker makes.
fn copies_of(head: &Head) -> Option<u64>
    ensures { result ≡ spec.copies_of head.now }
{
    match head {
        Head::Apply(
            Operator::Bytes(k) | Operator::Words(k) | Operator::Refs(k) | Operator::Blocks(k),
        ) => Some(*k),
        _ => None,
    }
}

// The one term of a list of one.
fn only(terms: &[Term]) -> Option<Term>
    ensures { result ≡ spec.only terms.now }
{
    match terms {
        [term] => Some(*term),
        _ => None,
    }
}

/// What a maker is over.
pub(crate) fn copies_made(store: &TermStore, part: Term) -> Option<Copies>
    requires { part.id < length store.now }
    ensures within { IfSome result (λ m. m.item.id < length store.now) }
    ensures made { option_map (λ m. (m.count, tree_at store.now m.item.id)) result ≡ spec.made (tree_at store.now part.id) }
{
    let Some(count) = copies_of(store.head_of(part)) else {
        return None;
    };
    let Some(item) = only(store.parts_of(part)) else {
        return None;
    };
    Some(Copies { count, item })
}

// Whether a head is the number 0.
fn is_number_zero(head: &Head) -> bool
    ensures { result ≡ spec.is_number_zero head.now }
{
    match head {
        Head::Apply(Operator::Number(n)) => *n == 0,
        _ => false,
    }
}

// Whether the one part of a term is the number 0.
fn is_over_zero(store: &TermStore, part: Term) -> bool
    requires { part.id < length store.now }
    ensures { result ≡ spec.is_number_zero_term (spec.only (branches_of (tree_at store.now part.id))) }
{
    match only(store.parts_of(part)) {
        Some(item) => is_number_zero(store.head_of(item)),
        None => false,
    }
}

// Whether a term is the zero of what makers copy.
fn is_zero(store: &TermStore, part: Term) -> bool
    requires { part.id < length store.now }
    ensures { result ≡ spec.is_zero_term (tree_at store.now part.id) }
{
    match store.head_of(part) {
        Head::Apply(Operator::Number(n)) => *n == 0,
        Head::Apply(Operator::Nil) => true,
        Head::Apply(Operator::Bytes(k)) => *k == 0 && is_over_zero(store, part),
        _ => false,
    }
}

fn is_empty_map(head: &Head) -> bool
    ensures { result ≡ spec.is_empty_map head.now }
{
    matches!(head, Head::Apply(Operator::MapWW | Operator::MapWB))
}

/// The sort of what a list or a map of a sort holds.
pub(crate) fn held(sort: Sort) -> Option<Sort>
    ensures { result ≡ spec.held sort }
{
    match sort {
        Sort::MapWW | Sort::MapWB => sort.entry(),
        _ => sort.item(),
    }
}

/// The sort of the part at a place.
pub(crate) fn sort_at(store: &TermStore, parts: &[Term], place: u8) -> Option<Sort>
    requires { AreIn store.now parts.now }
    ensures { result ≡ spec.sort_at (trees_at store.now parts.now) place }
{
    match parts.get(usize::from(place)) {
        Some(part) => Some(store.sort_of(*part)),
        None => None,
    }
}

/// The sort of what the list or map at a place holds.
pub(crate) fn held_at(store: &TermStore, parts: &[Term], place: u8) -> Option<Sort>
    requires { AreIn store.now parts.now }
    ensures { result ≡ spec.with_some (spec.sort_at (trees_at store.now parts.now) place) spec.held }
{
    match sort_at(store, parts, place) {
        Some(sort) => held(sort),
        None => None,
    }
}

// Whether there is a sort, and it is this one.
fn is_just(wanted: Option<Sort>, sort: Sort) -> bool
    ensures { result ≡ spec.is_just wanted (Some sort) }
{
    match wanted {
        Some(wanted) => wanted == sort,
        None => false,
    }
}

// Whether a maker is over a zero.
fn is_made_of_zero(store: &TermStore, part: Term) -> bool
    requires { part.id < length store.now }
    ensures { result ≡ spec.is_made_of_zero (spec.made (tree_at store.now part.id)) }
{
    match copies_made(store, part) {
        Some(copies) => is_zero(store, copies.item),
        None => false,
    }
}

// Whether a part is what its kind says.
fn fits(store: &TermStore, parts: &[Term], part: Term, kind: Kind) -> bool
    requires all { AreIn store.now parts.now }
    requires one { part.id < length store.now }
    ensures value { result ≡ spec.fits (trees_at store.now parts.now) (tree_at store.now part.id) kind }
    ensures sorted { IsSome (sort_of (tree_at store.now part.id)) }
{
    let sort = store.sort_of(part);
    match kind {
        Kind::Of(wanted) => sort == wanted,
        Kind::Anything => true,
        Kind::List => sort.item().is_some(),
        Kind::Map => sort.entry().is_some(),
        Kind::Held(place) => is_just(held_at(store, parts, place), sort),
        Kind::Like(place) => is_just(sort_at(store, parts, place), sort),
        Kind::Maker => copies_made(store, part).is_some(),
        Kind::ZeroMaker => is_made_of_zero(store, part),
        Kind::EmptyMap => is_empty_map(store.head_of(part)),
    }
}

/// Whether there are as many parts as kinds, each what its kind says.
pub(crate) fn all_fit(store: &TermStore, parts: &[Term], kinds: &[Kind]) -> bool
    requires { AreIn store.now parts.now }
    ensures value { result ≡ spec.all_fit (trees_at store.now parts.now) (trees_at store.now parts.now) kinds.now }
    ensures sorted { result ≡ true → (k : ℕ) → k < length parts.now → IsSome (sort_of (tree_at store.now (slice_index_or parts.now k no_term).id)) }
{
    if parts.len() != kinds.len() {
        return false;
    }
    for i in 0..parts.len() {
        if !fits(store, parts, parts[i], kinds[i]) {
            return false;
        }
    }
    true
}
