//! Comparisons of two words.

ghost use Rattle.std.specs.Prelude.{◌≡◌, ◌<◌, length, IfSome, option_map};
ghost use Rattle.gv_terms.specs.Store.{tree_at};
ghost use Rattle.gv_terms.specs.Trees.{sort_of};
ghost use Rattle.gv_terms.specs.Values.{is_sort};
ghost use Rattle.gv_terms.specs.declared.sort.Sort.TheVariants as sort;
ghost use Rattle.gv_certs.specs.Sums as spec;
ghost use Rattle.gv_sums.specs.Reading.{comparison_at, equality_of, denied_of, IsWithin};

use gv_known::{Pair, parts_under};
use gv_terms::{Operator, Sort, Term, TermStore};

/// A comparison of two words: the higher one less the lower one is 0 where `same`, at least 1 where `strict`, else at least 0.
#[derive(Clone, Copy, Debug, PartialEq, Eq)]
pub(crate) struct Compared {
    pub same: bool,
    pub strict: bool,
    pub low: Term,
    pub high: Term,
}

impl Compared {
    /// What is so where an order is not.
    pub fn denied(self) -> Compared
        ensures { result ≡ denied_of self }
    {
        Compared {
            same: false,
            strict: !self.strict,
            low: self.high,
            high: self.low,
        }
    }
}

// The comparison of two parts.
fn of_parts(same: bool, strict: bool, parts: Pair) -> Compared
    ensures { result ≡ record { same = same; strict = strict; low = parts.first; high = parts.second } }
{
    Compared {
        same,
        strict,
        low: parts.first,
        high: parts.second,
    }
}

/// The comparison that a formula is, where it is `a < b` or `a <= b`.
pub(crate) fn order_of(store: &TermStore, formula: Term) -> Option<Compared>
    requires { formula.id < length store.now }
    ensures within { IfSome result (IsWithin store.now) }
    ensures told { option_map (comparison_at store.now) result ≡ spec.order_of (tree_at store.now formula.id) }
{
    if let Some(parts) = parts_under(store, Operator::Less, formula) {
        return Some(of_parts(false, true, parts));
    }
    match parts_under(store, Operator::AtMost, formula) {
        Some(parts) => Some(of_parts(false, false, parts)),
        None => None,
    }
}

// Whether a term is a word.
fn is_word(store: &TermStore, term: Term) -> bool
    requires { term.id < length store.now }
    ensures { result ≡ is_sort sort.Word (sort_of (tree_at store.now term.id)) }
{
    store.sort_of(term) == Sort::Word
}

// The comparison that a formula is, where it is `a == b` over words.
fn equality_of(store: &TermStore, formula: Term) -> Option<Compared>
    requires { formula.id < length store.now }
    ensures within { IfSome result (IsWithin store.now) }
    ensures told { option_map (comparison_at store.now) result ≡ equality_of (tree_at store.now formula.id) }
{
    match parts_under(store, Operator::Equal, formula) {
        Some(parts) if is_word(store, parts.first) => { Some(of_parts(true, false, parts)) }
        _ => None,
    }
}

/// The comparison that a formula is, where it is one of these, or `a == b` over words.
pub(crate) fn comparison_of(store: &TermStore, formula: Term) -> Option<Compared>
    requires { formula.id < length store.now }
    ensures within { IfSome result (IsWithin store.now) }
    ensures told { option_map (comparison_at store.now) result ≡ spec.comparison_of (tree_at store.now formula.id) }
{
    match order_of(store, formula) {
        Some(order) => Some(order),
        None => equality_of(store, formula),
    }
}
