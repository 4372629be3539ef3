//! The two parts of a term under an operator.

ghost use Rattle.std.specs.Prelude.{◌≡◌, ◌<◌, length, IfSome, option_map};
ghost use Rattle.gv_terms.specs.Store.{tree_at, trees_at, AreIn};
ghost use Rattle.gv_terms.specs.Trees.{root_of, branches_of};
ghost use Rattle.gv_certs.specs.Trees as spec;
ghost use Rattle.gv_known.specs.Parts.{parts_at};

use gv_terms::{Head, Operator, Term, TermStore};

/// Two terms in order.
#[derive(Clone, Copy, Debug, PartialEq, Eq)]
pub struct Pair {
    pub first: Term,
    pub second: Term,
}

// Whether a head is this operator.
#[tactic(auto, using(crate::proofs::Trees::same_operator_test))]
fn is_apply(operator: Operator, head: &Head) -> bool
    ensures { result ≡ spec.is_apply operator head.now }
{
    match head {
        Head::Variable { .. } => false,
        Head::Apply(other) => operator.same(*other),
    }
}

// The two of a list of two.
fn two(terms: &[Term]) -> Option<Pair>
    ensures { option_map (λ p. (p.first, p.second)) result ≡ spec.two terms.now }
{
    match terms {
        [first, second] => Some(Pair {
            first: *first,
            second: *second,
        }),
        _ => None,
    }
}

/// The two parts of a term, where it is this operator over two.
pub fn parts_under(store: &TermStore, operator: Operator, term: Term) -> Option<Pair>
    requires { term.id < length store.now }
    ensures within { IfSome result (λ p. (p.first.id < length store.now) × (p.second.id < length store.now)) }
    ensures earlier { IfSome result (λ p. (p.first.id < term.id) × (p.second.id < term.id)) }
    ensures parts { option_map (parts_at store.now) result ≡ spec.parts_under operator (tree_at store.now term.id) }
{
    if is_apply(operator, store.head_of(term)) {
        two(store.parts_of(term))
    } else {
        None
    }
}
