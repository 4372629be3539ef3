//! Formulas made of terms.

ghost use Rattle.std.specs.Prelude.{◌≡◌, ◌<◌, length, Some, IfOk, IsSome};
ghost use Rattle.gv_terms.specs.Store.{tree_at, trees_at, AreIn, Grows};
ghost use Rattle.gv_terms.specs.Trees.{sort_of};
ghost use Rattle.gv_terms.specs.declared.sort.Sort.TheVariants as sort;
ghost use Rattle.gv_terms.specs.declared.tree.TermTree.TheVariants as tree;
ghost use Rattle.gv_certs.specs.Trees as spec;

use gv_base::{List, NoMemory};
use gv_terms::{Head, MakeFault, Node, Operator, Term, TermStore};
use std::alloc::Global;

// The term of an operator over terms, where it has a sort.
fn apply(
    alloc: Global,
    store: &mut TermStore,
    operator: Operator,
    parts: Vec<Term>,
) -> Result<Term, NoMemory>
    requires parts { AreIn store.old parts.items }
    requires sorted { IsSome (sort_of (tree.Apply operator (trees_at store.old parts.items))) }
    ensures within { IfOk result (λ t. t.id < length store.new) }
    ensures made { IfOk result (λ t. tree_at store.new t.id ≡ tree.Apply operator (trees_at store.old parts.items)) }
    ensures grows { Grows store.old store.new }
{
    let node = Node {
        head: Head::Apply(operator),
        parts: List::from_vec(parts),
    };
    match store.make(alloc, &node) {
        Ok(term) => Ok(term),
        Err(MakeFault::NoMemory) => Err(NoMemory),
        Err(MakeFault::WrongSort) => unreachable!(),
    }
}

/// The negation of a formula.
pub fn negation(alloc: Global, store: &mut TermStore, formula: Term) -> Result<Term, NoMemory>
    requires within { formula.id < length store.old }
    requires truth { sort_of (tree_at store.old formula.id) ≡ Some sort.Bool }
    ensures within { IfOk result (λ t. t.id < length store.new) }
    ensures made { IfOk result (λ t. tree_at store.new t.id ≡ spec.negation (tree_at store.old formula.id)) }
    ensures grows { Grows store.old store.new }
{
    let mut parts: Vec<Term> = Vec::new(alloc);
    parts.push(formula)?;
    apply(alloc, store, Operator::Not, parts)
}

/// The term of an operator over two terms, where it has a sort.
pub fn over_two(
    alloc: Global,
    store: &mut TermStore,
    operator: Operator,
    a: Term,
    b: Term,
) -> Result<Term, NoMemory>
    requires first { a.id < length store.old }
    requires second { b.id < length store.old }
    requires sorted { IsSome (sort_of (spec.over_two operator (tree_at store.old a.id) (tree_at store.old b.id))) }
    ensures within { IfOk result (λ t. t.id < length store.new) }
    ensures made { IfOk result (λ t. tree_at store.new t.id ≡ spec.over_two operator (tree_at store.old a.id) (tree_at store.old b.id)) }
    ensures grows { Grows store.old store.new }
{
    let mut parts: Vec<Term> = Vec::new(alloc);
    parts.push(a)?;
    parts.push(b)?;
    apply(alloc, store, operator, parts)
}

/// The equation of two terms of one sort.
pub(crate) fn equation(
    alloc: Global,
    store: &mut TermStore,
    a: Term,
    b: Term,
) -> Result<Term, NoMemory>
    requires first { a.id < length store.old }
    requires second { b.id < length store.old }
    requires alike { sort_of (tree_at store.old a.id) ≡ sort_of (tree_at store.old b.id) }
    ensures within { IfOk result (λ t. t.id < length store.new) }
    ensures made { IfOk result (λ t. tree_at store.new t.id ≡ spec.equation (tree_at store.old a.id) (tree_at store.old b.id)) }
    ensures grows { Grows store.old store.new }
{
    let _sort = store.sort_of(a);
    let mut parts: Vec<Term> = Vec::new(alloc);
    parts.push(a)?;
    parts.push(b)?;
    apply(alloc, store, Operator::Equal, parts)
}
