//! The terms that steps make over parts.

ghost use Rattle.std.specs.Prelude.{◌≡◌, ◌<◌, ◌-◌, drop, None, Some, length, slice_get, option_map, IfOk, IfErr, IfSome};
ghost use Rattle.gv_terms.specs.Store.{tree_at, trees_at, AreIn, Grows};
ghost use Rattle.gv_terms.specs.declared.tree.TermTree.TheVariants as tree;
ghost use Rattle.gv_axioms.specs.Filling as spec;
ghost use Rattle.gv_axioms.specs.Steps.{step_tree, taken, made_by};
ghost use Rattle.gv_axioms.specs.declared.fault.AxiomFault.TheVariants as fault;

use crate::fault::AxiomFault;
use crate::parts::{Copies, copies_made, held_at};
use crate::step::Step;
use gv_base::{List, NoMemory};
use gv_terms::{Head, MakeFault, Node, Operator, Sort, Term, TermStore};
use std::alloc::Global;

// The term of an operator over terms.
fn apply(
    alloc: Global,
    store: &mut TermStore,
    operator: Operator,
    parts: Vec<Term>,
) -> Result<Term, AxiomFault>
    requires { AreIn store.old parts.items }
    ensures within { IfOk result (λ t. t.id < length store.new) }
    ensures made { IfOk result (λ t. spec.sorted (tree.Apply operator (trees_at store.old parts.items)) ≡ Some (tree_at store.new t.id)) }
    ensures cause { IfErr result (λ e. e ≡ fault.BadAxiom → spec.sorted (tree.Apply operator (trees_at store.old parts.items)) ≡ None) }
    ensures grows { Grows store.old store.new }
{
    let node = Node {
        head: Head::Apply(operator),
        parts: List::from_vec(parts),
    };
    match store.make(alloc, &node) {
        Ok(term) => Ok(term),
        Err(MakeFault::NoMemory) => Err(AxiomFault::NoMemory),
        Err(MakeFault::WrongSort) => Err(AxiomFault::BadAxiom),
    }
}

// What the maker at a place is over.
fn copies_at(store: &TermStore, parts: &[Term], place: u8) -> Option<Copies>
    requires { AreIn store.now parts.now }
    ensures within { IfSome result (λ m. m.item.id < length store.now) }
    ensures made { option_map (λ m. (m.count, tree_at store.now m.item.id)) result ≡ spec.with_some (slice_get (trees_at store.now parts.now) place) spec.made }
{
    match parts.get(usize::from(place)) {
        Some(part) => copies_made(store, *part),
        None => None,
    }
}

// The zero of a sort that lists and maps hold.
fn zero_term(alloc: Global, store: &mut TermStore, sort: Sort) -> Result<Term, AxiomFault>
    ensures within { IfOk result (λ t. t.id < length store.new) }
    ensures made { IfOk result (λ t. spec.zero_term sort ≡ Some (tree_at store.new t.id)) }
    ensures cause { IfErr result (λ e. e ≡ fault.BadAxiom → spec.zero_term sort ≡ None) }
    ensures grows { Grows store.old store.new }
{
    match sort {
        Sort::Word => apply(alloc, store, Operator::Number(0), Vec::new(alloc)),
        Sort::Ref => apply(alloc, store, Operator::Nil, Vec::new(alloc)),
        Sort::Bytes => {
            let item = apply(alloc, store, Operator::Number(0), Vec::new(alloc))?;
            let mut items = Vec::new(alloc);
            items.push(item)?;
            apply(alloc, store, Operator::Bytes(0), items)
        }
        _ => Err(AxiomFault::BadAxiom),
    }
}

// The last terms, as many as are counted.
fn last_terms(alloc: Global, stack: &[Term], count: u8) -> Result<Vec<Term>, NoMemory>
    ensures { IfOk result (λ v. v.items ≡ drop (length stack.now - count) stack.now) }
{
    let from = stack.len().saturating_sub(usize::from(count));
    Ok(Vec::from_slice(alloc, &stack[from..])?)
}

// The term that a step makes over parts and the terms made so far.
fn term_of(
    alloc: Global,
    store: &mut TermStore,
    parts: &[Term],
    step: Step,
    stack: &[Term],
) -> Result<Term, AxiomFault>
    requires parts { AreIn store.old parts.now }
    requires stack { AreIn store.old stack.now }
    ensures within { IfOk result (λ t. t.id < length store.new) }
    ensures made { IfOk result (λ t. step_tree (trees_at store.old parts.now) step (trees_at store.old stack.now) ≡ Some (tree_at store.new t.id)) }
    ensures cause { IfErr result (λ e. e ≡ fault.BadAxiom → step_tree (trees_at store.old parts.now) step (trees_at store.old stack.now) ≡ None) }
    ensures grows { Grows store.old store.new }
{
    match step {
        Step::Part(place) => match parts.get(usize::from(place)) {
            Some(part) => Ok(*part),
            None => Err(AxiomFault::BadAxiom),
        },
        Step::Literal(place) => match copies_at(store, parts, place) {
            Some(copies) => apply(
                alloc,
                store,
                Operator::Number(copies.count),
                Vec::new(alloc),
            ),
            None => Err(AxiomFault::BadAxiom),
        },
        Step::Copied(place) => match copies_at(store, parts, place) {
            Some(copies) => Ok(copies.item),
            None => Err(AxiomFault::BadAxiom),
        },
        Step::Zero(place) => match held_at(store, parts, place) {
            Some(sort) => zero_term(alloc, store, sort),
            None => Err(AxiomFault::BadAxiom),
        },
        Step::Apply(operator, count) => {
            let operands = last_terms(alloc, stack, count)?;
            apply(alloc, store, operator, operands)
        }
    }
}

impl Step {
    // How many of the last terms it takes.
    fn taken(self) -> u8
        ensures { result ≡ taken self }
    {
        match self {
            Step::Apply(_, count) => count,
            _ => 0,
        }
    }
}

/// The term that steps make over parts: the last one.
pub(crate) fn build(
    alloc: Global,
    store: &mut TermStore,
    parts: &[Term],
    steps: &[Step],
) -> Result<Term, AxiomFault>
    requires { AreIn store.old parts.now }
    ensures within { IfOk result (λ t. t.id < length store.new) }
    ensures made { IfOk result (λ t. made_by (trees_at store.old parts.now) steps.now ≡ Some (tree_at store.new t.id)) }
    ensures cause { IfErr result (λ e. e ≡ fault.BadAxiom → made_by (trees_at store.old parts.now) steps.now ≡ None) }
    ensures grows { Grows store.old store.new }
{
    let mut stack: Vec<Term> = Vec::new(alloc);
    for i in 0..steps.len() {
        let step = steps[i];
        let term = term_of(alloc, store, parts, step, stack.as_slice())?;
        let kept = stack.len().saturating_sub(usize::from(step.taken()));
        stack.truncate(kept);
        stack.push(term)?;
    }
    match stack.last() {
        Some(term) => Ok(*term),
        None => Err(AxiomFault::BadAxiom),
    }
}
