//! Instances of axioms.

ghost use Rattle.std.specs.Prelude.{◌≡◌, ◌<◌, None, Some, length, IfOk, IfErr};
ghost use Rattle.gv_terms.specs.Store.{tree_at, trees_at, AreIn, Grows};
ghost use Rattle.gv_axioms.specs.Instances.{instance_of, instance_trees, is_asked};
ghost use Rattle.gv_axioms.specs.Steps.{formula_by, asked_by};
ghost use Rattle.gv_axioms.specs.Truth.{Entails};
ghost use Rattle.gv_axioms.specs.declared.fault.AxiomFault.TheVariants as fault;

use crate::building::build;
use crate::fault::AxiomFault;
use crate::generated::table::{KINDS, PREMISES, STEPS};
use crate::numbered::row_numbered;
use crate::parts::{all_fit, sort_at};
use crate::row::{Premise, Span};
use crate::terms::Instance;
use gv_base::List;
use gv_terms::{Sort, Term, TermStore};
use std::alloc::Global;

// The formula that steps make over parts.
fn formula(
    alloc: Global,
    store: &mut TermStore,
    parts: &[Term],
    steps: Span,
) -> Result<Term, AxiomFault>
    requires { AreIn store.old parts.now }
    ensures within { IfOk result (λ t. t.id < length store.new) }
    ensures made { IfOk result (λ t. formula_by (trees_at store.old parts.now) steps ≡ Some (tree_at store.new t.id)) }
    ensures cause { IfErr result (λ e. e ≡ fault.BadAxiom → formula_by (trees_at store.old parts.now) steps ≡ None) }
    ensures grows { Grows store.old store.new }
{
    let term = build(alloc, store, parts, steps.of(&STEPS))?;
    if store.sort_of(term) == Sort::Bool {
        Ok(term)
    } else {
        Err(AxiomFault::BadAxiom)
    }
}

// Whether a premise is asked for of these parts.
fn asks(store: &TermStore, parts: &[Term], bytes: Option<u8>) -> bool
    requires { AreIn store.now parts.now }
    ensures { result ≡ is_asked (trees_at store.now parts.now) bytes }
{
    match bytes {
        Some(place) => sort_at(store, parts, place) == Some(Sort::Bytes),
        None => true,
    }
}

// The formulas of the premises that are asked for.
fn asked(
    alloc: Global,
    store: &mut TermStore,
    parts: &[Term],
    premises: &[Premise],
) -> Result<Vec<Term>, AxiomFault>
    requires { AreIn store.old parts.now }
    ensures within { IfOk result (λ v. AreIn store.new v.items) }
    ensures made { IfOk result (λ v. asked_by (trees_at store.old parts.now) premises.now ≡ Some (trees_at store.new v.items)) }
    ensures cause { IfErr result (λ e. e ≡ fault.BadAxiom → asked_by (trees_at store.old parts.now) premises.now ≡ None) }
    ensures grows { Grows store.old store.new }
{
    let mut terms: Vec<Term> = Vec::new(alloc);
    for i in 0..premises.len() {
        let premise = premises[i];
        if asks(store, parts, premise.bytes) {
            let term = formula(alloc, store, parts, premise.steps)?;
            terms.push(term)?;
        }
    }
    Ok(terms)
}

/// The instance of the axiom with a number over parts, whose order is that of the table. `BadAxiom` exactly where there is
/// none: no axiom has the number, or it wants another count of parts, other sorts or another form. The store only grows, also
/// where there is no instance. Whatever the parts are, an instance is true: under every valuation that meets its premises its
/// conclusion is met. This project's own.
pub fn instance(
    alloc: Global,
    store: &mut TermStore,
    number: u32,
    parts: &[Term],
) -> Result<Instance, AxiomFault>
    requires { AreIn store.old parts.now }
    ensures within { IfOk result (λ i. AreIn store.new i.premises × (i.conclusion.id < length store.new)) }
    ensures exact { IfOk result (λ i. instance_of number (trees_at store.old parts.now) ≡ Some (instance_trees store.new i)) }
    ensures cause { IfErr result (λ e. e ≡ fault.BadAxiom → instance_of number (trees_at store.old parts.now) ≡ None) }
    ensures truth { IfOk result (λ i. Entails (trees_at store.new i.premises) (tree_at store.new i.conclusion.id)) }
    ensures grows { Grows store.old store.new }
{
    let Some(row) = row_numbered(number) else {
        return Err(AxiomFault::BadAxiom);
    };
    if !all_fit(store, parts, row.kinds.of(&KINDS)) {
        return Err(AxiomFault::BadAxiom);
    }
    store.numbers_are_words();
    let premises = asked(alloc, store, parts, row.premises.of(&PREMISES))?;
    let conclusion = formula(alloc, store, parts, row.conclusion)?;
    Ok(Instance {
        premises: List::from_vec(premises),
        conclusion,
    })
}
