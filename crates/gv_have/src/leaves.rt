//! Certificates that need no other one, as they were read.

ghost use Rattle.std.specs.Prelude.{◌≡◌, ◌<◌, ◌∷◌, [], length, Some, IfOk, IfErr};
ghost use Rattle.gv_terms.specs.Store.{tree_at, trees_at, AreIn, Grows};
ghost use Rattle.gv_certs.specs.Proving as proving;
ghost use Rattle.gv_have.specs.Scoping as spec;
ghost use Rattle.gv_have.specs.Telling.{IsProof, IsNoProof, IsProofAt, IsNoProofAt};

use crate::terms::{all_terms, formula, rows, sides};
use gv_certs::{Cause, Factored, RuleFault};
use gv_known::{Facts, computes};
use gv_side::{ask, ask_known, by_axiom, contra, subst, subst_in};
use gv_sums::linear;
use gv_terms::{RawTerm, Scope, Term, TermStore};
use std::alloc::Global;

/// The goal is known.
pub(crate) fn by_known(
    alloc: Global,
    store: &TermStore,
    facts: &Facts,
    goal: Term,
) -> Result<(), RuleFault>
    requires facts { AreIn store.now facts.now }
    requires goal { goal.id < length store.now }
    ensures holds { IfOk result (λ _. IsProof (Some (proving.by proving.known)) (trees_at store.now facts.now) (tree_at store.now goal.id)) }
    ensures cause { IfErr result (IsNoProof (Some (proving.by proving.known)) (trees_at store.now facts.now) (tree_at store.now goal.id)) }
{
    ask_known(alloc, store, facts, goal)
}

/// The goal has no variable, is over words and truth values alone, and is true.
pub(crate) fn by_computing(
    alloc: Global,
    store: &TermStore,
    facts: &Facts,
    goal: Term,
) -> Result<(), RuleFault>
    requires goal { goal.id < length store.now }
    ensures holds { IfOk result (λ _. IsProof (Some (proving.by proving.compute)) (trees_at store.now facts.now) (tree_at store.now goal.id)) }
    ensures cause { IfErr result (IsNoProof (Some (proving.by proving.compute)) (trees_at store.now facts.now) (tree_at store.now goal.id)) }
{
    ask(computes(alloc, store, goal)?, Cause::NotKnown)
}

/// The goal is what an axiom gives.
pub(crate) fn by_instance(
    alloc: Global,
    store: &mut TermStore,
    scope: &Scope,
    facts: &Facts,
    goal: Term,
    number: u32,
    parts: &[RawTerm],
) -> Result<(), RuleFault>
    requires facts { AreIn store.old facts.now }
    requires goal { goal.id < length store.old }
    ensures holds { IfOk result (λ _. IsProof (spec.axiom_in scope.now number parts.now) (trees_at store.old facts.now) (tree_at store.old goal.id)) }
    ensures cause { IfErr result (IsNoProof (spec.axiom_in scope.now number parts.now) (trees_at store.old facts.now) (tree_at store.old goal.id)) }
    ensures grows { Grows store.old store.new }
{
    let parts = all_terms(alloc, store, scope, parts)?;
    by_axiom(alloc, store, facts, goal, number, parts.as_slice())
}

/// The goal is a formula, once a term has become an equal one in both.
pub(crate) fn by_equals_in(
    alloc: Global,
    store: &mut TermStore,
    scope: &Scope,
    facts: &Facts,
    goal: Term,
    from: &RawTerm,
    to: &RawTerm,
    within: &RawTerm,
) -> Result<(), RuleFault>
    requires facts { AreIn store.old facts.now }
    requires goal { goal.id < length store.old }
    ensures holds { IfOk result (λ _. IsProofAt (spec.equals_in scope.now from.now to.now within.now) store.old facts.now goal) }
    ensures cause { IfErr result (IsNoProofAt (spec.equals_in scope.now from.now to.now within.now) store.old facts.now goal) }
    ensures grows { Grows store.old store.new }
{
    let pair = sides(alloc, store, scope, from, to)?;
    let within = formula(alloc, store, scope, within)?;
    subst_in(alloc, store, facts, goal, pair.first, pair.second, within)
}

/// The goal becomes `t == t`, once a term has become an equal one.
pub(crate) fn by_equals(
    alloc: Global,
    store: &mut TermStore,
    scope: &Scope,
    facts: &Facts,
    goal: Term,
    from: &RawTerm,
    to: &RawTerm,
) -> Result<(), RuleFault>
    requires facts { AreIn store.old facts.now }
    requires goal { goal.id < length store.old }
    ensures holds { IfOk result (λ _. IsProof (spec.equals scope.now from.now to.now) (trees_at store.old facts.now) (tree_at store.old goal.id)) }
    ensures cause { IfErr result (IsNoProof (spec.equals scope.now from.now to.now) (trees_at store.old facts.now) (tree_at store.old goal.id)) }
    ensures grows { Grows store.old store.new }
{
    let pair = sides(alloc, store, scope, from, to)?;
    subst(alloc, store, facts, goal, pair.first, pair.second)
}

/// A formula and its negation are known.
pub(crate) fn by_opposites(
    alloc: Global,
    store: &mut TermStore,
    scope: &Scope,
    facts: &Facts,
    goal: Term,
    opposite: &RawTerm,
) -> Result<(), RuleFault>
    requires facts { AreIn store.old facts.now }
    requires goal { goal.id < length store.old }
    ensures holds { IfOk result (λ _. IsProof (spec.opposites scope.now opposite.now) (trees_at store.old facts.now) (tree_at store.old goal.id)) }
    ensures cause { IfErr result (IsNoProof (spec.opposites scope.now opposite.now) (trees_at store.old facts.now) (tree_at store.old goal.id)) }
    ensures grows { Grows store.old store.new }
{
    let opposite = formula(alloc, store, scope, opposite)?;
    contra(alloc, store, facts, opposite)
}

/// The goal follows from rows of whole numbers.
pub(crate) fn by_rows(
    alloc: Global,
    store: &mut TermStore,
    scope: &Scope,
    facts: &Facts,
    goal: Term,
    sums: &[RawTerm],
    factored: &[Factored],
) -> Result<(), RuleFault>
    requires facts { AreIn store.old facts.now }
    requires goal { goal.id < length store.old }
    ensures holds { IfOk result (λ _. IsProof (spec.sum_in scope.now sums.now factored.now) (trees_at store.old facts.now) (tree_at store.old goal.id)) }
    ensures cause { IfErr result (IsNoProof (spec.sum_in scope.now sums.now factored.now) (trees_at store.old facts.now) (tree_at store.old goal.id)) }
    ensures grows { Grows store.old store.new }
{
    let sums = all_terms(alloc, store, scope, sums)?;
    let factored = rows(alloc, store, scope, factored)?;
    linear(
        alloc,
        store,
        facts,
        goal,
        sums.as_slice(),
        factored.as_slice(),
    )
}
