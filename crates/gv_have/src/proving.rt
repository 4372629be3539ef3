//! Certificates of all forms, as they were read.

ghost use Rattle.std.specs.Prelude.{◌≡◌, ◌<◌, length, take, Some, IfOk, IfErr};
ghost use Rattle.gv_terms.specs.Store.{tree_at, trees_at, AreIn, Grows};
ghost use Rattle.gv_have.specs.Scoping.{certificate_of};
ghost use Rattle.gv_have.specs.Telling.{IsProof, IsNoProof};

use crate::leaves::{
    by_computing, by_equals, by_equals_in, by_instance, by_known, by_opposites, by_rows,
};
use crate::terms::formula;
use gv_certs::{Cert, RuleFault};
use gv_known::Facts;
use gv_side::negation;
use gv_terms::{Scope, Term, TermStore};
use std::alloc::Global;

// Takes away the facts behind the first ones, which are terms of the store.
fn cut_to(_store: &TermStore, facts: &mut Facts, known: usize)
    requires { AreIn _store.now (take known facts.old) }
    ensures within { AreIn _store.now facts.new }
    ensures kept { facts.new ≡ take known facts.old }
{
    facts.truncate(known);
}

/// The certificate proves the goal from the facts, or the cause of its first premise that fails. Facts that it adds come behind
/// those that are there. It recurses as deep as certificates stand in one another.
#[tactic(auto, using(crate::proofs::Forms::forms))]
pub(crate) fn prove(
    alloc: Global,
    store: &mut TermStore,
    scope: &Scope,
    facts: &mut Facts,
    goal: Term,
    cert: &Cert,
) -> Result<(), RuleFault>
    requires facts { AreIn store.old facts.old }
    requires goal { goal.id < length store.old }
    ensures holds { IfOk result (λ _. IsProof (certificate_of scope.now cert.now) (trees_at store.old facts.old) (tree_at store.old goal.id)) }
    ensures cause { IfErr result (IsNoProof (certificate_of scope.now cert.now) (trees_at store.old facts.old) (tree_at store.old goal.id)) }
    ensures kept { take (length facts.old) facts.new ≡ facts.old }
    ensures grows { Grows store.old store.new }
{
    match cert {
        Cert::Known => by_known(alloc, store, facts, goal),
        Cert::Compute => by_computing(alloc, store, facts, goal),
        Cert::Axiom { number, parts } => {
            let parts = parts.as_slice();
            by_instance(alloc, store, scope, facts, goal, *number, parts)
        }
        Cert::SubstIn { from, to, within } => {
            by_equals_in(alloc, store, scope, facts, goal, from, to, within)
        }
        Cert::Subst { from, to } => { by_equals(alloc, store, scope, facts, goal, from, to) }
        Cert::Contra(opposite) => { by_opposites(alloc, store, scope, facts, goal, opposite) }
        Cert::Linear { sums, rows } => {
            let (sums, rows) = (sums.as_slice(), rows.as_slice());
            by_rows(alloc, store, scope, facts, goal, sums, rows)
        }
        Cert::Cases {
            formula: split,
            holds,
            fails,
        } => {
            let known = facts.len();
            let split = formula(alloc, store, scope, split)?;
            facts.push(store, split)?;
            prove(alloc, store, scope, facts, goal, holds)?;
            let denied = negation(alloc, store, split)?;
            cut_to(store, facts, known);
            facts.push(store, denied)?;
            prove(alloc, store, scope, facts, goal, fails)
        }
        Cert::Steps { steps, last } => {
            let steps = steps.as_slice();
            for i in 0..steps.len() {
                let known = facts.len();
                let step = &steps[i];
                let shown = formula(alloc, store, scope, &step.formula)?;
                prove(alloc, store, scope, facts, shown, &step.cert)?;
                facts.truncate(known);
                facts.push(store, shown)?;
            }
            prove(alloc, store, scope, facts, goal, last)
        }
    }
}
