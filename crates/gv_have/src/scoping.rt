//! Whether each term of a certificate has the sort of its place.

ghost use Rattle.std.specs.Prelude.{◌≡◌, IfOk, IfErr};
ghost use Rattle.gv_terms.specs.Store.{Grows};
ghost use Rattle.gv_have.specs.Scoping as spec;
ghost use Rattle.gv_have.specs.Telling.{IsUnscoped, IsScoped};

use crate::terms::{all_terms, formula, rows, sides};
use gv_certs::{Cert, Factored, RuleFault};
use gv_terms::{RawTerm, Scope, TermStore};
use std::alloc::Global;

// Of what an axiom is over.
fn scope_parts(
    alloc: Global,
    store: &mut TermStore,
    scope: &Scope,
    number: u32,
    parts: &[RawTerm],
) -> Result<(), RuleFault>
    ensures scoped { IfOk result (λ _. IsScoped (spec.axiom_in scope.now number parts.now)) }
    ensures cause { IfErr result (IsUnscoped (spec.axiom_in scope.now number parts.now)) }
    ensures grows { Grows store.old store.new }
{
    all_terms(alloc, store, scope, parts)?;
    Ok(())
}

// Of an equation and a formula.
fn scope_equation_in(
    alloc: Global,
    store: &mut TermStore,
    scope: &Scope,
    from: &RawTerm,
    to: &RawTerm,
    within: &RawTerm,
) -> Result<(), RuleFault>
    ensures scoped { IfOk result (λ _. IsScoped (spec.equals_in scope.now from.now to.now within.now)) }
    ensures cause { IfErr result (IsUnscoped (spec.equals_in scope.now from.now to.now within.now)) }
    ensures grows { Grows store.old store.new }
{
    sides(alloc, store, scope, from, to)?;
    formula(alloc, store, scope, within)?;
    Ok(())
}

// Of an equation.
fn scope_equation(
    alloc: Global,
    store: &mut TermStore,
    scope: &Scope,
    from: &RawTerm,
    to: &RawTerm,
) -> Result<(), RuleFault>
    ensures scoped { IfOk result (λ _. IsScoped (spec.equals scope.now from.now to.now)) }
    ensures cause { IfErr result (IsUnscoped (spec.equals scope.now from.now to.now)) }
    ensures grows { Grows store.old store.new }
{
    sides(alloc, store, scope, from, to)?;
    Ok(())
}

// Of a formula that is known with its negation.
fn scope_opposite(
    alloc: Global,
    store: &mut TermStore,
    scope: &Scope,
    opposite: &RawTerm,
) -> Result<(), RuleFault>
    ensures scoped { IfOk result (λ _. IsScoped (spec.opposites scope.now opposite.now)) }
    ensures cause { IfErr result (IsUnscoped (spec.opposites scope.now opposite.now)) }
    ensures grows { Grows store.old store.new }
{
    formula(alloc, store, scope, opposite)?;
    Ok(())
}

// Of sums and rows.
fn scope_rows(
    alloc: Global,
    store: &mut TermStore,
    scope: &Scope,
    sums: &[RawTerm],
    factored: &[Factored],
) -> Result<(), RuleFault>
    ensures scoped { IfOk result (λ _. IsScoped (spec.sum_in scope.now sums.now factored.now)) }
    ensures cause { IfErr result (IsUnscoped (spec.sum_in scope.now sums.now factored.now)) }
    ensures grows { Grows store.old store.new }
{
    all_terms(alloc, store, scope, sums)?;
    rows(alloc, store, scope, factored)?;
    Ok(())
}

/// Each term of the certificate is one among the variables, and has the sort of its place, or `Scope`. It recurses as deep as
/// certificates stand in one another.
#[tactic(auto, using(crate::proofs::Forms::forms))]
pub(crate) fn check_scope(
    alloc: Global,
    store: &mut TermStore,
    scope: &Scope,
    cert: &Cert,
) -> Result<(), RuleFault>
    ensures scoped { IfOk result (λ _. IsScoped (spec.certificate_of scope.now cert.now)) }
    ensures cause { IfErr result (IsUnscoped (spec.certificate_of scope.now cert.now)) }
    ensures grows { Grows store.old store.new }
{
    match cert {
        Cert::Known => Ok(()),
        Cert::Compute => Ok(()),
        Cert::Axiom { number, parts } => {
            scope_parts(alloc, store, scope, *number, parts.as_slice())
        }
        Cert::SubstIn { from, to, within } => {
            scope_equation_in(alloc, store, scope, from, to, within)
        }
        Cert::Subst { from, to } => scope_equation(alloc, store, scope, from, to),
        Cert::Contra(opposite) => scope_opposite(alloc, store, scope, opposite),
        Cert::Linear { sums, rows } => {
            scope_rows(alloc, store, scope, sums.as_slice(), rows.as_slice())
        }
        Cert::Cases {
            formula: split,
            holds,
            fails,
        } => {
            formula(alloc, store, scope, split)?;
            check_scope(alloc, store, scope, holds)?;
            check_scope(alloc, store, scope, fails)
        }
        Cert::Steps { steps, last } => {
            let steps = steps.as_slice();
            for i in 0..steps.len() {
                let step = &steps[i];
                formula(alloc, store, scope, &step.formula)?;
                check_scope(alloc, store, scope, &step.cert)?;
            }
            check_scope(alloc, store, scope, last)
        }
    }
}
