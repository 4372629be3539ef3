//! Terms of a store from terms as they were read.

ghost use Rattle.std.specs.Prelude.{◌≡◌, ◌<◌, ◌∷◌, [], length, map, Some, IfOk, IfErr, IsSome};
ghost use Rattle.gv_terms.specs.declared.sort.Sort.TheVariants as sort;
ghost use Rattle.gv_terms.specs.Resolving.{resolved};
ghost use Rattle.gv_terms.specs.Store.{tree_at, trees_at, AreIn, Grows};
ghost use Rattle.gv_terms.specs.Trees.{sort_of};
ghost use Rattle.gv_axioms.specs.Truth.{AreTerms};
ghost use Rattle.gv_sums.specs.Reading.{row_at, formulas_in};
ghost use Rattle.gv_have.specs.Scoping as spec;
ghost use Rattle.gv_have.specs.Telling.{IsUnscoped};

use gv_certs::{Cause, Factored, RuleFault};
use gv_known::Pair;
use gv_sums::FactoredTerm;
use gv_terms::{RawTerm, ResolveFault, Scope, Sort, Term, TermStore};
use std::alloc::Global;

/// The term that a term as it was read stands for among variables, or `Scope`, exactly where a variable is none of them or a
/// part has no sort. The store only grows. It recurses as deep as the term is nested. This project's own.
pub fn resolve(
    alloc: Global,
    store: &mut TermStore,
    scope: &Scope,
    term: &RawTerm,
) -> Result<Term, RuleFault>
    ensures within { IfOk result (λ t. t.id < length store.new) }
    ensures tree { IfOk result (λ t. resolved scope.now term.now ≡ Some (tree_at store.new t.id)) }
    ensures terms { IfOk result (λ t. AreTerms (tree_at store.new t.id ∷ [])) }
    ensures cause { IfErr result (IsUnscoped (resolved scope.now term.now)) }
    ensures grows { Grows store.old store.new }
{
    match gv_terms::resolve(alloc, store, scope, term) {
        Ok(term) => {
            store.numbers_are_words();
            Ok(term)
        }
        Err(ResolveFault::NoMemory) => Err(RuleFault::NoMemory),
        Err(ResolveFault::At { .. }) => Err(RuleFault::Cause(Cause::Scope)),
    }
}

/// The same of a formula; a term of another sort is `Scope` too. This project's own.
pub fn formula(
    alloc: Global,
    store: &mut TermStore,
    scope: &Scope,
    term: &RawTerm,
) -> Result<Term, RuleFault>
    ensures within { IfOk result (λ t. t.id < length store.new) }
    ensures tree { IfOk result (λ t. spec.formula_of scope.now term.now ≡ Some (tree_at store.new t.id)) }
    ensures truth { IfOk result (λ t. sort_of (tree_at store.new t.id) ≡ Some sort.Bool) }
    ensures terms { IfOk result (λ t. AreTerms (tree_at store.new t.id ∷ [])) }
    ensures cause { IfErr result (IsUnscoped (spec.formula_of scope.now term.now)) }
    ensures grows { Grows store.old store.new }
{
    let made = resolve(alloc, store, scope, term)?;
    if store.sort_of(made) == Sort::Bool {
        Ok(made)
    } else {
        Err(RuleFault::Cause(Cause::Scope))
    }
}

/// The terms that terms as they were read stand for, in order, or `Scope`.
pub(crate) fn all_terms(
    alloc: Global,
    store: &mut TermStore,
    scope: &Scope,
    terms: &[RawTerm],
) -> Result<Vec<Term>, RuleFault>
    ensures within { IfOk result (λ v. AreIn store.new v.items) }
    ensures trees { IfOk result (λ v. spec.terms_of scope.now terms.now ≡ Some (trees_at store.new v.items)) }
    ensures terms { IfOk result (λ v. AreTerms (trees_at store.new v.items)) }
    ensures cause { IfErr result (IsUnscoped (spec.terms_of scope.now terms.now)) }
    ensures grows { Grows store.old store.new }
{
    let mut made = Vec::new(alloc);
    for i in 0..terms.len() {
        made.push(resolve(alloc, store, scope, &terms[i])?)?;
    }
    Ok(made)
}

/// Two terms whose equation has a sort, or `Scope`.
pub(crate) fn sides(
    alloc: Global,
    store: &mut TermStore,
    scope: &Scope,
    from: &RawTerm,
    to: &RawTerm,
) -> Result<Pair, RuleFault>
    ensures within { IfOk result (λ p. (p.first.id < length store.new) × (p.second.id < length store.new)) }
    ensures trees { IfOk result (λ p. spec.sides_of scope.now from.now to.now ≡ Some (tree_at store.new p.first.id, tree_at store.new p.second.id)) }
    ensures alike { IfOk result (λ p. sort_of (tree_at store.new p.first.id) ≡ sort_of (tree_at store.new p.second.id)) }
    ensures terms { IfOk result (λ p. AreTerms (tree_at store.new p.first.id ∷ tree_at store.new p.second.id ∷ [])) }
    ensures cause { IfErr result (IsUnscoped (spec.sides_of scope.now from.now to.now)) }
    ensures grows { Grows store.old store.new }
{
    let first = resolve(alloc, store, scope, from)?;
    let second = resolve(alloc, store, scope, to)?;
    if store.sort_of(first) == store.sort_of(second) {
        Ok(Pair { first, second })
    } else {
        Err(RuleFault::Cause(Cause::Scope))
    }
}

/// Rows with their factors, or `Scope`.
pub(crate) fn rows(
    alloc: Global,
    store: &mut TermStore,
    scope: &Scope,
    rows: &[Factored],
) -> Result<Vec<FactoredTerm>, RuleFault>
    ensures within { IfOk result (λ v. AreIn store.new (formulas_in v.items)) }
    ensures trees { IfOk result (λ v. spec.rows_of scope.now rows.now ≡ Some (map (row_at store.new) v.items)) }
    ensures terms { IfOk result (λ v. AreTerms (trees_at store.new (formulas_in v.items))) }
    ensures cause { IfErr result (IsUnscoped (spec.rows_of scope.now rows.now)) }
    ensures grows { Grows store.old store.new }
{
    let mut made = Vec::new(alloc);
    for i in 0..rows.len() {
        let row = &rows[i];
        let formula = formula(alloc, store, scope, &row.formula)?;
        made.push(FactoredTerm {
            factor: row.factor,
            formula,
        })?;
    }
    Ok(made)
}
