//! Whole terms that must have a given sort, or one of the sorts of parameters and replies.

ghost use Rattle.std.specs.Prelude.{◌≡◌, ◌<◌, ℕ, true, Some, length, IfOk, IfErr};
ghost use Rattle.gv_terms.specs.Store.{tree_at, Grows};
ghost use Rattle.gv_terms.specs.Trees.{sort_of};
ghost use Rattle.gv_terms.specs.Scopes.{is_closed};
ghost use Rattle.gv_terms.specs.Values.{is_sort};
ghost use Rattle.gv_base.specs.declared.answers.Code.{Code as AnyCode};
ghost use Rattle.gv_terms.specs.Resolving.{resolved};
ghost use Rattle.gv_typing.specs.Placing.{is_some_plain, HasTermFault, IsCause};

use crate::resolving::make_term;
use crate::term_fault::TermFault;
use gv_base::Code;
use gv_termread::PlacedTerm;
use gv_terms::{Scope, Sort, Term, TermStore};
use std::alloc::Global;

fn has_sort(store: &TermStore, t: Term, sort: Sort) -> bool
    requires { t.id < length store.now }
    ensures { result ≡ is_sort sort (sort_of (tree_at store.now t.id)) }
{
    store.sort_of(t) == sort
}

fn has_plain_sort(store: &TermStore, t: Term) -> bool
    requires { t.id < length store.now }
    ensures { result ≡ is_some_plain (sort_of (tree_at store.now t.id)) }
{
    matches!(store.sort_of(t), Sort::Word | Sort::Bool | Sort::Bytes)
}

/// The term of a whole term that must have this sort, or its first fault: a fault of its node, as `make_term` tells
/// it, or `WrongType` at its first token, parentheses included, where it has another sort.
pub fn make_term_of(
    alloc: Global,
    store: &mut TermStore,
    scope: &Scope,
    sort: Sort,
    term: &PlacedTerm,
) -> Result<Term, TermFault>
    ensures within { IfOk result (λ t. t.id < length store.new) }
    ensures sorted { IfOk result (λ t. is_sort sort (sort_of (tree_at store.new t.id)) ≡ true) }
    ensures closed { IfOk result (λ t. is_closed scope.now (tree_at store.new t.id) ≡ true) }
    ensures tree { IfOk result (λ t. resolved scope.now term.now.term ≡ Some (tree_at store.new t.id)) }
    ensures faultless { IfOk result (λ t. (at : ℕ) (c : AnyCode) → HasTermFault scope.now (is_sort sort) term.now at c → ⊥) }
    ensures cause { IfErr result (IsCause (HasTermFault scope.now (is_sort sort) term.now)) }
    ensures grows { Grows store.old store.new }
{
    let made = make_term(alloc, store, scope, term)?;
    if has_sort(store, made, sort) {
        Ok(made)
    } else {
        Err(TermFault::At {
            start: term.start,
            code: Code::WrongType,
        })
    }
}

/// The same of a whole term that must be a `Word`, a `Bool` or `Bytes`, as a reply must.
pub fn make_plain_term(
    alloc: Global,
    store: &mut TermStore,
    scope: &Scope,
    term: &PlacedTerm,
) -> Result<Term, TermFault>
    ensures within { IfOk result (λ t. t.id < length store.new) }
    ensures sorted { IfOk result (λ t. is_some_plain (sort_of (tree_at store.new t.id)) ≡ true) }
    ensures closed { IfOk result (λ t. is_closed scope.now (tree_at store.new t.id) ≡ true) }
    ensures tree { IfOk result (λ t. resolved scope.now term.now.term ≡ Some (tree_at store.new t.id)) }
    ensures faultless { IfOk result (λ t. (at : ℕ) (c : AnyCode) → HasTermFault scope.now is_some_plain term.now at c → ⊥) }
    ensures cause { IfErr result (IsCause (HasTermFault scope.now is_some_plain term.now)) }
    ensures grows { Grows store.old store.new }
{
    let made = make_term(alloc, store, scope, term)?;
    if has_plain_sort(store, made) {
        Ok(made)
    } else {
        Err(TermFault::At {
            start: term.start,
            code: Code::WrongType,
        })
    }
}
