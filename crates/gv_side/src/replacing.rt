//! Formulas that are alike once equals are put for equals.

ghost use Rattle.std.specs.Prelude.{◌≡◌, ◌<◌, length, IfOk, IfErr};
ghost use Rattle.gv_terms.specs.Store.{tree_at, trees_at, AreIn, Grows};
ghost use Rattle.gv_terms.specs.Trees.{sort_of};
ghost use Rattle.gv_certs.specs.Proving as spec;
ghost use Rattle.gv_side.specs.Telling.{IsFault, asked_of, equals_in, equals_of};

use crate::asking::{ask, ask_known};
use crate::making::equation;
use gv_certs::{Cause, RuleFault};
use gv_known::{Facts, is_reflexive, replaced, same};
use gv_terms::{Term, TermStore};
use std::alloc::Global;

/// The certificate that the goal is the formula `within`, once `from` has become `to` in both.
pub fn subst_in(
    alloc: Global,
    store: &mut TermStore,
    facts: &Facts,
    goal: Term,
    from: Term,
    to: Term,
    within: Term,
) -> Result<(), RuleFault>
    requires facts { AreIn store.old facts.now }
    requires goal { goal.id < length store.old }
    requires from { from.id < length store.old }
    requires to { to.id < length store.old }
    requires within { within.id < length store.old }
    requires alike { sort_of (tree_at store.old from.id) ≡ sort_of (tree_at store.old to.id) }
    ensures holds { IfOk result (λ _. spec.AllHold (asked_of store.old facts.now goal (equals_in store.old from to within))) }
    ensures cause { IfErr result (IsFault (asked_of store.old facts.now goal (equals_in store.old from to within))) }
    ensures grows { Grows store.old store.new }
{
    let equal = equation(alloc, store, from, to)?;
    ask_known(alloc, store, facts, equal)?;
    ask_known(alloc, store, facts, within)?;
    let one = replaced(alloc, store, from, to, goal)?;
    let other = replaced(alloc, store, from, to, within)?;
    ask(same(store, one, other), Cause::Mismatch)
}

/// The certificate that the goal becomes `t == t`, once `from` has become `to`.
pub fn subst(
    alloc: Global,
    store: &mut TermStore,
    facts: &Facts,
    goal: Term,
    from: Term,
    to: Term,
) -> Result<(), RuleFault>
    requires facts { AreIn store.old facts.now }
    requires goal { goal.id < length store.old }
    requires from { from.id < length store.old }
    requires to { to.id < length store.old }
    requires alike { sort_of (tree_at store.old from.id) ≡ sort_of (tree_at store.old to.id) }
    ensures holds { IfOk result (λ _. spec.AllHold (asked_of store.old facts.now goal (equals_of store.old from to))) }
    ensures cause { IfErr result (IsFault (asked_of store.old facts.now goal (equals_of store.old from to))) }
    ensures grows { Grows store.old store.new }
{
    let equal = equation(alloc, store, from, to)?;
    ask_known(alloc, store, facts, equal)?;
    let one = replaced(alloc, store, from, to, goal)?;
    ask(is_reflexive(store, one), Cause::Mismatch)
}
