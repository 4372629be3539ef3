//! A formula and its negation.

ghost use Rattle.std.specs.Prelude.{◌≡◌, ◌<◌, length, Some, IfOk, IfErr};
ghost use Rattle.gv_terms.specs.Store.{tree_at, trees_at, AreIn, Grows};
ghost use Rattle.gv_terms.specs.Trees.{sort_of};
ghost use Rattle.gv_terms.specs.declared.sort.Sort.TheVariants as sort;
ghost use Rattle.gv_terms.specs.declared.tree.TermTree.{TermTree as Tree};
ghost use Rattle.gv_certs.specs.Proving as spec;
ghost use Rattle.gv_side.specs.Telling.{IsFault, opposites_of};

use crate::asking::ask_known;
use crate::making::negation;
use gv_certs::RuleFault;
use gv_known::Facts;
use gv_terms::{Term, TermStore};
use std::alloc::Global;

/// The certificate that a formula and its negation are known, whatever it is to show.
pub fn contra(
    alloc: Global,
    store: &mut TermStore,
    facts: &Facts,
    formula: Term,
) -> Result<(), RuleFault>
    requires facts { AreIn store.old facts.now }
    requires within { formula.id < length store.old }
    requires truth { sort_of (tree_at store.old formula.id) ≡ Some sort.Bool }
    ensures holds { IfOk result (λ _. (f : Tree) → spec.AllHold (spec.premises (trees_at store.old facts.now) f (opposites_of store.old formula))) }
    ensures cause { IfErr result (λ e. (f : Tree) → IsFault (spec.premises (trees_at store.old facts.now) f (opposites_of store.old formula)) e) }
    ensures grows { Grows store.old store.new }
{
    ask_known(alloc, store, facts, formula)?;
    let denied = negation(alloc, store, formula)?;
    ask_known(alloc, store, facts, denied)
}
