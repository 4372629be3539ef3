//! Premises, each with its cause.

ghost use Rattle.std.specs.Prelude.{◌≡◌, ◌∷◌, ◌<◌, [], true, length, IfOk, IfErr};
ghost use Rattle.gv_terms.specs.Store.{tree_at, trees_at, AreIn};
ghost use Rattle.gv_certs.specs.Known.{is_known};
ghost use Rattle.gv_certs.specs.Proving.{asks, is_known_of, AllHold};
ghost use Rattle.gv_side.specs.Telling.{IsFault};

use gv_certs::{Cause, RuleFault};
use gv_known::{Facts, known};
use gv_terms::{Term, TermStore};
use std::alloc::Global;

/// The premise holds, or its cause.
pub fn ask(holds: bool, cause: Cause) -> Result<(), RuleFault>
    ensures holds { IfOk result (λ _. AllHold (asks holds cause ∷ [])) }
    ensures cause { IfErr result (IsFault (asks holds cause ∷ [])) }
{
    if holds {
        Ok(())
    } else {
        Err(RuleFault::Cause(cause))
    }
}

/// The formula is known, or `NotKnown`.
pub fn ask_known(
    alloc: Global,
    store: &TermStore,
    facts: &Facts,
    formula: Term,
) -> Result<(), RuleFault>
    requires facts { AreIn store.now facts.now }
    requires formula { formula.id < length store.now }
    ensures holds { IfOk result (λ _. AllHold (is_known_of (trees_at store.now facts.now) (tree_at store.now formula.id) ∷ [])) }
    ensures cause { IfErr result (IsFault (is_known_of (trees_at store.now facts.now) (tree_at store.now formula.id) ∷ [])) }
{
    ask(known(alloc, store, facts, formula)?, Cause::NotKnown)
}
