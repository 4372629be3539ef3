//! What an axiom gives.

ghost use Rattle.std.specs.Prelude.{◌≡◌, ◌<◌, length, map, IfOk, IfErr};
ghost use Rattle.gv_terms.specs.Store.{tree_at, trees_at, AreIn, Grows};
ghost use Rattle.gv_certs.specs.Proving as spec;
ghost use Rattle.gv_side.specs.Telling.{IsFault, asked_of, axiom_of};

use crate::asking::{ask, ask_known};
use gv_axioms::{AxiomFault, instance};
use gv_certs::{Cause, RuleFault};
use gv_known::{Facts, same};
use gv_terms::{Term, TermStore};
use std::alloc::Global;

// Each formula is known, or `NotKnown`.
fn ask_all(
    alloc: Global,
    store: &TermStore,
    facts: &Facts,
    formulas: &[Term],
) -> Result<(), RuleFault>
    requires facts { AreIn store.now facts.now }
    requires formulas { AreIn store.now formulas.now }
    ensures holds { IfOk result (λ _. spec.AllHold (map (spec.is_known_of (trees_at store.now facts.now)) (trees_at store.now formulas.now))) }
    ensures cause { IfErr result (IsFault (map (spec.is_known_of (trees_at store.now facts.now)) (trees_at store.now formulas.now))) }
{
    for i in 0..formulas.len() {
        ask_known(alloc, store, facts, formulas[i])?;
    }
    Ok(())
}

/// The certificate that the goal is what an axiom gives, of which each premise is known.
pub fn by_axiom(
    alloc: Global,
    store: &mut TermStore,
    facts: &Facts,
    goal: Term,
    number: u32,
    parts: &[Term],
) -> Result<(), RuleFault>
    requires facts { AreIn store.old facts.now }
    requires goal { goal.id < length store.old }
    requires parts { AreIn store.old parts.now }
    ensures holds { IfOk result (λ _. spec.AllHold (asked_of store.old facts.now goal (axiom_of store.old number parts.now))) }
    ensures cause { IfErr result (IsFault (asked_of store.old facts.now goal (axiom_of store.old number parts.now))) }
    ensures grows { Grows store.old store.new }
{
    let given = match instance(alloc, store, number, parts) {
        Ok(given) => given,
        Err(AxiomFault::NoMemory) => return Err(RuleFault::NoMemory),
        Err(AxiomFault::BadAxiom) => return Err(RuleFault::Cause(Cause::BadAxiom)),
    };
    ask_all(alloc, store, facts, given.premises.as_slice())?;
    ask(same(store, given.conclusion, goal), Cause::Mismatch)
}
