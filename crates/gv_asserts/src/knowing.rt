//! What is known in a path state, and what a certificate adds to it.

ghost use Rattle.std.specs.Prelude.{◌≡◌, ◌<◌, Some, length, IfOk, IfErr};
ghost use Rattle.gv_terms.specs.Resolving.{resolved};
ghost use Rattle.gv_terms.specs.Store.{tree_at, trees_at, AreIn, Grows};
ghost use Rattle.gv_certs.specs.Known.{is_known};
ghost use Rattle.gv_have.specs.Scoping as spec;
ghost use Rattle.gv_have.specs.Telling.{IsUnscoped, IsFault, IsAbsurdFault, IsAdded};
ghost use Rattle.gv_asserts.specs.Knowing.{IsSoundAddition, IsSoundEnd};

use crate::cx::Cx;
use crate::heap::Heap;
use gv_base::NoMemory;
use gv_certs::{Cert, RuleFault};
use gv_terms::{RawTerm, Term};
use std::alloc::Global;

/// The term that a term as it was read stands for among the variables of a path state, or `Scope`, exactly where a variable is none of
/// them or a part has no sort. Nothing changes but that the store may hold more terms. It recurses as deep as the term is nested. This
/// project's own.
pub fn resolve(alloc: Global, cx: &mut Cx, heap: &Heap, term: &RawTerm) -> Result<Term, RuleFault>
    ensures within { IfOk result (λ t. t.id < length cx.new.store) }
    ensures tree { IfOk result (λ t. resolved heap.now.vars term.now ≡ Some (tree_at cx.new.store t.id)) }
    ensures cause { IfErr result (IsUnscoped (resolved heap.now.vars term.now)) }
    ensures grows { Grows cx.old.store cx.new.store }
    ensures spec { cx.new.spec ≡ cx.old.spec }
    ensures decls { cx.new.decls ≡ cx.old.decls }
{
    gv_have::resolve(alloc, &mut cx.store, &heap.vars, term)
}

/// Whether a formula is known in a path state: it is one of the facts, an equation that is one of them the other way round, `t == t`,
/// or has no variable, is over words and truth values alone, and is true. This project's own.
pub fn known(alloc: Global, cx: &Cx, heap: &Heap, goal: Term) -> Result<bool, NoMemory>
    requires facts { AreIn cx.now.store heap.now.facts }
    requires goal { goal.id < length cx.now.store }
    ensures { IfOk result (λ k. k ≡ is_known (trees_at cx.now.store heap.now.facts) (tree_at cx.now.store goal.id)) }
{
    gv_known::known(alloc, &cx.store, &heap.facts, goal)
}

/// The path state with a formula added to its facts, where the certificate proves it from them. The terms are tested first: `Scope`
/// where a variable is unknown or a term has not the sort of its place. Then the certificate's premises are, in order; the first that
/// fails gives the cause. A frame that stands at the path before stands at the path after, so every valuation that meets the facts meets
/// the formula. This project's own.
pub fn have(
    alloc: Global,
    cx: &mut Cx,
    heap: Heap,
    goal: &RawTerm,
    cert: &Cert,
) -> Result<Heap, RuleFault>
    requires facts { AreIn cx.old.store heap.facts }
    ensures shown { IfOk result (λ _. spec.Shows heap.vars (trees_at cx.old.store heap.facts) goal.now cert.now) }
    ensures added { IfOk result (λ k. IsAdded (trees_at cx.old.store heap.facts) (spec.formula_of heap.vars goal.now) (trees_at cx.new.store k.facts)) }
    ensures within { IfOk result (λ k. AreIn cx.new.store k.facts) }
    ensures sound { IfOk result (λ k. IsSoundAddition (trees_at cx.old.store heap.facts) (trees_at cx.new.store k.facts)) }
    ensures rest { IfOk result (λ k. k ≡ record heap { facts = k.facts }) }
    ensures cause { IfErr result (IsFault heap.vars (trees_at cx.old.store heap.facts) goal.now cert.now) }
    ensures grows { Grows cx.old.store cx.new.store }
    ensures spec { cx.new.spec ≡ cx.old.spec }
    ensures decls { cx.new.decls ≡ cx.old.decls }
{
    let mut heap = heap;
    gv_have::have(
        alloc,
        &mut cx.store,
        &heap.vars,
        &mut heap.facts,
        goal,
        cert,
    )?;
    Ok(heap)
}

/// Ends a path whose facts contradict each other: the certificate proves `false` from them, so no frame stands there. Terms are tested
/// first, as for `have`. This project's own.
pub fn absurd(alloc: Global, cx: &mut Cx, heap: Heap, cert: &Cert) -> Result<(), RuleFault>
    requires facts { AreIn cx.old.store heap.facts }
    ensures shown { IfOk result (λ _. spec.ShowsAbsurd heap.vars (trees_at cx.old.store heap.facts) cert.now) }
    ensures sound { IfOk result (λ _. IsSoundEnd (trees_at cx.old.store heap.facts)) }
    ensures cause { IfErr result (IsAbsurdFault heap.vars (trees_at cx.old.store heap.facts) cert.now) }
    ensures grows { Grows cx.old.store cx.new.store }
    ensures spec { cx.new.spec ≡ cx.old.spec }
    ensures decls { cx.new.decls ≡ cx.old.decls }
{
    let mut heap = heap;
    gv_have::absurd(alloc, &mut cx.store, &heap.vars, &mut heap.facts, cert)?;
    Ok(())
}
