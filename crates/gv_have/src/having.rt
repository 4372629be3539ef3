//! The commands that add a fact, and that end a path.

ghost use Rattle.std.specs.Prelude.{◌≡◌, ◌<◌, length, IfOk, IfErr, OnErr};
ghost use Rattle.gv_terms.specs.Store.{tree_at, trees_at, AreIn, Grows};
ghost use Rattle.gv_certs.specs.Laws.{falsum};
ghost use Rattle.gv_have.specs.Scoping as spec;
ghost use Rattle.gv_have.specs.Telling.{IsFault, IsAbsurdFault, Follows, AreContradictory, IsAdded};

use crate::proving::prove;
use crate::scoping::check_scope;
use crate::terms::formula;
use gv_base::{List, NoMemory};
use gv_certs::{Cert, RuleFault};
use gv_known::Facts;
use gv_terms::{Head, MakeFault, Node, Operator, RawTerm, Scope, Term, TermStore};
use std::alloc::Global;

/// Adds a formula to the facts, where the certificate proves it from them. The terms are tested first: `Scope` where a variable is
/// unknown or a term has not the sort of its place. Then the certificate's premises are, in order; the first that fails gives the
/// cause. Every valuation that meets the facts meets the formula. After an error the facts are as they were; the store only grows.
/// This project's own.
pub fn have(
    alloc: Global,
    store: &mut TermStore,
    scope: &Scope,
    facts: &mut Facts,
    goal: &RawTerm,
    cert: &Cert,
) -> Result<(), RuleFault>
    requires facts { AreIn store.old facts.old }
    ensures shown { IfOk result (λ _. spec.Shows scope.now (trees_at store.old facts.old) goal.now cert.now) }
    ensures meant { IfOk result (λ _. Follows (trees_at store.old facts.old) (spec.formula_of scope.now goal.now)) }
    ensures added { IfOk result (λ _. IsAdded (trees_at store.old facts.old) (spec.formula_of scope.now goal.now) (trees_at store.new facts.new)) }
    ensures within { AreIn store.new facts.new }
    ensures cause { IfErr result (IsFault scope.now (trees_at store.old facts.old) goal.now cert.now) }
    ensures kept { OnErr result (facts.new ≡ facts.old) }
    ensures grows { Grows store.old store.new }
{
    let known = facts.len();
    let goal = formula(alloc, store, scope, goal)?;
    check_scope(alloc, store, scope, cert)?;
    let proved = prove(alloc, store, scope, facts, goal, cert);
    facts.truncate(known);
    proved?;
    facts.push(store, goal)?;
    Ok(())
}

// The formula that is never true.
fn falsum(alloc: Global, store: &mut TermStore) -> Result<Term, NoMemory>
    ensures within { IfOk result (λ t. t.id < length store.new) }
    ensures made { IfOk result (λ t. tree_at store.new t.id ≡ falsum) }
    ensures grows { Grows store.old store.new }
{
    let node = Node {
        head: Head::Apply(Operator::False),
        parts: List::new(alloc),
    };
    match store.make(alloc, &node) {
        Ok(term) => Ok(term),
        Err(MakeFault::NoMemory) => Err(NoMemory),
        Err(MakeFault::WrongSort) => unreachable!(),
    }
}

/// The facts contradict each other: the certificate proves `false` from them, and no valuation meets them. Terms are tested first, as
/// for `have`, and the facts stay as they are. This project's own.
pub fn absurd(
    alloc: Global,
    store: &mut TermStore,
    scope: &Scope,
    facts: &mut Facts,
    cert: &Cert,
) -> Result<(), RuleFault>
    requires facts { AreIn store.old facts.old }
    ensures shown { IfOk result (λ _. spec.ShowsAbsurd scope.now (trees_at store.old facts.old) cert.now) }
    ensures meant { IfOk result (λ _. AreContradictory (trees_at store.old facts.old)) }
    ensures cause { IfErr result (IsAbsurdFault scope.now (trees_at store.old facts.old) cert.now) }
    ensures kept { facts.new ≡ facts.old }
    ensures grows { Grows store.old store.new }
{
    let known = facts.len();
    let goal = falsum(alloc, store)?;
    check_scope(alloc, store, scope, cert)?;
    let proved = prove(alloc, store, scope, facts, goal, cert);
    facts.truncate(known);
    proved
}
