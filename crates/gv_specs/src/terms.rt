//! The terms of a text.

ghost use Rattle.std.specs.Prelude.{◌≡◌, ◌<◌, None, [], length, IfOk, OnOk};
ghost use Rattle.gv_terms.specs.Store.{Grows, tree_at};
ghost use Rattle.gv_terms.specs.declared.operator.Operator.TheVariants as operator;
ghost use Rattle.gv_terms.specs.declared.tree.TermTree.TheVariants as tree;
ghost use Rattle.gv_terms.specs.Values.{is_sort};
ghost use Rattle.gv_typing.specs.Placing.{HasTermFault};
ghost use Rattle.gv_specs.specs.Spelled.{IsTermOf};
ghost use Rattle.gv_specs.specs.Told.{Adds};

use crate::told::note;
use gv_base::{List, NoMemory};
use gv_termread::PlacedTerm;
use gv_terms::{Head, MakeFault, Node, Operator, Scope, Sort, Term, TermStore};
use gv_typing::{Fault, TermFault, make_term_of};
use std::alloc::Global;

/// The number that stands for a part that has a fault. As the fault is kept, it comes into no specification.
pub const NOTHING: u32 = 0;

/// The term that stands for such a part.
pub fn nothing() -> Term
    ensures { result.id ≡ 0 }
{
    Term {
        id: u64::from(NOTHING),
    }
}

/// The term of a text's term over variables, which must have this sort; or any term, where it has a fault.
pub fn read_term(
    alloc: Global,
    store: &mut TermStore,
    vars: &Scope,
    sort: Sort,
    term: &PlacedTerm,
    first: &mut Option<Fault>,
) -> Result<Term, NoMemory>
    ensures noted { OnOk result (Adds (HasTermFault vars.now (is_sort sort) term.now) first.old first.new) }
    ensures read { IfOk result (λ t. first.new ≡ None → IsTermOf store.new vars.now term.now t) }
    ensures grows { Grows store.old store.new }
{
    match make_term_of(alloc, store, vars, sort, term) {
        Ok(made) => Ok(made),
        Err(TermFault::NoMemory) => Err(NoMemory),
        Err(TermFault::At { start, code }) => {
            note(first, start, code);
            Ok(nothing())
        }
    }
}

/// The term that is always true.
pub fn make_true(alloc: Global, store: &mut TermStore) -> Result<Term, NoMemory>
    ensures within { IfOk result (λ t. t.id < length store.new) }
    ensures tree { IfOk result (λ t. tree_at store.new t.id ≡ tree.Apply operator.True []) }
    ensures grows { Grows store.old store.new }
{
    let node = Node {
        head: Head::Apply(Operator::True),
        parts: List::new(alloc),
    };
    match store.make(alloc, &node) {
        Ok(term) => Ok(term),
        Err(MakeFault::NoMemory) => Err(NoMemory),
        Err(MakeFault::WrongSort) => unreachable!(),
    }
}
