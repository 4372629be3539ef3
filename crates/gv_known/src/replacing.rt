//! One term put for another.

ghost use Rattle.std.specs.Prelude.{◌≡◌, ◌<◌, length, IfOk};
ghost use Rattle.gv_terms.specs.Store.{tree_at, Grows};
ghost use Rattle.gv_terms.specs.Trees.{sort_of};
ghost use Rattle.gv_known.specs.Parts.{replaced_at};

use crate::comparing::same;
use gv_base::{List, NoMemory};
use gv_terms::{MakeFault, Node, Term, TermStore};
use std::alloc::Global;

/// The term with `to` in place of each `from`, all at once. The two have one sort, so the whole keeps its own. It recurses as deep
/// as the term is nested.
pub fn replaced(
    alloc: Global,
    store: &mut TermStore,
    from: Term,
    to: Term,
    term: Term,
) -> Result<Term, NoMemory>
    requires from { from.id < length store.old }
    requires to { to.id < length store.old }
    requires whole { term.id < length store.old }
    requires alike { sort_of (tree_at store.old from.id) ≡ sort_of (tree_at store.old to.id) }
    ensures within { IfOk result (λ t. t.id < length store.new) }
    ensures made { IfOk result (λ t. tree_at store.new t.id ≡ replaced_at store.old from to term) }
    ensures grows { Grows store.old store.new }
{
    if same(store, from, term) {
        return Ok(to);
    }
    let _sort = store.sort_of(term);
    let parts: Vec<Term> = Vec::from_slice(alloc, store.parts_of(term))?;
    let items = parts.as_slice();
    let mut made: Vec<Term> = Vec::new(alloc);
    for i in 0..items.len() {
        let part = replaced(alloc, store, from, to, items[i])?;
        made.push(part)?;
    }
    let head = store.head_of(term).copy(alloc)?;
    let node = Node {
        head,
        parts: List::from_vec(made),
    };
    match store.make(alloc, &node) {
        Ok(term) => Ok(term),
        Err(MakeFault::NoMemory) => Err(NoMemory),
        Err(MakeFault::WrongSort) => unreachable!(),
    }
}
