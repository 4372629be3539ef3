//! Terms whose variables are among given ones, each node being looked at once.

ghost use Rattle.std.specs.Prelude.{◌≡◌, true, ◌<◌, ◌≤◌, ◌&&◌, ◌++◌, length, IfOk};
ghost use Rattle.std.specs.Bool.{OnTrue};
ghost use Rattle.gv_terms.specs.Values.{is_sort};
ghost use Rattle.gv_terms.specs.Trees.{sort_of};
ghost use Rattle.gv_terms.specs.Store.{tree_at};
ghost use Rattle.gv_terms.specs.Scopes.{is_among, is_closed};
ghost use Rattle.gv_atomic.specs.Typed as typed;
ghost use Rattle.gv_atomic.specs.Marks.{AreMarks, is_known};

use crate::names::sort_in;
use crate::sorts::is_plain;
use gv_base::{Name, NoMemory};
use gv_terms::{Head, Scope, Sort, Term, TermStore};
use std::alloc::Global;

// Whether one of two scopes has this variable.
fn has_var(fields: &Scope, own: &Scope, name: &Name, sort: Sort) -> bool
    requires { typed.are_names (typed.names_of (fields.now ++ own.now)) ≡ true }
    ensures { result ≡ is_among (fields.now ++ own.now) name.now sort }
{
    match sort_in(fields, own, name) {
        Some(found) => found == sort,
        None => false,
    }
}

// Whether a node is an operator or one of the variables.
fn is_known(fields: &Scope, own: &Scope, head: &Head) -> bool
    requires { typed.are_names (typed.names_of (fields.now ++ own.now)) ≡ true }
    ensures { result ≡ is_known (fields.now ++ own.now) head.now }
{
    match head {
        Head::Variable { name, sort } => has_var(fields, own, name, *sort),
        Head::Apply(_) => true,
    }
}

/// Whether all variables of a term are among those of two scopes. A node that bears the number of the scope
/// has been seen in it; the others get this number.
pub fn is_closed(
    alloc: Global,
    store: &TermStore,
    fields: &Scope,
    own: &Scope,
    marks: &mut Vec<usize>,
    number: usize,
    t: Term,
) -> Result<bool, NoMemory>
    requires within { t.id < length store.now }
    requires names { typed.are_names (typed.names_of (fields.now ++ own.now)) ≡ true }
    requires marks { AreMarks store.now (fields.now ++ own.now) number marks.old.items }
    ensures told { IfOk result (λ b. b ≡ is_closed (fields.now ++ own.now) (tree_at store.now t.id)) }
    ensures marks { IfOk result (λ b. OnTrue b (AreMarks store.now (fields.now ++ own.now) number marks.new.items)) }
{
    let mut left = vec![in alloc; t]?;
    while let Some(node) = left.pop() {
        let place = node.id as usize;
        if marks[place] != number {
            marks[place] = number;
            if !is_known(fields, own, store.head_of(node)) {
                return Ok(false);
            }
            left.extend_from_slice(store.parts_of(node))?;
        }
    }
    Ok(true)
}

/// Whether a term is of the store, has this sort, and has its variables among those of two scopes.
pub fn is_term(
    alloc: Global,
    store: &TermStore,
    fields: &Scope,
    own: &Scope,
    marks: &mut Vec<usize>,
    number: usize,
    sort: Sort,
    t: Term,
) -> Result<bool, NoMemory>
    requires names { typed.are_names (typed.names_of (fields.now ++ own.now)) ≡ true }
    requires marks { AreMarks store.now (fields.now ++ own.now) number marks.old.items }
    ensures told { IfOk result (λ b. b ≡ typed.is_term store.now (fields.now ++ own.now) sort t) }
    ensures marks { IfOk result (λ b. OnTrue b (AreMarks store.now (fields.now ++ own.now) number marks.new.items)) }
{
    if t.id >= store.len() as u64 || store.sort_of(t) != sort {
        return Ok(false);
    }
    is_closed(alloc, store, fields, own, marks, number, t)
}

/// The same of a reply, which has a plain sort, where there is one.
pub fn is_reply(
    alloc: Global,
    store: &TermStore,
    fields: &Scope,
    own: &Scope,
    marks: &mut Vec<usize>,
    number: usize,
    reply: Option<Term>,
) -> Result<bool, NoMemory>
    requires names { typed.are_names (typed.names_of (fields.now ++ own.now)) ≡ true }
    requires marks { AreMarks store.now (fields.now ++ own.now) number marks.old.items }
    ensures told { IfOk result (λ b. b ≡ typed.is_reply store.now (fields.now ++ own.now) reply) }
    ensures marks { IfOk result (λ b. OnTrue b (AreMarks store.now (fields.now ++ own.now) number marks.new.items)) }
{
    let Some(t) = reply else {
        return Ok(true);
    };
    if t.id >= store.len() as u64 || !is_plain(store.sort_of(t)) {
        return Ok(false);
    }
    is_closed(alloc, store, fields, own, marks, number, t)
}
