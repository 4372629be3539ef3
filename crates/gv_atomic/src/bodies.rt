//! Bodies: what they pick, and what they assign.

ghost use Rattle.std.specs.Prelude.{◌≡◌, true, ◌∷◌, [], ◌&&◌, ◌++◌, map, nat_eq, IfOk};
ghost use Rattle.std.specs.Bool.{OnTrue};
ghost use Rattle.std.specs.List.{list_all};
ghost use Rattle.gv_terms.specs.declared.sort.Sort.TheVariants as sort;
ghost use Rattle.gv_atomic.specs.Typed as typed;
ghost use Rattle.gv_atomic.specs.Marks.{AreMarks, is_new};

use crate::closing::is_term;
use crate::names::declare;
use crate::spec::{Assign, Field, Pick};
use gv_base::NoMemory;
use gv_terms::{Scope, Sort, TermStore};
use indexmap::IndexSet;
use std::alloc::Global;

// Whether the bound of a pick is typed and its name is new, which is then added to the second scope.
fn is_pick(
    alloc: Global,
    store: &TermStore,
    fields: &Scope,
    own: &mut Scope,
    marks: &mut Vec<usize>,
    number: usize,
    pick: &Pick,
) -> Result<bool, NoMemory>
    requires names { typed.are_names (typed.names_of (fields.now ++ own.old)) ≡ true }
    requires marks { AreMarks store.now (fields.now ++ own.old) number marks.old.items }
    ensures told { IfOk result (λ b. b ≡ (typed.is_term store.now (fields.now ++ own.old) sort.Word pick.now.bound
        && is_new (typed.names_of (fields.now ++ own.old)) pick.now.name)) }
    ensures added { IfOk result (λ b. OnTrue b (own.new ≡ own.old ++ typed.pick_var pick.now ∷ [])) }
    ensures marks { IfOk result (λ b. OnTrue b (AreMarks store.now (fields.now ++ own.old) number marks.new.items)) }
{
    if !is_term(
        alloc,
        store,
        fields,
        own,
        marks,
        number,
        Sort::Word,
        pick.bound,
    )? {
        return Ok(false);
    }
    declare(alloc, fields, own, &pick.name, Sort::Word)
}

// Whether picks are typed and their names are new, which are then added to the second scope.
fn are_picks(
    alloc: Global,
    store: &TermStore,
    fields: &Scope,
    own: &mut Scope,
    marks: &mut Vec<usize>,
    number: usize,
    picks: &[Pick],
) -> Result<bool, NoMemory>
    requires names { typed.are_names (typed.names_of (fields.now ++ own.old)) ≡ true }
    requires marks { AreMarks store.now (fields.now ++ own.old) number marks.old.items }
    ensures told { IfOk result (λ b. b ≡ (typed.are_names (typed.names_of (typed.with_picks (fields.now ++ own.old) picks.now))
        && typed.are_picks store.now (fields.now ++ own.old) picks.now)) }
    ensures added { IfOk result (λ b. OnTrue b (own.new ≡ typed.with_picks own.old picks.now)) }
    ensures marks { IfOk result (λ b. OnTrue b (AreMarks store.now (fields.now ++ own.new) number marks.new.items)) }
{
    let mut left = picks;
    while let [pick, rest @ ..] = left {
        if !is_pick(alloc, store, fields, own, marks, number, pick)? {
            return Ok(false);
        }
        left = rest;
    }
    Ok(true)
}

// Whether an assignment's term has the sort of the field, and has its variables among those of two scopes.
fn is_assign(
    alloc: Global,
    store: &TermStore,
    sorts: &[Field],
    fields: &Scope,
    own: &Scope,
    marks: &mut Vec<usize>,
    number: usize,
    a: Assign,
) -> Result<bool, NoMemory>
    requires names { typed.are_names (typed.names_of (fields.now ++ own.now)) ≡ true }
    requires marks { AreMarks store.now (fields.now ++ own.now) number marks.old.items }
    ensures told { IfOk result (λ b. b ≡ typed.is_assign store.now (map typed.var_of sorts.now) (fields.now ++ own.now) a) }
    ensures marks { IfOk result (λ b. OnTrue b (AreMarks store.now (fields.now ++ own.now) number marks.new.items)) }
{
    let Some(field) = sorts.get(a.field as usize) else {
        return Ok(false);
    };
    is_term(alloc, store, fields, own, marks, number, field.sort, a.term)
}

fn are_assigns(
    alloc: Global,
    store: &TermStore,
    sorts: &[Field],
    fields: &Scope,
    own: &Scope,
    marks: &mut Vec<usize>,
    number: usize,
    body: &[Assign],
) -> Result<bool, NoMemory>
    requires names { typed.are_names (typed.names_of (fields.now ++ own.now)) ≡ true }
    requires marks { AreMarks store.now (fields.now ++ own.now) number marks.old.items }
    ensures told { IfOk result (λ b. b ≡ list_all (typed.is_assign store.now (map typed.var_of sorts.now) (fields.now ++ own.now)) body.now) }
    ensures marks { IfOk result (λ b. OnTrue b (AreMarks store.now (fields.now ++ own.now) number marks.new.items)) }
{
    for a in body {
        if !is_assign(alloc, store, sorts, fields, own, marks, number, *a)? {
            return Ok(false);
        }
    }
    Ok(true)
}

// Whether each field is assigned at most once.
fn assign_once(alloc: Global, body: &[Assign]) -> Result<bool, NoMemory>
    ensures { IfOk result (λ b. b ≡ typed.are_distinct (λ a b. nat_eq a.field b.field) body.now) }
{
    let mut assigned = IndexSet::new(alloc);
    let mut left = body;
    while let [first, rest @ ..] = left {
        if !assigned.insert(first.field)? {
            return Ok(false);
        }
        left = rest;
    }
    Ok(true)
}

/// Whether picks and assignments are typed over the variables of two scopes, of which the second then has the
/// picks too.
pub fn is_chosen_body(
    alloc: Global,
    store: &TermStore,
    sorts: &[Field],
    fields: &Scope,
    own: &mut Scope,
    marks: &mut Vec<usize>,
    number: usize,
    picks: &[Pick],
    body: &[Assign],
) -> Result<bool, NoMemory>
    requires names { typed.are_names (typed.names_of (fields.now ++ own.old)) ≡ true }
    requires marks { AreMarks store.now (fields.now ++ own.old) number marks.old.items }
    ensures told { IfOk result (λ b. b ≡ typed.is_chosen_body store.now (map typed.var_of sorts.now) (fields.now ++ own.old) picks.now body.now) }
    ensures added { IfOk result (λ b. OnTrue b (own.new ≡ typed.with_picks own.old picks.now)) }
    ensures marks { IfOk result (λ b. OnTrue b (AreMarks store.now (fields.now ++ own.new) number marks.new.items)) }
{
    if !are_picks(alloc, store, fields, own, marks, number, picks)? {
        return Ok(false);
    }
    if !are_assigns(alloc, store, sorts, fields, own, marks, number, body)? {
        return Ok(false);
    }
    assign_once(alloc, body)
}
