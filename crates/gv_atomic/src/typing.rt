//! Whether a specification is typed.

ghost use Rattle.std.specs.Prelude.{◌≡◌, true, ◌+◌, ◌<◌, ◌≤◌, [], ◌&&◌, ◌++◌, length, map, IfOk};
ghost use Rattle.std.specs.Bool.{OnTrue};
ghost use Rattle.std.specs.List.{list_all};
ghost use Rattle.gv_atomic.specs.Typed as typed;
ghost use Rattle.gv_atomic.specs.Marks.{AreMarks, AreBefore};

use crate::bodies::is_chosen_body;
use crate::closing::{is_reply, is_term};
use crate::names::{are_op_names, declare_fields, declare_params};
use crate::sorts::{is_field_sort, is_plain};
use crate::spec::{Assign, Field, Op, Pick};
use gv_base::NoMemory;
use gv_terms::{Scope, Sort, TermStore, Var};
use std::alloc::Global;

fn are_plain(params: &[Var]) -> bool
    ensures { result ≡ list_all (λ v. typed.is_plain v.sort) params.now }
{
    for param in params {
        if !is_plain(param.sort) {
            return false;
        }
    }
    true
}

// At most two disks, of 1 to 65,536 blocks.
fn are_disks(disks: u32, blocks: u32) -> bool
    ensures { result ≡ typed.are_disks disks blocks }
{
    (disks == 0 && blocks == 0) || (0 < disks && disks <= 2 && 0 < blocks && blocks <= 65536)
}

// The fields are the first scope, which has no variables.
fn are_fields(
    alloc: Global,
    store: &TermStore,
    marks: &mut Vec<usize>,
    fields: &[Field],
) -> Result<bool, NoMemory>
    requires marks { AreMarks store.now [] 1 marks.old.items }
    ensures told { IfOk result (λ b. b ≡ list_all (typed.is_field store.now) fields.now) }
    ensures marks { IfOk result (λ b. OnTrue b (AreBefore store.now 2 marks.new.items)) }
{
    let none = Scope::new(alloc);
    for field in fields {
        let sort = field.sort;
        if !is_field_sort(sort)
            || !is_term(alloc, store, &none, &none, marks, 1, sort, field.first)?
        {
            return Ok(false);
        }
    }
    Ok(true)
}

// Whether the parameters have plain sorts and new names, which are then the second scope, and the condition
// speaks of them alone.
fn is_head(
    alloc: Global,
    store: &TermStore,
    fields: &Scope,
    own: &mut Scope,
    marks: &mut Vec<usize>,
    number: usize,
    op: &Op,
) -> Result<bool, NoMemory>
    requires names { typed.are_names (typed.names_of fields.now) ≡ true }
    requires own { own.old ≡ [] }
    requires marks { AreBefore store.now number marks.old.items }
    ensures told { IfOk result (λ b. b ≡ typed.is_head store.now fields.now op.now) }
    ensures added { IfOk result (λ b. OnTrue b (own.new ≡ op.now.params)) }
    ensures marks { IfOk result (λ b. OnTrue b (AreMarks store.now (fields.now ++ op.now.params) number marks.new.items)) }
{
    let none = Scope::new(alloc);
    let params = op.params.as_slice();
    if !are_plain(params) || !declare_params(alloc, fields, own, params)? {
        return Ok(false);
    }
    is_term(
        alloc,
        store,
        &none,
        own,
        marks,
        number,
        Sort::Bool,
        op.allowed,
    )
}

fn is_op(
    alloc: Global,
    store: &TermStore,
    sorts: &[Field],
    fields: &Scope,
    marks: &mut Vec<usize>,
    number: usize,
    op: &Op,
) -> Result<bool, NoMemory>
    requires names { typed.are_names (typed.names_of fields.now) ≡ true }
    requires sorts { fields.now ≡ map typed.var_of sorts.now }
    requires marks { AreBefore store.now number marks.old.items }
    ensures told { IfOk result (λ b. b ≡ typed.is_op store.now fields.now op.now) }
    ensures marks { IfOk result (λ b. OnTrue b (AreBefore store.now (number + 1) marks.new.items)) }
{
    let mut own = Scope::new(alloc);
    if !is_head(alloc, store, fields, &mut own, marks, number, op)? {
        return Ok(false);
    }
    let picks = op.picks.as_slice();
    let body = op.body.as_slice();
    if !is_chosen_body(
        alloc, store, sorts, fields, &mut own, marks, number, picks, body,
    )? {
        return Ok(false);
    }
    is_reply(alloc, store, fields, &own, marks, number, op.reply)
}

// Each operation is a scope of its own, numbered from 2 on.
fn are_ops(
    alloc: Global,
    store: &TermStore,
    sorts: &[Field],
    fields: &Scope,
    marks: &mut Vec<usize>,
    ops: &[Op],
) -> Result<bool, NoMemory>
    requires names { typed.are_names (typed.names_of fields.now) ≡ true }
    requires sorts { fields.now ≡ map typed.var_of sorts.now }
    requires marks { AreBefore store.now 2 marks.old.items }
    ensures told { IfOk result (λ b. b ≡ list_all (typed.is_op store.now fields.now) ops.now) }
    ensures marks { IfOk result (λ b. OnTrue b (AreBefore store.now (length ops.now + 2) marks.new.items)) }
{
    for i in 0..ops.len() {
        if !is_op(alloc, store, sorts, fields, marks, i + 2, &ops[i])? {
            return Ok(false);
        }
    }
    Ok(true)
}

// The crash is the last scope.
fn is_crash(
    alloc: Global,
    store: &TermStore,
    sorts: &[Field],
    fields: &Scope,
    marks: &mut Vec<usize>,
    number: usize,
    picks: &[Pick],
    body: &[Assign],
) -> Result<bool, NoMemory>
    requires names { typed.are_names (typed.names_of fields.now) ≡ true }
    requires marks { AreBefore store.now number marks.old.items }
    ensures { IfOk result (λ b. b ≡ typed.is_chosen_body store.now (map typed.var_of sorts.now) fields.now picks.now body.now) }
{
    let mut own = Scope::new(alloc);
    is_chosen_body(
        alloc, store, sorts, fields, &mut own, marks, number, picks, body,
    )
}

// The operations and the crash, over the fields.
fn are_bodies(
    alloc: Global,
    store: &TermStore,
    sorts: &[Field],
    fields: &Scope,
    marks: &mut Vec<usize>,
    ops: &[Op],
    picks: &[Pick],
    crash: &[Assign],
) -> Result<bool, NoMemory>
    requires names { typed.are_names (typed.names_of fields.now) ≡ true }
    requires sorts { fields.now ≡ map typed.var_of sorts.now }
    requires marks { AreBefore store.now 2 marks.old.items }
    ensures { IfOk result (λ b. b ≡ (list_all (typed.is_op store.now fields.now) ops.now
        && typed.is_chosen_body store.now fields.now fields.now picks.now crash.now)) }
{
    if !are_ops(alloc, store, sorts, fields, marks, ops)? {
        return Ok(false);
    }
    let last = ops.len() + 2;
    is_crash(alloc, store, sorts, fields, marks, last, picks, crash)
}

/// Whether these parts make a typed specification.
pub fn is_typed(
    alloc: Global,
    disks: u32,
    blocks: u32,
    fields: &[Field],
    ops: &[Op],
    crash_picks: &[Pick],
    crash: &[Assign],
    store: &TermStore,
) -> Result<bool, NoMemory>
    ensures { IfOk result (λ b. b ≡ typed.is_typed disks blocks fields.now ops.now crash_picks.now crash.now store.now) }
{
    let mut marks = vec![in alloc; 0usize; store.len()]?;
    let mut scope = Scope::new(alloc);
    if !are_disks(disks, blocks) || !are_fields(alloc, store, &mut marks, fields)? {
        return Ok(false);
    }
    if !declare_fields(alloc, &mut scope, fields)? || !are_op_names(alloc, ops)? {
        return Ok(false);
    }
    are_bodies(
        alloc,
        store,
        fields,
        &scope,
        &mut marks,
        ops,
        crash_picks,
        crash,
    )
}
