//! Bodies of operations and of the crash.

ghost use Rattle.std.specs.Prelude.{◌≡◌, ◌∷◌, ◌++◌, ◌||◌, ℕ, List as Seq, None, Some, [], not, take, IfOk, IfSome, OnOk};
ghost use Rattle.std.specs.HashSet.{contains};
ghost use Rattle.std.specs.Str.{bytes_eq};
ghost use Rattle.gv_base.specs.declared.answers.Code.TheVariants as code;
ghost use Rattle.gv_specread.specs.declared.tree.AssignTree.{AssignTree as AnyAssign};
ghost use Rattle.gv_terms.specs.Store.{Grows};
ghost use Rattle.gv_specs.specs.Bodies.{AreAssigned, HasAssignedFault, IsMadeBody, IsUndeclared};
ghost use Rattle.gv_specs.specs.Faults.{HasAssignFault, HasBodyFault, HasPickFault, HasReplyFault};
ghost use Rattle.gv_specs.specs.FieldTable.{entry_in};
ghost use Rattle.gv_specs.specs.Names.{pick_var, with_picks, with_var};
ghost use Rattle.gv_specs.specs.Spelled.{IsAssign, IsPick, IsReply, IsTermOf};
ghost use Rattle.gv_specs.specs.Told.{Adds, AreEach, HasItemFault, IsFaultUnless};

use crate::field_table::{FieldTable, NumberedSort};
use crate::names::{declare, name_of};
use crate::terms::{NOTHING, nothing, read_term};
use crate::told::{note, want};
use gv_atomic::{Assign, Pick};
use gv_base::{Code, List, Name, NoMemory};
use gv_specread::{AssignTree, BodyTree, PickTree, ReplyTree};
use gv_termread::PlacedTerm;
use gv_terms::{Scope, Sort, Term, TermStore};
use gv_typing::Fault;
use std::alloc::Global;
use std::collections::HashSet;

/// What a body picks, assigns and replies.
#[derive(Drop)]
pub struct Body {
    pub picks: List<Pick>,
    pub assigns: List<Assign>,
    pub reply: Option<Term>,
}

// The pick of a text behind the variables before it.
fn read_pick(
    alloc: Global,
    text: &[u8],
    store: &mut TermStore,
    vars: &mut Scope,
    tree: &PickTree,
    first: &mut Option<Fault>,
) -> Result<Pick, NoMemory>
    ensures noted { OnOk result (Adds (HasPickFault text.now vars.old tree.now) first.old first.new) }
    ensures read { IfOk result (λ p. first.new ≡ None → IsPick text.now store.new vars.old tree.now p) }
    ensures scope { OnOk result (vars.new ≡ with_var vars.old (pick_var text.now tree.now)) }
    ensures grows { Grows store.old store.new }
{
    let bound = read_term(alloc, store, vars, Sort::Word, &tree.bound, first)?;
    let name = declare(alloc, text, vars, tree.name, Sort::Word, first)?;
    Ok(Pick { name, bound })
}

// The picks of a text, which are then variables beside those before them.
fn read_picks(
    alloc: Global,
    text: &[u8],
    store: &mut TermStore,
    vars: &mut Scope,
    trees: &[PickTree],
    first: &mut Option<Fault>,
) -> Result<Vec<Pick>, NoMemory>
    ensures noted { OnOk result (Adds
        (HasItemFault (λ i p. HasPickFault text.now (with_picks text.now vars.old (take i trees.now)) p) trees.now) first.old first.new) }
    ensures read { IfOk result (λ picks. first.new ≡ None
        → AreEach (λ i t p. IsPick text.now store.new (with_picks text.now vars.old (take i trees.now)) t p) trees.now picks.items) }
    ensures scope { OnOk result (vars.new ≡ with_picks text.now vars.old trees.now) }
    ensures grows { Grows store.old store.new }
{
    let mut picks = Vec::new(alloc);
    for tree in trees {
        let pick = read_pick(alloc, text, store, vars, tree, first)?;
        picks.push(pick)?;
    }
    Ok(picks)
}

// The field that a name is to be assigned to, where it is one.
fn target(
    table: &FieldTable,
    name: &Name,
    start: u32,
    first: &mut Option<Fault>,
) -> Option<NumberedSort>
    ensures found { result ≡ entry_in table.now name.now }
    ensures noted { Adds (IsUndeclared (entry_in table.now name.now) start) first.old first.new }
{
    let entry = table.entry(name);
    want(entry.is_some(), first, start, Code::Undeclared);
    entry
}

// Keeps a name that is assigned; one that was assigned before is `Twice`.
fn keep_assigned(
    assigned: &mut HashSet<Name>,
    name: Name,
    start: u32,
    first: &mut Option<Fault>,
) -> Result<(), NoMemory>
    ensures noted { OnOk result (Adds (IsFaultUnless (not (contains bytes_eq assigned.old name)) start code.Twice) first.old first.new) }
    ensures kept { OnOk result ((n : Seq ℕ) → contains bytes_eq assigned.new n ≡ (contains bytes_eq assigned.old n || bytes_eq n name)) }
{
    let new = assigned.insert(name)?;
    want(new, first, start, Code::Twice);
    Ok(())
}

// The assignment of a term to a field, which must have the field's sort.
fn read_assigned(
    alloc: Global,
    store: &mut TermStore,
    vars: &Scope,
    entry: Option<NumberedSort>,
    term: &PlacedTerm,
    first: &mut Option<Fault>,
) -> Result<Assign, NoMemory>
    ensures noted { OnOk result (Adds (HasAssignedFault vars.now entry term.now) first.old first.new) }
    ensures read { IfOk result (λ a. first.new ≡ None → IfSome entry (λ e. (a.field ≡ e.number) × IsTermOf store.new vars.now term.now a.term)) }
    ensures grows { Grows store.old store.new }
{
    match entry {
        Some(entry) => Ok(Assign {
            field: entry.number,
            term: read_term(alloc, store, vars, entry.sort, term, first)?,
        }),
        None => Ok(Assign {
            field: NOTHING,
            term: nothing(),
        }),
    }
}

// The assignment of a text in a body in which names were assigned before.
fn read_assign(
    alloc: Global,
    text: &[u8],
    store: &mut TermStore,
    table: &FieldTable,
    vars: &Scope,
    assigned: &mut HashSet<Name>,
    tree: &AssignTree,
    first: &mut Option<Fault>,
) -> Result<Assign, NoMemory>
    ensures noted { (before : Seq AnyAssign) → AreAssigned text.now before assigned.old
        → OnOk result (Adds (HasAssignFault text.now (entry_in table.now) vars.now before tree.now) first.old first.new) }
    ensures kept { (before : Seq AnyAssign) → AreAssigned text.now before assigned.old
        → OnOk result (AreAssigned text.now (before ++ tree.now ∷ []) assigned.new) }
    ensures read { IfOk result (λ a. first.new ≡ None → IsAssign text.now store.new (entry_in table.now) vars.now tree.now a) }
    ensures grows { Grows store.old store.new }
{
    let name = name_of(alloc, text, tree.name)?;
    let entry = target(table, &name, tree.name.start, first);
    keep_assigned(assigned, name, tree.name.start, first)?;
    read_assigned(alloc, store, vars, entry, &tree.term, first)
}

// The assignments of a text.
fn read_assigns(
    alloc: Global,
    text: &[u8],
    store: &mut TermStore,
    table: &FieldTable,
    vars: &Scope,
    trees: &[AssignTree],
    first: &mut Option<Fault>,
) -> Result<Vec<Assign>, NoMemory>
    ensures noted { OnOk result (Adds
        (HasItemFault (λ i a. HasAssignFault text.now (entry_in table.now) vars.now (take i trees.now) a) trees.now) first.old first.new) }
    ensures read { IfOk result (λ assigns. first.new ≡ None
        → AreEach (λ i t a. IsAssign text.now store.new (entry_in table.now) vars.now t a) trees.now assigns.items) }
    ensures grows { Grows store.old store.new }
{
    let mut assigned = HashSet::new(alloc);
    let mut assigns = Vec::new(alloc);
    for tree in trees {
        let assign = read_assign(alloc, text, store, table, vars, &mut assigned, tree, first)?;
        assigns.push(assign)?;
    }
    Ok(assigns)
}

// The reply of a text, where one of a sort is wanted.
fn read_some_reply(
    alloc: Global,
    store: &mut TermStore,
    vars: &Scope,
    wanted: Option<Sort>,
    start: u32,
    reply: &ReplyTree,
    first: &mut Option<Fault>,
) -> Result<Option<Term>, NoMemory>
    ensures noted { OnOk result (Adds (HasReplyFault vars.now wanted start (Some reply.now)) first.old first.new) }
    ensures read { IfOk result (λ r. first.new ≡ None → IsReply store.new vars.now (Some reply.now) r) }
    ensures grows { Grows store.old store.new }
{
    match wanted {
        Some(sort) => {
            let term = read_term(alloc, store, vars, sort, &reply.term, first)?;
            Ok(Some(term))
        }
        None => {
            note(first, start, Code::WrongCount);
            Ok(None)
        }
    }
}

// The reply of a text, where one of a sort is wanted, and no reply, where none is.
fn read_reply(
    alloc: Global,
    store: &mut TermStore,
    vars: &Scope,
    wanted: Option<Sort>,
    start: u32,
    tree: &Option<ReplyTree>,
    first: &mut Option<Fault>,
) -> Result<Option<Term>, NoMemory>
    ensures noted { OnOk result (Adds (HasReplyFault vars.now wanted start tree.now) first.old first.new) }
    ensures read { IfOk result (λ r. first.new ≡ None → IsReply store.new vars.now tree.now r) }
    ensures grows { Grows store.old store.new }
{
    match tree {
        Some(reply) => read_some_reply(alloc, store, vars, wanted, start, reply, first),
        None => {
            want(wanted.is_none(), first, start, Code::WrongCount);
            Ok(None)
        }
    }
}

/// The body of a text behind the variables before its picks, which are then variables too. Where a reply of a sort is
/// wanted, it must have one.
pub fn read_body(
    alloc: Global,
    text: &[u8],
    store: &mut TermStore,
    table: &FieldTable,
    vars: &mut Scope,
    wanted: Option<Sort>,
    tree: &BodyTree,
    first: &mut Option<Fault>,
) -> Result<Body, NoMemory>
    ensures noted { OnOk result (Adds (HasBodyFault text.now (entry_in table.now) vars.old wanted tree.now) first.old first.new) }
    ensures read { IfOk result (λ b. first.new ≡ None → IsMadeBody text.now store.new (entry_in table.now) vars.old tree.now b) }
    ensures scope { OnOk result (vars.new ≡ with_picks text.now vars.old tree.now.picks) }
    ensures grows { Grows store.old store.new }
{
    let choices = tree.picks.as_slice();
    let picks = read_picks(alloc, text, store, vars, choices, first)?;
    let targets = tree.assigns.as_slice();
    let assigns = read_assigns(alloc, text, store, table, vars, targets, first)?;
    let reply = read_reply(alloc, store, vars, wanted, tree.start, &tree.reply, first)?;
    Ok(Body {
        picks: List::from_vec(picks),
        assigns: List::from_vec(assigns),
        reply,
    })
}
