//! Operations.

ghost use Rattle.std.specs.Prelude.{◌≡◌, None, [], take, option_map, IfOk, OnOk};
ghost use Rattle.gv_terms.specs.Store.{Grows};
ghost use Rattle.gv_specs.specs.Faults.{HasAllowedFault, HasOpFault, HasReturnsFault};
ghost use Rattle.gv_specs.specs.FieldTable.{entry_in};
ghost use Rattle.gv_specs.specs.Names.{op_var, with_ops, with_var, with_vars};
ghost use Rattle.gv_specs.specs.Spelled.{IsAllowed, IsOp};
ghost use Rattle.gv_specs.specs.Told.{Adds, AreEach, HasItemFault};

use crate::bodies::read_body;
use crate::field_table::FieldTable;
use crate::names::declare;
use crate::params::{read_params, scope_of};
use crate::terms::{make_true, read_term};
use crate::told::want;
use gv_atomic::{Op, Var, is_plain};
use gv_base::{Code, List, NoMemory};
use gv_specread::{OpTree, PlacedSort};
use gv_termread::PlacedTerm;
use gv_terms::{Scope, Sort, Term, TermStore};
use gv_typing::Fault;
use std::alloc::Global;

// The sort that replies have, where there are any.
fn read_returns(returns: Option<PlacedSort>, first: &mut Option<Fault>) -> Option<Sort>
    ensures read { result ≡ option_map (λ s. s.sort) returns }
    ensures noted { Adds (HasReturnsFault returns) first.old first.new }
{
    match returns {
        Some(placed) => {
            want(is_plain(placed.sort), first, placed.start, Code::WrongType);
            Some(placed.sort)
        }
        None => None,
    }
}

// The condition of a text on the parameters; where there is none, all arguments are allowed.
fn read_allowed(
    alloc: Global,
    store: &mut TermStore,
    params: &[Var],
    tree: &Option<PlacedTerm>,
    first: &mut Option<Fault>,
) -> Result<Term, NoMemory>
    ensures noted { OnOk result (Adds (HasAllowedFault (with_vars [] params.now) tree.now) first.old first.new) }
    ensures read { IfOk result (λ t. first.new ≡ None → IsAllowed store.new (with_vars [] params.now) tree.now t) }
    ensures grows { Grows store.old store.new }
{
    match tree {
        Some(term) => {
            let vars = scope_of(alloc, params)?;
            read_term(alloc, store, &vars, Sort::Bool, term, first)
        }
        None => make_true(alloc, store),
    }
}

// The operation of a text behind those before it.
fn read_op(
    alloc: Global,
    text: &[u8],
    store: &mut TermStore,
    table: &FieldTable,
    vars: &mut Scope,
    names: &mut Scope,
    tree: &OpTree,
    first: &mut Option<Fault>,
) -> Result<Op, NoMemory>
    ensures noted { OnOk result (Adds (HasOpFault text.now (entry_in table.now) vars.old names.old tree.now) first.old first.new) }
    ensures read { IfOk result (λ o. first.new ≡ None → IsOp text.now store.new (entry_in table.now) vars.old tree.now o) }
    ensures scope { OnOk result (vars.new ≡ vars.old) }
    ensures names { OnOk result (names.new ≡ with_var names.old (op_var text.now tree.now)) }
    ensures grows { Grows store.old store.new }
{
    let fields = vars.len();
    let name = declare(alloc, text, names, tree.name, Sort::Word, first)?;
    let trees = tree.params.as_slice();
    let params = read_params(alloc, text, vars, trees, first)?;
    let wanted = read_returns(tree.returns, first);
    let allowed = read_allowed(alloc, store, params.as_slice(), &tree.allowed, first)?;
    let body = read_body(alloc, text, store, table, vars, wanted, &tree.body, first)?;
    vars.truncate(fields);
    Ok(Op {
        name,
        params: List::from_vec(params),
        allowed,
        picks: body.picks,
        body: body.assigns,
        reply: body.reply,
    })
}

/// The operations of a text over fields, which are the variables.
pub fn read_ops(
    alloc: Global,
    text: &[u8],
    store: &mut TermStore,
    table: &FieldTable,
    vars: &mut Scope,
    trees: &[OpTree],
    first: &mut Option<Fault>,
) -> Result<Vec<Op>, NoMemory>
    ensures noted { OnOk result (Adds
        (HasItemFault (λ i o. HasOpFault text.now (entry_in table.now) vars.old (with_ops text.now [] (take i trees.now)) o) trees.now)
        first.old first.new) }
    ensures read { IfOk result (λ ops. first.new ≡ None
        → AreEach (λ i t o. IsOp text.now store.new (entry_in table.now) vars.old t o) trees.now ops.items) }
    ensures scope { OnOk result (vars.new ≡ vars.old) }
    ensures grows { Grows store.old store.new }
{
    let mut names = Scope::new(alloc);
    let mut ops = Vec::new(alloc);
    for tree in trees {
        let op = read_op(alloc, text, store, table, vars, &mut names, tree, first)?;
        ops.push(op)?;
    }
    Ok(ops)
}
