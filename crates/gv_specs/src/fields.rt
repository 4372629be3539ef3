//! Fields.

ghost use Rattle.std.specs.Prelude.{◌≡◌, None, [], take, IfOk, OnOk};
ghost use Rattle.gv_terms.specs.Store.{Grows};
ghost use Rattle.gv_specs.specs.Faults.{HasFieldFault};
ghost use Rattle.gv_specs.specs.Names.{field_var, with_fields, with_var};
ghost use Rattle.gv_specs.specs.Spelled.{IsField};
ghost use Rattle.gv_specs.specs.Told.{Adds, AreEach, HasItemFault};

use crate::names::declare;
use crate::terms::read_term;
use crate::told::want;
use gv_atomic::{Field, is_field_sort};
use gv_base::{Code, NoMemory};
use gv_specread::FieldTree;
use gv_terms::{Scope, TermStore};
use gv_typing::Fault;
use std::alloc::Global;

// The field of a text behind those before it.
fn read_field(
    alloc: Global,
    text: &[u8],
    store: &mut TermStore,
    vars: &mut Scope,
    tree: &FieldTree,
    first: &mut Option<Fault>,
) -> Result<Field, NoMemory>
    ensures noted { OnOk result (Adds (HasFieldFault text.now vars.old tree.now) first.old first.new) }
    ensures read { IfOk result (λ f. first.new ≡ None → IsField text.now store.new tree.now f) }
    ensures scope { OnOk result (vars.new ≡ with_var vars.old (field_var text.now tree.now)) }
    ensures grows { Grows store.old store.new }
{
    let sort = tree.sort.sort;
    let name = declare(alloc, text, vars, tree.name, sort, first)?;
    want(is_field_sort(sort), first, tree.sort.start, Code::WrongType);
    let none = Scope::new(alloc);
    let value = read_term(alloc, store, &none, sort, &tree.first, first)?;
    Ok(Field {
        name,
        sort,
        leased: tree.leased,
        first: value,
    })
}

/// The fields of a text, which are then the variables.
pub fn read_fields(
    alloc: Global,
    text: &[u8],
    store: &mut TermStore,
    vars: &mut Scope,
    trees: &[FieldTree],
    first: &mut Option<Fault>,
) -> Result<Vec<Field>, NoMemory>
    requires { vars.old ≡ [] }
    ensures noted { OnOk result (Adds
        (HasItemFault (λ i f. HasFieldFault text.now (with_fields text.now [] (take i trees.now)) f) trees.now) first.old first.new) }
    ensures read { IfOk result (λ fields. first.new ≡ None → AreEach (λ i t f. IsField text.now store.new t f) trees.now fields.items) }
    ensures scope { OnOk result (vars.new ≡ with_fields text.now [] trees.now) }
    ensures grows { Grows store.old store.new }
{
    let mut fields = Vec::new(alloc);
    for tree in trees {
        let field = read_field(alloc, text, store, vars, tree, first)?;
        fields.push(field)?;
    }
    Ok(fields)
}
