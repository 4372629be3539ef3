//! Names that are distinct, and none of them a constant of terms.

ghost use Rattle.std.specs.Prelude.{◌≡◌, true, [], ◌∷◌, ◌++◌, map, IfOk};
ghost use Rattle.std.specs.Bool.{OnTrue};
ghost use Rattle.gv_terms.specs.Scopes.{sort_under};
ghost use Rattle.gv_atomic.specs.Typed as typed;
ghost use Rattle.gv_atomic.specs.Marks.{is_new};

use crate::spec::{Field, Op};
use gv_base::{Name, NoMemory};
use gv_terms::{Scope, Sort, Var};
use std::alloc::Global;

fn differs(name: &[u8], word: &[u8]) -> bool
    ensures { result ≡ typed.differs name.now word.now }
{
    name != word
}

/// Whether the word is no constant of terms.
pub fn is_free(name: &[u8]) -> bool
    ensures { result ≡ typed.is_free name.now }
{
    differs(name, b"true")
        && differs(name, b"false")
        && differs(name, b"nil")
        && differs(name, b"nilslice")
        && differs(name, b"nocall")
        && differs(name, b"mapww")
        && differs(name, b"mapwb")
}

/// The sort of a name in two scopes, of which the first counts first.
pub fn sort_in(fields: &Scope, own: &Scope, name: &Name) -> Option<Sort>
    ensures { result ≡ sort_under (fields.now ++ own.now) name.now }
{
    match fields.sort_of(name) {
        Some(sort) => Some(sort),
        None => own.sort_of(name),
    }
}

/// Adds a variable to the second scope, where its name is no constant and stands in neither.
pub fn declare(
    alloc: Global,
    fields: &Scope,
    own: &mut Scope,
    name: &Name,
    sort: Sort,
) -> Result<bool, NoMemory>
    ensures told { IfOk result (λ b. b ≡ is_new (typed.names_of (fields.now ++ own.old)) name.now) }
    ensures added { IfOk result (λ b. OnTrue b (own.new ≡ own.old ++ (record { name = name.now; sort = sort }) ∷ [])) }
{
    if !is_free(name.as_slice()) || sort_in(fields, own, name).is_some() {
        return Ok(false);
    }
    own.declare(name.copy(alloc)?, sort)
}

/// Adds parameters to the second scope, where all names are then distinct and none is a constant.
pub fn declare_params(
    alloc: Global,
    fields: &Scope,
    own: &mut Scope,
    params: &[Var],
) -> Result<bool, NoMemory>
    requires { typed.are_names (typed.names_of (fields.now ++ own.old)) ≡ true }
    ensures told { IfOk result (λ b. b ≡ typed.are_names (typed.names_of (fields.now ++ (own.old ++ params.now)))) }
    ensures added { IfOk result (λ b. OnTrue b (own.new ≡ own.old ++ params.now)) }
{
    let mut left = params;
    while let [param, rest @ ..] = left {
        if !declare(alloc, fields, own, &param.name, param.sort)? {
            return Ok(false);
        }
        left = rest;
    }
    Ok(true)
}

/// Adds fields to a scope, where all names are then distinct and none is a constant.
pub fn declare_fields(alloc: Global, own: &mut Scope, fields: &[Field]) -> Result<bool, NoMemory>
    requires { typed.are_names (typed.names_of own.old) ≡ true }
    ensures told { IfOk result (λ b. b ≡ typed.are_names (typed.names_of (own.old ++ map typed.var_of fields.now))) }
    ensures added { IfOk result (λ b. OnTrue b (own.new ≡ own.old ++ map typed.var_of fields.now)) }
{
    let none = Scope::new(alloc);
    let mut left = fields;
    while let [field, rest @ ..] = left {
        if !declare(alloc, &none, own, &field.name, field.sort)? {
            return Ok(false);
        }
        left = rest;
    }
    Ok(true)
}

/// Whether the names of operations are distinct and none is a constant.
pub fn are_op_names(alloc: Global, ops: &[Op]) -> Result<bool, NoMemory>
    ensures { IfOk result (λ b. b ≡ typed.are_names (map (λ o. o.name) ops.now)) }
{
    let none = Scope::new(alloc);
    let mut names = Scope::new(alloc);
    let mut left = ops;
    while let [op, rest @ ..] = left {
        if !declare(alloc, &none, &mut names, &op.name, Sort::Word)? {
            return Ok(false);
        }
        left = rest;
    }
    Ok(true)
}
