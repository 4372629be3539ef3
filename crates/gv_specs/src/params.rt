//! Parameters.

ghost use Rattle.std.specs.Prelude.{◌≡◌, [], take, map, IfOk, OnOk};
ghost use Rattle.gv_specs.specs.Faults.{HasParamFault};
ghost use Rattle.gv_specs.specs.Names.{param_var, with_params, with_var, with_vars};
ghost use Rattle.gv_specs.specs.Told.{Adds, HasItemFault};

use crate::names::{add_new, declare};
use crate::told::want;
use gv_atomic::{Var, is_plain};
use gv_base::{Code, NoMemory};
use gv_specread::ParamTree;
use gv_terms::Scope;
use gv_typing::Fault;
use std::alloc::Global;

// The parameter of a text behind the variables before it.
fn read_param(
    alloc: Global,
    text: &[u8],
    vars: &mut Scope,
    tree: ParamTree,
    first: &mut Option<Fault>,
) -> Result<Var, NoMemory>
    ensures noted { OnOk result (Adds (HasParamFault text.now vars.old tree) first.old first.new) }
    ensures read { IfOk result (λ v. v ≡ param_var text.now tree) }
    ensures scope { OnOk result (vars.new ≡ with_var vars.old (param_var text.now tree)) }
{
    let sort = tree.sort.sort;
    let name = declare(alloc, text, vars, tree.name, sort, first)?;
    want(is_plain(sort), first, tree.sort.start, Code::WrongType);
    Ok(Var { name, sort })
}

/// The parameters of a text, which are then variables beside those before them.
pub fn read_params(
    alloc: Global,
    text: &[u8],
    vars: &mut Scope,
    trees: &[ParamTree],
    first: &mut Option<Fault>,
) -> Result<Vec<Var>, NoMemory>
    ensures noted { OnOk result (Adds
        (HasItemFault (λ i p. HasParamFault text.now (with_params text.now vars.old (take i trees.now)) p) trees.now) first.old first.new) }
    ensures read { IfOk result (λ params. params.items ≡ map (param_var text.now) trees.now) }
    ensures scope { OnOk result (vars.new ≡ with_params text.now vars.old trees.now) }
{
    let mut params = Vec::new(alloc);
    for tree in trees {
        let param = read_param(alloc, text, vars, *tree, first)?;
        params.push(param)?;
    }
    Ok(params)
}

/// Parameters as the only variables.
pub fn scope_of(alloc: Global, params: &[Var]) -> Result<Scope, NoMemory>
    ensures { IfOk result (λ vars. vars ≡ with_vars [] params.now) }
{
    let mut vars = Scope::new(alloc);
    for param in params {
        add_new(alloc, &mut vars, &param.name, param.sort)?;
    }
    Ok(vars)
}
