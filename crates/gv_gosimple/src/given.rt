//! Types that new variables get.

ghost use Rattle.std.specs.Prelude.{◌≡◌, List as Seq, length, Some, IfOk};
ghost use Rattle.gv_gosyntax.specs.declared.generated.gosyntax_acts.Part.TheVariants.{Right as PRight};
ghost use Rattle.gv_gosyntax.specs.declared.tree.Right.{Right as AnyRight};
ghost use Rattle.gv_gosyntax.specs.Nodes as tree;
ghost use Rattle.gv_gonodes.specs.Right.{IsSomeRight};
ghost use Rattle.gv_operands.specs.Types as types;
ghost use Rattle.gv_gotypes.specs.Assigning as spec;
ghost use Rattle.gv_gotypes.specs.Trees.{Expr as PlainExpr, right_of};
ghost use Rattle.gv_gocalls.specs.Answers.{results_of};
ghost use Rattle.gv_gosimple.specs.Given.{padded};

use crate::rights::map_read_at;
use gv_base::NoMemory;
use gv_gocalls::{Results, answer_at};
use gv_gonodes::{RightNode, right_node};
use gv_goscopes::Scopes;
use gv_gosyntax::Node;
use gv_gotyped::in_place;
use gv_gowalk::operand_at;
use gv_operands::{Class, GoType, Part, Want, own_type};
use std::alloc::Global;

fn own_type_of(class: Option<Class>) -> Option<GoType>
    ensures { result ≡ types.own_type_of class }
{
    match class {
        Some(class) => own_type(class),
        None => None,
    }
}

// The type that a new variable gets of an operand.
fn settled(part: Part) -> Option<GoType>
    ensures { result ≡ spec.settled part.spot part.class }
{
    match in_place(part, Want::AnyTyped) {
        Some(_) => None,
        None => own_type_of(part.class),
    }
}

// So many types, or none that is known.
fn types_for(
    alloc: Global,
    kinds: &[Option<GoType>],
    count: usize,
) -> Result<Vec<Option<GoType>>, NoMemory>
    ensures { (es : Seq PlainExpr) → count ≡ length es → IfOk result (λ given. padded es given.items ≡ spec.types_for es (Some kinds.now)) }
{
    if kinds.len() != count {
        return Ok(Vec::new(alloc));
    }
    let given = Vec::from_slice(alloc, kinds)?;
    Ok(given)
}

fn results_types(
    alloc: Global,
    results: Results<'_>,
    count: usize,
) -> Result<Vec<Option<GoType>>, NoMemory>
    ensures { (es : Seq PlainExpr) → count ≡ length es → IfOk result (λ given. padded es given.items ≡ spec.types_for es (results_of results.entry)) }
{
    match results {
        Results::Unknown => Ok(Vec::new(alloc)),
        Results::Nothing => types_for(alloc, &[], count),
        Results::One(kind) => types_for(alloc, &[kind], count),
        Results::Of(kinds) => types_for(alloc, kinds, count),
    }
}

fn read_types(
    alloc: Global,
    read: Option<bool>,
    count: usize,
) -> Result<Vec<Option<GoType>>, NoMemory>
    ensures { (es : Seq PlainExpr) → count ≡ length es → IfOk result (λ given. padded es given.items ≡ spec.types_for es (spec.read_types read)) }
{
    match read {
        Some(read) => {
            if read {
                types_for(alloc, &[Some(GoType::Word), Some(GoType::Boolean)], count)
            } else {
                Ok(Vec::new(alloc))
            }
        }
        None => Ok(Vec::new(alloc)),
    }
}

/// The types that so many new variables get of the right side whose node is at a place, in order; those that are left have none.
pub(crate) fn given_at<N: Scopes>(
    alloc: Global,
    names: &N,
    nodes: &[Node],
    at: usize,
    count: usize,
) -> Result<Vec<Option<GoType>>, NoMemory>
    requires formed { tree.IsFormed nodes.now }
    requires some { IsSomeRight nodes.now at }
    ensures { (r : AnyRight) (es : Seq PlainExpr) → tree.IsPartAt nodes.now at (PRight r) → count ≡ length es
        → IfOk result (λ given. padded es given.items ≡ spec.given_types (N.env names.now) es (right_of r)) }
{
    match right_node(nodes, at) {
        RightNode::Value { value } => {
            if count == 1 {
                let known = operand_at(names, nodes, value);
                types_for(alloc, &[settled(known.part)], count)
            } else {
                read_types(alloc, map_read_at(names, nodes, value), count)
            }
        }
        RightNode::Result { result } => {
            let answer = answer_at(alloc, names, nodes, result)?;
            results_types(alloc, answer.results, count)
        }
    }
}
