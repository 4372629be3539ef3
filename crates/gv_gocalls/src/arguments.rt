//! Arguments of calls.

ghost use Rattle.std.specs.Prelude.{◌≡◌, List as Seq, length, map, slice_get};
ghost use Rattle.gv_gosyntax.specs.declared.generated.gosyntax_acts.Part.TheVariants.{Exprs as PExprs};
ghost use Rattle.gv_gosyntax.specs.declared.tree.Expr.{Expr as AnyExpr};
ghost use Rattle.gv_gosyntax.specs.Nodes as tree;
ghost use Rattle.gv_gonodes.specs.Exprs.{IsSomeExprs};
ghost use Rattle.gv_gotypes.specs.Calls as spec;
ghost use Rattle.gv_gotypes.specs.Trees.{expr_of};
ghost use Rattle.gv_gotyped.specs.First.{first_of};
ghost use Rattle.gv_gocalls.specs.Lists.{want_in};

use crate::made::want_of;
use gv_gonodes::{ExprsNode, exprs_node};
use gv_gosyntax::Node;
use gv_gotyped::{Fault, earliest};
use gv_gowalk::{Names, placed_at};
use gv_operands::{GoType, Want};

/// How many operands the list has whose node is at a place.
pub fn count_at(nodes: &[Node], at: usize) -> usize
    requires formed { tree.IsFormed nodes.now }
    requires some { IsSomeExprs nodes.now at }
    ensures { (es : Seq AnyExpr) → tree.IsPartAt nodes.now at (PExprs es) → result ≡ length es }
{
    let mut place = at;
    let mut count = 0;
    loop {
        match exprs_node(nodes, place) {
            ExprsNode::NoExprs => return count,
            ExprsNode::Expr { exprs, last: _ } => {
                count += 1;
                place = exprs;
            }
            ExprsNode::PastExprs { exprs } => place = exprs,
            ExprsNode::Left { left: _ } => return count + 1,
        }
    }
}

// What the parameter with a number wants: nothing that is known where there is none.
fn wanted(params: &[Option<GoType>], number: usize) -> Want
    ensures { result ≡ want_in (slice_get params.now number) }
{
    match params.get(number) {
        Some(kind) => want_of(*kind),
        None => Want::Unknown,
    }
}

/// The fault that is told of operands in the places of parameters of these types.
pub fn arguments_at<N: Names>(
    names: &N,
    nodes: &[Node],
    at: usize,
    params: &[Option<GoType>],
) -> Option<Fault>
    requires formed { tree.IsFormed nodes.now }
    requires some { IsSomeExprs nodes.now at }
    ensures { (es : Seq AnyExpr) → tree.IsPartAt nodes.now at (PExprs es)
        → result ≡ first_of (spec.arguments (N.env names.now) params.now (map expr_of es)) }
{
    let mut place = at;
    let mut left = count_at(nodes, at);
    let mut first = None;
    loop {
        match exprs_node(nodes, place) {
            ExprsNode::NoExprs => return first,
            ExprsNode::Expr { exprs, last } => {
                left -= 1;
                let want = wanted(params, left);
                let fault = placed_at(names, nodes, last, want);
                first = earliest(fault, first);
                place = exprs;
            }
            ExprsNode::PastExprs { exprs } => place = exprs,
            ExprsNode::Left { left: only } => {
                let want = wanted(params, 0);
                let fault = placed_at(names, nodes, only, want);
                return earliest(fault, first);
            }
        }
    }
}
