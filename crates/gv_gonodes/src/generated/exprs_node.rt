//! Exprs nodes. Made by tools/nodes.py from gosyntax.grammar: edit that.
#![tactic(auto, unfolding(gv_gosyntax::specs::Nodes::arity))]

ghost use Rattle.std.specs.Prelude.{◌≡◌, List};
ghost use Rattle.gv_gosyntax.specs.declared.generated.gosyntax_acts.Part.TheVariants.{Exprs as PExprs};
ghost use Rattle.gv_gosyntax.specs.declared.tree.Expr.{Expr as AnyExpr};
ghost use Rattle.gv_gosyntax.specs.Nodes as tree;
ghost use Rattle.gv_gonodes.specs.Places.{IsMadeBy};
ghost use Rattle.gv_gonodes.specs.Exprs.{IsExprsNode, IsSomeExprs};

use crate::parts::{act_of, place_of};
use gv_gosyntax::Node;
use gv_gosyntax::generated::gosyntax_table::{ACT_EXPR, ACT_LEFT, ACT_NO_EXPRS, ACT_PAST_EXPRS};

/// Which act makes a part of the kind Exprs, with the tokens and the places of the parts that it takes.
#[derive(Clone, Copy)]
pub enum ExprsNode {
    NoExprs,
    Expr { exprs: usize, last: usize },
    PastExprs { exprs: usize },
    Left { left: usize },
}

fn no_exprs_made(_nodes: &[Node], _at: usize) -> ExprsNode
    requires formed { tree.IsFormed _nodes.now }
    requires made { IsMadeBy _nodes.now _at ACT_NO_EXPRS }
    ensures { (whole : List AnyExpr) → tree.IsPartAt _nodes.now _at (PExprs whole) → IsExprsNode _nodes.now _at result whole }
{
    ExprsNode::NoExprs
}

fn expr_made(nodes: &[Node], at: usize) -> ExprsNode
    requires formed { tree.IsFormed nodes.now }
    requires made { IsMadeBy nodes.now at ACT_EXPR }
    ensures { (whole : List AnyExpr) → tree.IsPartAt nodes.now at (PExprs whole) → IsExprsNode nodes.now at result whole }
{
    let exprs = place_of(nodes, at, ACT_EXPR, 1);
    let last = place_of(nodes, at, ACT_EXPR, 0);
    ExprsNode::Expr { exprs, last }
}

fn past_exprs_made(nodes: &[Node], at: usize) -> ExprsNode
    requires formed { tree.IsFormed nodes.now }
    requires made { IsMadeBy nodes.now at ACT_PAST_EXPRS }
    ensures { (whole : List AnyExpr) → tree.IsPartAt nodes.now at (PExprs whole) → IsExprsNode nodes.now at result whole }
{
    let exprs = place_of(nodes, at, ACT_PAST_EXPRS, 1);
    ExprsNode::PastExprs { exprs }
}

fn left_made(nodes: &[Node], at: usize) -> ExprsNode
    requires formed { tree.IsFormed nodes.now }
    requires made { IsMadeBy nodes.now at ACT_LEFT }
    ensures { (whole : List AnyExpr) → tree.IsPartAt nodes.now at (PExprs whole) → IsExprsNode nodes.now at result whole }
{
    let left = place_of(nodes, at, ACT_LEFT, 0);
    ExprsNode::Left { left }
}

/// The node at a place where a part of the kind Exprs stands.
pub fn exprs_node(nodes: &[Node], at: usize) -> ExprsNode
    requires formed { tree.IsFormed nodes.now }
    requires some { IsSomeExprs nodes.now at }
    ensures { (whole : List AnyExpr) → tree.IsPartAt nodes.now at (PExprs whole) → IsExprsNode nodes.now at result whole }
{
    match act_of(nodes, at) {
        ACT_NO_EXPRS => no_exprs_made(nodes, at),
        ACT_EXPR => expr_made(nodes, at),
        ACT_PAST_EXPRS => past_exprs_made(nodes, at),
        ACT_LEFT => left_made(nodes, at),
        _ => unreachable!(),
    }
}
