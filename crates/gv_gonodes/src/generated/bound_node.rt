//! Bound nodes. Made by tools/nodes.py from gosyntax.grammar: edit that.
#![tactic(auto, unfolding(gv_gosyntax::specs::Nodes::arity))]

ghost use Rattle.std.specs.Prelude.{◌≡◌, Option};
ghost use Rattle.gv_gosyntax.specs.declared.generated.gosyntax_acts.Part.TheVariants.{Bound as PBound};
ghost use Rattle.gv_gosyntax.specs.declared.tree.Expr.{Expr as AnyExpr};
ghost use Rattle.gv_gosyntax.specs.Nodes as tree;
ghost use Rattle.gv_gonodes.specs.Places.{IsMadeBy};
ghost use Rattle.gv_gonodes.specs.Bound.{IsBoundNode, IsSomeBound};

use crate::parts::{act_of, place_of};
use gv_gosyntax::Node;
use gv_gosyntax::generated::gosyntax_table::{ACT_BOUND, ACT_NO_BOUND};

/// Which act makes a part of the kind Bound, with the tokens and the places of the parts that it takes.
#[derive(Clone, Copy)]
pub enum BoundNode {
    NoBound,
    Bound { inner: usize },
}

fn no_bound_made(_nodes: &[Node], _at: usize) -> BoundNode
    requires formed { tree.IsFormed _nodes.now }
    requires made { IsMadeBy _nodes.now _at ACT_NO_BOUND }
    ensures { (whole : Option AnyExpr) → tree.IsPartAt _nodes.now _at (PBound whole) → IsBoundNode _nodes.now _at result whole }
{
    BoundNode::NoBound
}

fn bound_made(nodes: &[Node], at: usize) -> BoundNode
    requires formed { tree.IsFormed nodes.now }
    requires made { IsMadeBy nodes.now at ACT_BOUND }
    ensures { (whole : Option AnyExpr) → tree.IsPartAt nodes.now at (PBound whole) → IsBoundNode nodes.now at result whole }
{
    let inner = place_of(nodes, at, ACT_BOUND, 0);
    BoundNode::Bound { inner }
}

/// The node at a place where a part of the kind Bound stands.
pub fn bound_node(nodes: &[Node], at: usize) -> BoundNode
    requires formed { tree.IsFormed nodes.now }
    requires some { IsSomeBound nodes.now at }
    ensures { (whole : Option AnyExpr) → tree.IsPartAt nodes.now at (PBound whole) → IsBoundNode nodes.now at result whole }
{
    match act_of(nodes, at) {
        ACT_NO_BOUND => no_bound_made(nodes, at),
        ACT_BOUND => bound_made(nodes, at),
        _ => unreachable!(),
    }
}
