//! Right nodes. Made by tools/nodes.py from gosyntax.grammar: edit that.
#![tactic(auto, unfolding(gv_gosyntax::specs::Nodes::arity))]

ghost use Rattle.std.specs.Prelude.{◌≡◌};
ghost use Rattle.gv_gosyntax.specs.declared.generated.gosyntax_acts.Part.TheVariants.{Right as PRight};
ghost use Rattle.gv_gosyntax.specs.declared.tree.Right.{Right as AnyRight};
ghost use Rattle.gv_gosyntax.specs.Nodes as tree;
ghost use Rattle.gv_gonodes.specs.Places.{IsMadeBy};
ghost use Rattle.gv_gonodes.specs.Right.{IsRightNode, IsSomeRight};

use crate::parts::{act_of, place_of};
use gv_gosyntax::Node;
use gv_gosyntax::generated::gosyntax_table::{ACT_RESULT, ACT_VALUE};

/// Which act makes a part of the kind Right, with the tokens and the places of the parts that it takes.
#[derive(Clone, Copy)]
pub enum RightNode {
    Value { value: usize },
    Result { result: usize },
}

fn value_made(nodes: &[Node], at: usize) -> RightNode
    requires formed { tree.IsFormed nodes.now }
    requires made { IsMadeBy nodes.now at ACT_VALUE }
    ensures { (whole : AnyRight) → tree.IsPartAt nodes.now at (PRight whole) → IsRightNode nodes.now at result whole }
{
    let value = place_of(nodes, at, ACT_VALUE, 0);
    RightNode::Value { value }
}

fn result_made(nodes: &[Node], at: usize) -> RightNode
    requires formed { tree.IsFormed nodes.now }
    requires made { IsMadeBy nodes.now at ACT_RESULT }
    ensures { (whole : AnyRight) → tree.IsPartAt nodes.now at (PRight whole) → IsRightNode nodes.now at result whole }
{
    let result = place_of(nodes, at, ACT_RESULT, 0);
    RightNode::Result { result }
}

/// The node at a place where a part of the kind Right stands.
pub fn right_node(nodes: &[Node], at: usize) -> RightNode
    requires formed { tree.IsFormed nodes.now }
    requires some { IsSomeRight nodes.now at }
    ensures { (whole : AnyRight) → tree.IsPartAt nodes.now at (PRight whole) → IsRightNode nodes.now at result whole }
{
    match act_of(nodes, at) {
        ACT_VALUE => value_made(nodes, at),
        ACT_RESULT => result_made(nodes, at),
        _ => unreachable!(),
    }
}
