//! Pointed nodes. Made by tools/nodes.py from gosyntax.grammar: edit that.
#![tactic(auto, unfolding(gv_gosyntax::specs::Nodes::arity))]

ghost use Rattle.std.specs.Prelude.{◌≡◌};
ghost use Rattle.gv_gosyntax.specs.declared.generated.gosyntax_acts.Part.TheVariants.{Pointed as PPointed};
ghost use Rattle.gv_gosyntax.specs.declared.tree.Pointed.{Pointed as AnyPointed};
ghost use Rattle.gv_gosyntax.specs.Nodes as tree;
ghost use Rattle.gv_gonodes.specs.Places.{IsMadeBy};
ghost use Rattle.gv_gonodes.specs.Pointed.{IsPointedNode, IsSomePointed};

use crate::parts::{act_of, token_of};
use gv_gosyntax::generated::gosyntax_table::{ACT_MUTEX, ACT_NAMED};
use gv_gosyntax::{Lexeme, Node};

/// Which act makes a part of the kind Pointed, with the tokens and the places of the parts that it takes.
#[derive(Clone, Copy)]
pub enum PointedNode {
    Named { name: Lexeme },
    Mutex { word: Lexeme },
}

fn named_made(nodes: &[Node], at: usize) -> PointedNode
    requires formed { tree.IsFormed nodes.now }
    requires made { IsMadeBy nodes.now at ACT_NAMED }
    ensures { (whole : AnyPointed) → tree.IsPartAt nodes.now at (PPointed whole) → IsPointedNode nodes.now at result whole }
{
    let name = token_of(nodes, at, ACT_NAMED, 0);
    PointedNode::Named { name }
}

fn mutex_made(nodes: &[Node], at: usize) -> PointedNode
    requires formed { tree.IsFormed nodes.now }
    requires made { IsMadeBy nodes.now at ACT_MUTEX }
    ensures { (whole : AnyPointed) → tree.IsPartAt nodes.now at (PPointed whole) → IsPointedNode nodes.now at result whole }
{
    let word = token_of(nodes, at, ACT_MUTEX, 2);
    PointedNode::Mutex { word }
}

/// The node at a place where a part of the kind Pointed stands.
pub fn pointed_node(nodes: &[Node], at: usize) -> PointedNode
    requires formed { tree.IsFormed nodes.now }
    requires some { IsSomePointed nodes.now at }
    ensures { (whole : AnyPointed) → tree.IsPartAt nodes.now at (PPointed whole) → IsPointedNode nodes.now at result whole }
{
    match act_of(nodes, at) {
        ACT_NAMED => named_made(nodes, at),
        ACT_MUTEX => mutex_made(nodes, at),
        _ => unreachable!(),
    }
}
