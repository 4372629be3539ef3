//! Keyed nodes. Made by tools/nodes.py from gosyntax.grammar: edit that.
#![tactic(auto, unfolding(gv_gosyntax::specs::Nodes::arity))]

ghost use Rattle.std.specs.Prelude.{◌≡◌, List};
ghost use Rattle.gv_gosyntax.specs.declared.generated.gosyntax_acts.Part.TheVariants.{Keyed as PKeyed};
ghost use Rattle.gv_gosyntax.specs.declared.tree.KeyedExpr.{KeyedExpr as AnyKeyedExpr};
ghost use Rattle.gv_gosyntax.specs.Nodes as tree;
ghost use Rattle.gv_gonodes.specs.Places.{IsMadeBy};
ghost use Rattle.gv_gonodes.specs.Keyed.{IsKeyedNode, IsSomeKeyed};

use crate::parts::{act_of, place_of, token_of};
use gv_gosyntax::generated::gosyntax_table::{ACT_KEYED, ACT_NO_KEYED, ACT_PAST_KEYED};
use gv_gosyntax::{Lexeme, Node};

/// Which act makes a part of the kind Keyed, with the tokens and the places of the parts that it takes.
#[derive(Clone, Copy)]
pub enum KeyedNode {
    NoKeyed,
    Keyed {
        fields: usize,
        key: Lexeme,
        value: usize,
    },
    PastKeyed {
        fields: usize,
    },
}

fn no_keyed_made(_nodes: &[Node], _at: usize) -> KeyedNode
    requires formed { tree.IsFormed _nodes.now }
    requires made { IsMadeBy _nodes.now _at ACT_NO_KEYED }
    ensures { (whole : List AnyKeyedExpr) → tree.IsPartAt _nodes.now _at (PKeyed whole) → IsKeyedNode _nodes.now _at result whole }
{
    KeyedNode::NoKeyed
}

fn keyed_made(nodes: &[Node], at: usize) -> KeyedNode
    requires formed { tree.IsFormed nodes.now }
    requires made { IsMadeBy nodes.now at ACT_KEYED }
    ensures { (whole : List AnyKeyedExpr) → tree.IsPartAt nodes.now at (PKeyed whole) → IsKeyedNode nodes.now at result whole }
{
    let fields = place_of(nodes, at, ACT_KEYED, 3);
    let key = token_of(nodes, at, ACT_KEYED, 2);
    let value = place_of(nodes, at, ACT_KEYED, 0);
    KeyedNode::Keyed { fields, key, value }
}

fn past_keyed_made(nodes: &[Node], at: usize) -> KeyedNode
    requires formed { tree.IsFormed nodes.now }
    requires made { IsMadeBy nodes.now at ACT_PAST_KEYED }
    ensures { (whole : List AnyKeyedExpr) → tree.IsPartAt nodes.now at (PKeyed whole) → IsKeyedNode nodes.now at result whole }
{
    let fields = place_of(nodes, at, ACT_PAST_KEYED, 1);
    KeyedNode::PastKeyed { fields }
}

/// The node at a place where a part of the kind Keyed stands.
pub fn keyed_node(nodes: &[Node], at: usize) -> KeyedNode
    requires formed { tree.IsFormed nodes.now }
    requires some { IsSomeKeyed nodes.now at }
    ensures { (whole : List AnyKeyedExpr) → tree.IsPartAt nodes.now at (PKeyed whole) → IsKeyedNode nodes.now at result whole }
{
    match act_of(nodes, at) {
        ACT_NO_KEYED => no_keyed_made(nodes, at),
        ACT_KEYED => keyed_made(nodes, at),
        ACT_PAST_KEYED => past_keyed_made(nodes, at),
        _ => unreachable!(),
    }
}
