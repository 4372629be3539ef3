//! Types nodes. Made by tools/nodes.py from gosyntax.grammar: edit that.
#![tactic(auto, unfolding(gv_gosyntax::specs::Nodes::arity))]

ghost use Rattle.std.specs.Prelude.{◌≡◌, List};
ghost use Rattle.gv_gosyntax.specs.declared.generated.gosyntax_acts.Part.TheVariants.{Types as PTypes};
ghost use Rattle.gv_gosyntax.specs.declared.tree.GoType.{GoType as AnyGoType};
ghost use Rattle.gv_gosyntax.specs.Nodes as tree;
ghost use Rattle.gv_gonodes.specs.Places.{IsMadeBy};
ghost use Rattle.gv_gonodes.specs.Types.{IsTypesNode, IsSomeTypes};

use crate::parts::{act_of, place_of};
use gv_gosyntax::Node;
use gv_gosyntax::generated::gosyntax_table::{ACT_NO_TYPES, ACT_PAST_TYPES, ACT_TYPE};

/// Which act makes a part of the kind Types, with the tokens and the places of the parts that it takes.
#[derive(Clone, Copy)]
pub enum TypesNode {
    NoTypes,
    Type { types: usize, kind: usize },
    PastTypes { types: usize },
}

fn no_types_made(_nodes: &[Node], _at: usize) -> TypesNode
    requires formed { tree.IsFormed _nodes.now }
    requires made { IsMadeBy _nodes.now _at ACT_NO_TYPES }
    ensures { (whole : List AnyGoType) → tree.IsPartAt _nodes.now _at (PTypes whole) → IsTypesNode _nodes.now _at result whole }
{
    TypesNode::NoTypes
}

fn type_made(nodes: &[Node], at: usize) -> TypesNode
    requires formed { tree.IsFormed nodes.now }
    requires made { IsMadeBy nodes.now at ACT_TYPE }
    ensures { (whole : List AnyGoType) → tree.IsPartAt nodes.now at (PTypes whole) → IsTypesNode nodes.now at result whole }
{
    let types = place_of(nodes, at, ACT_TYPE, 1);
    let kind = place_of(nodes, at, ACT_TYPE, 0);
    TypesNode::Type { types, kind }
}

fn past_types_made(nodes: &[Node], at: usize) -> TypesNode
    requires formed { tree.IsFormed nodes.now }
    requires made { IsMadeBy nodes.now at ACT_PAST_TYPES }
    ensures { (whole : List AnyGoType) → tree.IsPartAt nodes.now at (PTypes whole) → IsTypesNode nodes.now at result whole }
{
    let types = place_of(nodes, at, ACT_PAST_TYPES, 1);
    TypesNode::PastTypes { types }
}

/// The node at a place where a part of the kind Types stands.
pub fn types_node(nodes: &[Node], at: usize) -> TypesNode
    requires formed { tree.IsFormed nodes.now }
    requires some { IsSomeTypes nodes.now at }
    ensures { (whole : List AnyGoType) → tree.IsPartAt nodes.now at (PTypes whole) → IsTypesNode nodes.now at result whole }
{
    match act_of(nodes, at) {
        ACT_NO_TYPES => no_types_made(nodes, at),
        ACT_TYPE => type_made(nodes, at),
        ACT_PAST_TYPES => past_types_made(nodes, at),
        _ => unreachable!(),
    }
}
