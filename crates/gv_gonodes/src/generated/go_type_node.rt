//! GoType nodes. Made by tools/nodes.py from gosyntax.grammar: edit that.
#![tactic(auto, unfolding(gv_gosyntax::specs::Nodes::arity))]

ghost use Rattle.std.specs.Prelude.{◌≡◌};
ghost use Rattle.gv_gosyntax.specs.declared.generated.gosyntax_acts.Part.TheVariants.{GoType as PGoType};
ghost use Rattle.gv_gosyntax.specs.declared.tree.GoType.{GoType as AnyGoType};
ghost use Rattle.gv_gosyntax.specs.Nodes as tree;
ghost use Rattle.gv_gonodes.specs.Places.{IsMadeBy};
ghost use Rattle.gv_gonodes.specs.GoType.{IsGoTypeNode, IsSomeGoType};

use crate::parts::{act_of, place_of, token_of};
use gv_gosyntax::generated::gosyntax_table::{
    ACT_BLOCK_TYPE, ACT_MAP_TYPE, ACT_POINTER_TYPE, ACT_POINTERS_TYPE, ACT_SLICE_TYPE,
    ACT_WORD_TYPE,
};
use gv_gosyntax::{Lexeme, Node};

/// Which act makes a part of the kind GoType, with the tokens and the places of the parts that it takes.
#[derive(Clone, Copy)]
pub enum GoTypeNode {
    WordType { word: Lexeme },
    SliceType { start: Lexeme, word: Lexeme },
    PointersType { start: Lexeme, to: usize },
    MapType { word: Lexeme },
    PointerType { star: Lexeme, to: usize },
    BlockType { word: Lexeme },
}

fn word_type_made(nodes: &[Node], at: usize) -> GoTypeNode
    requires formed { tree.IsFormed nodes.now }
    requires made { IsMadeBy nodes.now at ACT_WORD_TYPE }
    ensures { (whole : AnyGoType) → tree.IsPartAt nodes.now at (PGoType whole) → IsGoTypeNode nodes.now at result whole }
{
    let word = token_of(nodes, at, ACT_WORD_TYPE, 0);
    GoTypeNode::WordType { word }
}

fn slice_type_made(nodes: &[Node], at: usize) -> GoTypeNode
    requires formed { tree.IsFormed nodes.now }
    requires made { IsMadeBy nodes.now at ACT_SLICE_TYPE }
    ensures { (whole : AnyGoType) → tree.IsPartAt nodes.now at (PGoType whole) → IsGoTypeNode nodes.now at result whole }
{
    let start = token_of(nodes, at, ACT_SLICE_TYPE, 2);
    let word = token_of(nodes, at, ACT_SLICE_TYPE, 0);
    GoTypeNode::SliceType { start, word }
}

fn pointers_type_made(nodes: &[Node], at: usize) -> GoTypeNode
    requires formed { tree.IsFormed nodes.now }
    requires made { IsMadeBy nodes.now at ACT_POINTERS_TYPE }
    ensures { (whole : AnyGoType) → tree.IsPartAt nodes.now at (PGoType whole) → IsGoTypeNode nodes.now at result whole }
{
    let start = token_of(nodes, at, ACT_POINTERS_TYPE, 3);
    let to = place_of(nodes, at, ACT_POINTERS_TYPE, 0);
    GoTypeNode::PointersType { start, to }
}

fn map_type_made(nodes: &[Node], at: usize) -> GoTypeNode
    requires formed { tree.IsFormed nodes.now }
    requires made { IsMadeBy nodes.now at ACT_MAP_TYPE }
    ensures { (whole : AnyGoType) → tree.IsPartAt nodes.now at (PGoType whole) → IsGoTypeNode nodes.now at result whole }
{
    let word = token_of(nodes, at, ACT_MAP_TYPE, 4);
    GoTypeNode::MapType { word }
}

fn pointer_type_made(nodes: &[Node], at: usize) -> GoTypeNode
    requires formed { tree.IsFormed nodes.now }
    requires made { IsMadeBy nodes.now at ACT_POINTER_TYPE }
    ensures { (whole : AnyGoType) → tree.IsPartAt nodes.now at (PGoType whole) → IsGoTypeNode nodes.now at result whole }
{
    let star = token_of(nodes, at, ACT_POINTER_TYPE, 1);
    let to = place_of(nodes, at, ACT_POINTER_TYPE, 0);
    GoTypeNode::PointerType { star, to }
}

fn block_type_made(nodes: &[Node], at: usize) -> GoTypeNode
    requires formed { tree.IsFormed nodes.now }
    requires made { IsMadeBy nodes.now at ACT_BLOCK_TYPE }
    ensures { (whole : AnyGoType) → tree.IsPartAt nodes.now at (PGoType whole) → IsGoTypeNode nodes.now at result whole }
{
    let word = token_of(nodes, at, ACT_BLOCK_TYPE, 2);
    GoTypeNode::BlockType { word }
}

/// The node at a place where a part of the kind GoType stands.
pub fn go_type_node(nodes: &[Node], at: usize) -> GoTypeNode
    requires formed { tree.IsFormed nodes.now }
    requires some { IsSomeGoType nodes.now at }
    ensures { (whole : AnyGoType) → tree.IsPartAt nodes.now at (PGoType whole) → IsGoTypeNode nodes.now at result whole }
{
    match act_of(nodes, at) {
        ACT_WORD_TYPE => word_type_made(nodes, at),
        ACT_SLICE_TYPE => slice_type_made(nodes, at),
        ACT_POINTERS_TYPE => pointers_type_made(nodes, at),
        ACT_MAP_TYPE => map_type_made(nodes, at),
        ACT_POINTER_TYPE => pointer_type_made(nodes, at),
        ACT_BLOCK_TYPE => block_type_made(nodes, at),
        _ => unreachable!(),
    }
}
