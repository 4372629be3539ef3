//! Block nodes. Made by tools/nodes.py from gosyntax.grammar: edit that.
#![tactic(auto, unfolding(gv_gosyntax::specs::Nodes::arity))]

ghost use Rattle.std.specs.Prelude.{◌≡◌};
ghost use Rattle.gv_gosyntax.specs.declared.generated.gosyntax_acts.Part.TheVariants.{Block as PBlock};
ghost use Rattle.gv_gosyntax.specs.declared.tree.Block.{Block as AnyBlock};
ghost use Rattle.gv_gosyntax.specs.Nodes as tree;
ghost use Rattle.gv_gonodes.specs.Places.{IsMadeBy};
ghost use Rattle.gv_gonodes.specs.Block.{IsBlockNode, IsSomeBlock};

use crate::parts::{act_of, place_of, token_of};
use gv_gosyntax::generated::gosyntax_table::ACT_BLOCK;
use gv_gosyntax::{Lexeme, Node};

/// Which act makes a part of the kind Block, with the tokens and the places of the parts that it takes.
#[derive(Clone, Copy)]
pub enum BlockNode {
    Block {
        start: Lexeme,
        statements: usize,
        end: Lexeme,
    },
}

fn block_made(nodes: &[Node], at: usize) -> BlockNode
    requires formed { tree.IsFormed nodes.now }
    requires made { IsMadeBy nodes.now at ACT_BLOCK }
    ensures { (whole : AnyBlock) → tree.IsPartAt nodes.now at (PBlock whole) → IsBlockNode nodes.now at result whole }
{
    let start = token_of(nodes, at, ACT_BLOCK, 2);
    let statements = place_of(nodes, at, ACT_BLOCK, 1);
    let end = token_of(nodes, at, ACT_BLOCK, 0);
    BlockNode::Block {
        start,
        statements,
        end,
    }
}

/// The node at a place where a part of the kind Block stands.
pub fn block_node(nodes: &[Node], at: usize) -> BlockNode
    requires formed { tree.IsFormed nodes.now }
    requires some { IsSomeBlock nodes.now at }
    ensures { (whole : AnyBlock) → tree.IsPartAt nodes.now at (PBlock whole) → IsBlockNode nodes.now at result whole }
{
    match act_of(nodes, at) {
        ACT_BLOCK => block_made(nodes, at),
        _ => unreachable!(),
    }
}
