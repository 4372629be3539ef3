//! Blocks nodes. Made by tools/script_nodes.py from script.grammar: edit that.
#![tactic(auto, unfolding(gv_scriptsyntax::specs::Nodes::arity))]

ghost use Rattle.std.specs.Prelude.{◌≡◌, List};
ghost use Rattle.gv_termread.specs.declared.generated.term_acts.Part.TheVariants.{Other as POther};
ghost use Rattle.gv_scriptsyntax.specs.declared.generated.script_acts.ScriptPart.TheVariants.{Blocks as PBlocks};
ghost use Rattle.gv_scriptsyntax.specs.declared.tree.Block.{Block as AnyBlock};
ghost use Rattle.gv_scriptsyntax.specs.Nodes as tree;
ghost use Rattle.gv_certnodes.specs.Places.{IsMadeBy};
ghost use Rattle.gv_commandnodes.specs.Blocks.{IsBlocksNode, IsSomeBlocks};

use gv_certnodes::{act_of, place_of};
use gv_scriptsyntax::Node;
use gv_scriptsyntax::generated::script_table::{ACT_NEXT_BLOCK, ACT_NO_BLOCKS};

/// Which act makes a part of the kind Blocks, with the tokens and the places of the parts that it takes.
#[derive(Clone, Copy)]
pub enum BlocksNode {
    NoBlocks,
    NextBlock { blocks: usize, block: usize },
}

fn no_blocks_made(_text: &[u8], _nodes: &[Node], _at: usize) -> BlocksNode
    requires formed { tree.IsFormed _text.now _nodes.now }
    requires made { IsMadeBy _nodes.now _at ACT_NO_BLOCKS }
    ensures { (whole : List AnyBlock) → tree.IsPartAt _text.now _nodes.now _at (POther (PBlocks whole)) → IsBlocksNode _text.now _nodes.now _at result whole }
{
    BlocksNode::NoBlocks
}

fn next_block_made(text: &[u8], nodes: &[Node], at: usize) -> BlocksNode
    requires formed { tree.IsFormed text.now nodes.now }
    requires made { IsMadeBy nodes.now at ACT_NEXT_BLOCK }
    ensures { (whole : List AnyBlock) → tree.IsPartAt text.now nodes.now at (POther (PBlocks whole)) → IsBlocksNode text.now nodes.now at result whole }
{
    let blocks = place_of(text, nodes, at, ACT_NEXT_BLOCK, 1);
    let block = place_of(text, nodes, at, ACT_NEXT_BLOCK, 0);
    BlocksNode::NextBlock { blocks, block }
}

/// The node at a place where a part of the kind Blocks stands.
pub fn blocks_node(text: &[u8], nodes: &[Node], at: usize) -> BlocksNode
    requires formed { tree.IsFormed text.now nodes.now }
    requires some { IsSomeBlocks text.now nodes.now at }
    ensures { (whole : List AnyBlock) → tree.IsPartAt text.now nodes.now at (POther (PBlocks whole)) → IsBlocksNode text.now nodes.now at result whole }
{
    match act_of(nodes, at) {
        ACT_NO_BLOCKS => no_blocks_made(text, nodes, at),
        ACT_NEXT_BLOCK => next_block_made(text, nodes, at),
        _ => unreachable!(),
    }
}
