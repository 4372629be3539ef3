//! Block nodes. Made by tools/script_nodes.py from script.grammar: edit that.
#![tactic(auto, unfolding(gv_scriptsyntax::specs::Nodes::arity))]

ghost use Rattle.std.specs.Prelude.{◌≡◌};
ghost use Rattle.gv_termread.specs.declared.generated.term_acts.Part.TheVariants.{Other as POther};
ghost use Rattle.gv_scriptsyntax.specs.declared.generated.script_acts.ScriptPart.TheVariants.{Block as PBlock};
ghost use Rattle.gv_scriptsyntax.specs.declared.tree.Block.{Block as AnyBlock};
ghost use Rattle.gv_scriptsyntax.specs.Nodes as tree;
ghost use Rattle.gv_certnodes.specs.Places.{IsMadeBy};
ghost use Rattle.gv_commandnodes.specs.Block.{IsBlockNode, IsSomeBlock};

use gv_certnodes::{act_of, place_of, token_of};
use gv_scriptsyntax::Node;
use gv_scriptsyntax::generated::script_table::ACT_BLOCK;
use gv_termread::SeenToken;

/// Which act makes a part of the kind Block, with the tokens and the places of the parts that it takes.
#[derive(Clone, Copy)]
pub enum BlockNode {
    Block {
        start: SeenToken,
        commands: usize,
        end: SeenToken,
    },
}

fn block_made(text: &[u8], nodes: &[Node], at: usize) -> BlockNode
    requires formed { tree.IsFormed text.now nodes.now }
    requires made { IsMadeBy nodes.now at ACT_BLOCK }
    ensures { (whole : AnyBlock) → tree.IsPartAt text.now nodes.now at (POther (PBlock whole)) → IsBlockNode text.now nodes.now at result whole }
{
    let start = token_of(text, nodes, at, ACT_BLOCK, 2);
    let commands = place_of(text, nodes, at, ACT_BLOCK, 1);
    let end = token_of(text, nodes, at, ACT_BLOCK, 0);
    BlockNode::Block {
        start,
        commands,
        end,
    }
}

/// The node at a place where a part of the kind Block stands.
pub fn block_node(text: &[u8], nodes: &[Node], at: usize) -> BlockNode
    requires formed { tree.IsFormed text.now nodes.now }
    requires some { IsSomeBlock text.now nodes.now at }
    ensures { (whole : AnyBlock) → tree.IsPartAt text.now nodes.now at (POther (PBlock whole)) → IsBlockNode text.now nodes.now at result whole }
{
    match act_of(nodes, at) {
        ACT_BLOCK => block_made(text, nodes, at),
        _ => unreachable!(),
    }
}
