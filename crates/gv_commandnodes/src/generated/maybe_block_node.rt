//! MaybeBlock nodes. Made by tools/script_nodes.py from script.grammar: edit that.
#![tactic(auto, unfolding(gv_scriptsyntax::specs::Nodes::arity))]

ghost use Rattle.std.specs.Prelude.{◌≡◌, Option};
ghost use Rattle.gv_termread.specs.declared.generated.term_acts.Part.TheVariants.{Other as POther};
ghost use Rattle.gv_scriptsyntax.specs.declared.generated.script_acts.ScriptPart.TheVariants.{MaybeBlock as PMaybeBlock};
ghost use Rattle.gv_scriptsyntax.specs.declared.tree.Block.{Block as AnyBlock};
ghost use Rattle.gv_scriptsyntax.specs.Nodes as tree;
ghost use Rattle.gv_certnodes.specs.Places.{IsMadeBy};
ghost use Rattle.gv_commandnodes.specs.MaybeBlock.{IsMaybeBlockNode, IsSomeMaybeBlock};

use gv_certnodes::{act_of, place_of};
use gv_scriptsyntax::Node;
use gv_scriptsyntax::generated::script_table::{ACT_DURING, ACT_NO_DURING};

/// Which act makes a part of the kind MaybeBlock, with the tokens and the places of the parts that it takes.
#[derive(Clone, Copy)]
pub enum MaybeBlockNode {
    NoDuring,
    During { block: usize },
}

fn no_during_made(_text: &[u8], _nodes: &[Node], _at: usize) -> MaybeBlockNode
    requires formed { tree.IsFormed _text.now _nodes.now }
    requires made { IsMadeBy _nodes.now _at ACT_NO_DURING }
    ensures { (whole : Option AnyBlock) → tree.IsPartAt _text.now _nodes.now _at (POther (PMaybeBlock whole)) → IsMaybeBlockNode _text.now _nodes.now _at result whole }
{
    MaybeBlockNode::NoDuring
}

fn during_made(text: &[u8], nodes: &[Node], at: usize) -> MaybeBlockNode
    requires formed { tree.IsFormed text.now nodes.now }
    requires made { IsMadeBy nodes.now at ACT_DURING }
    ensures { (whole : Option AnyBlock) → tree.IsPartAt text.now nodes.now at (POther (PMaybeBlock whole)) → IsMaybeBlockNode text.now nodes.now at result whole }
{
    let block = place_of(text, nodes, at, ACT_DURING, 0);
    MaybeBlockNode::During { block }
}

/// The node at a place where a part of the kind MaybeBlock stands.
pub fn maybe_block_node(text: &[u8], nodes: &[Node], at: usize) -> MaybeBlockNode
    requires formed { tree.IsFormed text.now nodes.now }
    requires some { IsSomeMaybeBlock text.now nodes.now at }
    ensures { (whole : Option AnyBlock) → tree.IsPartAt text.now nodes.now at (POther (PMaybeBlock whole)) → IsMaybeBlockNode text.now nodes.now at result whole }
{
    match act_of(nodes, at) {
        ACT_NO_DURING => no_during_made(text, nodes, at),
        ACT_DURING => during_made(text, nodes, at),
        _ => unreachable!(),
    }
}
