//! Ending nodes. Made by tools/script_nodes.py from script.grammar: edit that.
#![tactic(auto, unfolding(gv_scriptsyntax::specs::Nodes::arity))]

ghost use Rattle.std.specs.Prelude.{◌≡◌, Option};
ghost use Rattle.gv_termread.specs.declared.generated.term_acts.Part.TheVariants.{Other as POther};
ghost use Rattle.gv_scriptsyntax.specs.declared.generated.script_acts.ScriptPart.TheVariants.{Ending as PEnding};
ghost use Rattle.gv_termread.specs.declared.token.SeenToken.{SeenToken as AnySeenToken};
ghost use Rattle.gv_scriptsyntax.specs.Nodes as tree;
ghost use Rattle.gv_certnodes.specs.Places.{IsMadeBy};
ghost use Rattle.gv_commandnodes.specs.Ending.{IsEndingNode, IsSomeEnding};

use gv_certnodes::{act_of, token_of};
use gv_scriptsyntax::Node;
use gv_scriptsyntax::generated::script_table::{ACT_CLOSED, ACT_NOT_CLOSED};
use gv_termread::SeenToken;

/// Which act makes a part of the kind Ending, with the tokens and the places of the parts that it takes.
#[derive(Clone, Copy)]
pub enum EndingNode {
    Closed { semi: SeenToken },
    NotClosed,
}

fn closed_made(text: &[u8], nodes: &[Node], at: usize) -> EndingNode
    requires formed { tree.IsFormed text.now nodes.now }
    requires made { IsMadeBy nodes.now at ACT_CLOSED }
    ensures { (whole : Option AnySeenToken) → tree.IsPartAt text.now nodes.now at (POther (PEnding whole)) → IsEndingNode text.now nodes.now at result whole }
{
    let semi = token_of(text, nodes, at, ACT_CLOSED, 0);
    EndingNode::Closed { semi }
}

fn not_closed_made(_text: &[u8], _nodes: &[Node], _at: usize) -> EndingNode
    requires formed { tree.IsFormed _text.now _nodes.now }
    requires made { IsMadeBy _nodes.now _at ACT_NOT_CLOSED }
    ensures { (whole : Option AnySeenToken) → tree.IsPartAt _text.now _nodes.now _at (POther (PEnding whole)) → IsEndingNode _text.now _nodes.now _at result whole }
{
    EndingNode::NotClosed
}

/// The node at a place where a part of the kind Ending stands.
pub fn ending_node(text: &[u8], nodes: &[Node], at: usize) -> EndingNode
    requires formed { tree.IsFormed text.now nodes.now }
    requires some { IsSomeEnding text.now nodes.now at }
    ensures { (whole : Option AnySeenToken) → tree.IsPartAt text.now nodes.now at (POther (PEnding whole)) → IsEndingNode text.now nodes.now at result whole }
{
    match act_of(nodes, at) {
        ACT_CLOSED => closed_made(text, nodes, at),
        ACT_NOT_CLOSED => not_closed_made(text, nodes, at),
        _ => unreachable!(),
    }
}
