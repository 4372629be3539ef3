//! Ops nodes. Made by tools/script_nodes.py from script.grammar: edit that.
#![tactic(auto, unfolding(gv_scriptsyntax::specs::Nodes::arity))]

ghost use Rattle.std.specs.Prelude.{◌≡◌, List};
ghost use Rattle.gv_termread.specs.declared.generated.term_acts.Part.TheVariants.{Other as POther};
ghost use Rattle.gv_scriptsyntax.specs.declared.generated.script_acts.ScriptPart.TheVariants.{Ops as POps};
ghost use Rattle.gv_scriptsyntax.specs.declared.tree.Op.{Op as AnyOp};
ghost use Rattle.gv_scriptsyntax.specs.Nodes as tree;
ghost use Rattle.gv_certnodes.specs.Places.{IsMadeBy};
ghost use Rattle.gv_declnodes.specs.Ops.{IsOpsNode, IsSomeOps};

use gv_certnodes::{act_of, place_of, token_of};
use gv_scriptsyntax::Node;
use gv_scriptsyntax::generated::script_table::{ACT_NO_OPS, ACT_OP};
use gv_termread::SeenToken;

/// Which act makes a part of the kind Ops, with the tokens and the places of the parts that it takes.
#[derive(Clone, Copy)]
pub enum OpsNode {
    NoOps,
    Op {
        ops: usize,
        name: SeenToken,
        block: usize,
        cuts: usize,
    },
}

fn no_ops_made(_text: &[u8], _nodes: &[Node], _at: usize) -> OpsNode
    requires formed { tree.IsFormed _text.now _nodes.now }
    requires made { IsMadeBy _nodes.now _at ACT_NO_OPS }
    ensures { (whole : List AnyOp) → tree.IsPartAt _text.now _nodes.now _at (POther (POps whole)) → IsOpsNode _text.now _nodes.now _at result whole }
{
    OpsNode::NoOps
}

fn op_made(text: &[u8], nodes: &[Node], at: usize) -> OpsNode
    requires formed { tree.IsFormed text.now nodes.now }
    requires made { IsMadeBy nodes.now at ACT_OP }
    ensures { (whole : List AnyOp) → tree.IsPartAt text.now nodes.now at (POther (POps whole)) → IsOpsNode text.now nodes.now at result whole }
{
    let ops = place_of(text, nodes, at, ACT_OP, 4);
    let name = token_of(text, nodes, at, ACT_OP, 2);
    let block = place_of(text, nodes, at, ACT_OP, 1);
    let cuts = place_of(text, nodes, at, ACT_OP, 0);
    OpsNode::Op {
        ops,
        name,
        block,
        cuts,
    }
}

/// The node at a place where a part of the kind Ops stands.
pub fn ops_node(text: &[u8], nodes: &[Node], at: usize) -> OpsNode
    requires formed { tree.IsFormed text.now nodes.now }
    requires some { IsSomeOps text.now nodes.now at }
    ensures { (whole : List AnyOp) → tree.IsPartAt text.now nodes.now at (POther (POps whole)) → IsOpsNode text.now nodes.now at result whole }
{
    match act_of(nodes, at) {
        ACT_NO_OPS => no_ops_made(text, nodes, at),
        ACT_OP => op_made(text, nodes, at),
        _ => unreachable!(),
    }
}
