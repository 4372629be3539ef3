//! Inst nodes. Made by tools/script_nodes.py from script.grammar: edit that.
#![tactic(auto, unfolding(gv_scriptsyntax::specs::Nodes::arity))]

ghost use Rattle.std.specs.Prelude.{◌≡◌};
ghost use Rattle.gv_termread.specs.declared.generated.term_acts.Part.TheVariants.{Other as POther};
ghost use Rattle.gv_scriptsyntax.specs.declared.generated.script_acts.ScriptPart.TheVariants.{Inst as PInst};
ghost use Rattle.gv_scriptsyntax.specs.declared.tree.Inst.{Inst as AnyInst};
ghost use Rattle.gv_scriptsyntax.specs.Nodes as tree;
ghost use Rattle.gv_certnodes.specs.Places.{IsMadeBy};
ghost use Rattle.gv_commandnodes.specs.Inst.{IsInstNode, IsSomeInst};

use gv_certnodes::{act_of, place_of, token_of};
use gv_scriptsyntax::Node;
use gv_scriptsyntax::generated::script_table::ACT_INST;
use gv_termread::SeenToken;

/// Which act makes a part of the kind Inst, with the tokens and the places of the parts that it takes.
#[derive(Clone, Copy)]
pub enum InstNode {
    Inst { name: SeenToken, terms: usize },
}

fn inst_made(text: &[u8], nodes: &[Node], at: usize) -> InstNode
    requires formed { tree.IsFormed text.now nodes.now }
    requires made { IsMadeBy nodes.now at ACT_INST }
    ensures { (whole : AnyInst) → tree.IsPartAt text.now nodes.now at (POther (PInst whole)) → IsInstNode text.now nodes.now at result whole }
{
    let name = token_of(text, nodes, at, ACT_INST, 1);
    let terms = place_of(text, nodes, at, ACT_INST, 0);
    InstNode::Inst { name, terms }
}

/// The node at a place where a part of the kind Inst stands.
pub fn inst_node(text: &[u8], nodes: &[Node], at: usize) -> InstNode
    requires formed { tree.IsFormed text.now nodes.now }
    requires some { IsSomeInst text.now nodes.now at }
    ensures { (whole : AnyInst) → tree.IsPartAt text.now nodes.now at (POther (PInst whole)) → IsInstNode text.now nodes.now at result whole }
{
    match act_of(nodes, at) {
        ACT_INST => inst_made(text, nodes, at),
        _ => unreachable!(),
    }
}
