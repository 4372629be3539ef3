//! MaybeInst nodes. Made by tools/script_nodes.py from script.grammar: edit that.
#![tactic(auto, unfolding(gv_scriptsyntax::specs::Nodes::arity))]

ghost use Rattle.std.specs.Prelude.{◌≡◌, Option};
ghost use Rattle.gv_termread.specs.declared.generated.term_acts.Part.TheVariants.{Other as POther};
ghost use Rattle.gv_scriptsyntax.specs.declared.generated.script_acts.ScriptPart.TheVariants.{MaybeInst as PMaybeInst};
ghost use Rattle.gv_scriptsyntax.specs.declared.tree.Inst.{Inst as AnyInst};
ghost use Rattle.gv_scriptsyntax.specs.Nodes as tree;
ghost use Rattle.gv_certnodes.specs.Places.{IsMadeBy};
ghost use Rattle.gv_declnodes.specs.MaybeInst.{IsMaybeInstNode, IsSomeMaybeInst};

use gv_certnodes::{act_of, place_of};
use gv_scriptsyntax::Node;
use gv_scriptsyntax::generated::script_table::{ACT_NO_OWN, ACT_OWN};

/// Which act makes a part of the kind MaybeInst, with the tokens and the places of the parts that it takes.
#[derive(Clone, Copy)]
pub enum MaybeInstNode {
    NoOwn,
    Own { inst: usize },
}

fn no_own_made(_text: &[u8], _nodes: &[Node], _at: usize) -> MaybeInstNode
    requires formed { tree.IsFormed _text.now _nodes.now }
    requires made { IsMadeBy _nodes.now _at ACT_NO_OWN }
    ensures { (whole : Option AnyInst) → tree.IsPartAt _text.now _nodes.now _at (POther (PMaybeInst whole)) → IsMaybeInstNode _text.now _nodes.now _at result whole }
{
    MaybeInstNode::NoOwn
}

fn own_made(text: &[u8], nodes: &[Node], at: usize) -> MaybeInstNode
    requires formed { tree.IsFormed text.now nodes.now }
    requires made { IsMadeBy nodes.now at ACT_OWN }
    ensures { (whole : Option AnyInst) → tree.IsPartAt text.now nodes.now at (POther (PMaybeInst whole)) → IsMaybeInstNode text.now nodes.now at result whole }
{
    let inst = place_of(text, nodes, at, ACT_OWN, 0);
    MaybeInstNode::Own { inst }
}

/// The node at a place where a part of the kind MaybeInst stands.
pub fn maybe_inst_node(text: &[u8], nodes: &[Node], at: usize) -> MaybeInstNode
    requires formed { tree.IsFormed text.now nodes.now }
    requires some { IsSomeMaybeInst text.now nodes.now at }
    ensures { (whole : Option AnyInst) → tree.IsPartAt text.now nodes.now at (POther (PMaybeInst whole)) → IsMaybeInstNode text.now nodes.now at result whole }
{
    match act_of(nodes, at) {
        ACT_NO_OWN => no_own_made(text, nodes, at),
        ACT_OWN => own_made(text, nodes, at),
        _ => unreachable!(),
    }
}
