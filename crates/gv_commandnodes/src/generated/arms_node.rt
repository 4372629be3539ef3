//! Arms nodes. Made by tools/script_nodes.py from script.grammar: edit that.
#![tactic(auto, unfolding(gv_scriptsyntax::specs::Nodes::arity))]

ghost use Rattle.std.specs.Prelude.{◌≡◌, List};
ghost use Rattle.gv_termread.specs.declared.generated.term_acts.Part.TheVariants.{Other as POther};
ghost use Rattle.gv_scriptsyntax.specs.declared.generated.script_acts.ScriptPart.TheVariants.{Arms as PArms};
ghost use Rattle.gv_scriptsyntax.specs.declared.tree.Arm.{Arm as AnyArm};
ghost use Rattle.gv_scriptsyntax.specs.Nodes as tree;
ghost use Rattle.gv_certnodes.specs.Places.{IsMadeBy};
ghost use Rattle.gv_commandnodes.specs.Arms.{IsArmsNode, IsSomeArms};

use gv_certnodes::{act_of, place_of};
use gv_scriptsyntax::Node;
use gv_scriptsyntax::generated::script_table::{ACT_NEXT_ARM, ACT_NO_ARMS};

/// Which act makes a part of the kind Arms, with the tokens and the places of the parts that it takes.
#[derive(Clone, Copy)]
pub enum ArmsNode {
    NoArms,
    NextArm { arms: usize, arm: usize },
}

fn no_arms_made(_text: &[u8], _nodes: &[Node], _at: usize) -> ArmsNode
    requires formed { tree.IsFormed _text.now _nodes.now }
    requires made { IsMadeBy _nodes.now _at ACT_NO_ARMS }
    ensures { (whole : List AnyArm) → tree.IsPartAt _text.now _nodes.now _at (POther (PArms whole)) → IsArmsNode _text.now _nodes.now _at result whole }
{
    ArmsNode::NoArms
}

fn next_arm_made(text: &[u8], nodes: &[Node], at: usize) -> ArmsNode
    requires formed { tree.IsFormed text.now nodes.now }
    requires made { IsMadeBy nodes.now at ACT_NEXT_ARM }
    ensures { (whole : List AnyArm) → tree.IsPartAt text.now nodes.now at (POther (PArms whole)) → IsArmsNode text.now nodes.now at result whole }
{
    let arms = place_of(text, nodes, at, ACT_NEXT_ARM, 1);
    let arm = place_of(text, nodes, at, ACT_NEXT_ARM, 0);
    ArmsNode::NextArm { arms, arm }
}

/// The node at a place where a part of the kind Arms stands.
pub fn arms_node(text: &[u8], nodes: &[Node], at: usize) -> ArmsNode
    requires formed { tree.IsFormed text.now nodes.now }
    requires some { IsSomeArms text.now nodes.now at }
    ensures { (whole : List AnyArm) → tree.IsPartAt text.now nodes.now at (POther (PArms whole)) → IsArmsNode text.now nodes.now at result whole }
{
    match act_of(nodes, at) {
        ACT_NO_ARMS => no_arms_made(text, nodes, at),
        ACT_NEXT_ARM => next_arm_made(text, nodes, at),
        _ => unreachable!(),
    }
}
