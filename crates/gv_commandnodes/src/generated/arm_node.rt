//! Arm nodes. Made by tools/script_nodes.py from script.grammar: edit that.
#![tactic(auto, unfolding(gv_scriptsyntax::specs::Nodes::arity))]

ghost use Rattle.std.specs.Prelude.{◌≡◌};
ghost use Rattle.gv_termread.specs.declared.generated.term_acts.Part.TheVariants.{Other as POther};
ghost use Rattle.gv_scriptsyntax.specs.declared.generated.script_acts.ScriptPart.TheVariants.{Arm as PArm};
ghost use Rattle.gv_scriptsyntax.specs.declared.tree.Arm.{Arm as AnyArm};
ghost use Rattle.gv_scriptsyntax.specs.Nodes as tree;
ghost use Rattle.gv_certnodes.specs.Places.{IsMadeBy};
ghost use Rattle.gv_commandnodes.specs.Arm.{IsArmNode, IsSomeArm};

use gv_certnodes::{act_of, place_of, token_of};
use gv_scriptsyntax::Node;
use gv_scriptsyntax::generated::script_table::ACT_ARM;
use gv_termread::SeenToken;

/// Which act makes a part of the kind Arm, with the tokens and the places of the parts that it takes.
#[derive(Clone, Copy)]
pub enum ArmNode {
    Arm {
        start: SeenToken,
        names: usize,
        commands: usize,
        end: SeenToken,
    },
}

fn arm_made(text: &[u8], nodes: &[Node], at: usize) -> ArmNode
    requires formed { tree.IsFormed text.now nodes.now }
    requires made { IsMadeBy nodes.now at ACT_ARM }
    ensures { (whole : AnyArm) → tree.IsPartAt text.now nodes.now at (POther (PArm whole)) → IsArmNode text.now nodes.now at result whole }
{
    let start = token_of(text, nodes, at, ACT_ARM, 3);
    let names = place_of(text, nodes, at, ACT_ARM, 2);
    let commands = place_of(text, nodes, at, ACT_ARM, 1);
    let end = token_of(text, nodes, at, ACT_ARM, 0);
    ArmNode::Arm {
        start,
        names,
        commands,
        end,
    }
}

/// The node at a place where a part of the kind Arm stands.
pub fn arm_node(text: &[u8], nodes: &[Node], at: usize) -> ArmNode
    requires formed { tree.IsFormed text.now nodes.now }
    requires some { IsSomeArm text.now nodes.now at }
    ensures { (whole : AnyArm) → tree.IsPartAt text.now nodes.now at (POther (PArm whole)) → IsArmNode text.now nodes.now at result whole }
{
    match act_of(nodes, at) {
        ACT_ARM => arm_made(text, nodes, at),
        _ => unreachable!(),
    }
}
