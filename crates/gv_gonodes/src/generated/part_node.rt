//! Part nodes. Made by tools/nodes.py from gosyntax.grammar: edit that.
#![tactic(auto, unfolding(gv_gosyntax::specs::Nodes::arity))]

ghost use Rattle.std.specs.Prelude.{◌≡◌, Option};
ghost use Rattle.gv_gosyntax.specs.declared.generated.gosyntax_acts.Part.TheVariants.{Part as PPart};
ghost use Rattle.gv_gosyntax.specs.declared.tree.Simple.{Simple as AnySimple};
ghost use Rattle.gv_gosyntax.specs.Nodes as tree;
ghost use Rattle.gv_gonodes.specs.Places.{IsMadeBy};
ghost use Rattle.gv_gonodes.specs.Part.{IsPartNode, IsSomePart};

use crate::parts::{act_of, place_of};
use gv_gosyntax::Node;
use gv_gosyntax::generated::gosyntax_table::{ACT_NO_PART, ACT_PART};

/// Which act makes a part of the kind Part, with the tokens and the places of the parts that it takes.
#[derive(Clone, Copy)]
pub enum PartNode {
    NoPart,
    Part { simple: usize },
}

fn no_part_made(_nodes: &[Node], _at: usize) -> PartNode
    requires formed { tree.IsFormed _nodes.now }
    requires made { IsMadeBy _nodes.now _at ACT_NO_PART }
    ensures { (whole : Option AnySimple) → tree.IsPartAt _nodes.now _at (PPart whole) → IsPartNode _nodes.now _at result whole }
{
    PartNode::NoPart
}

fn part_made(nodes: &[Node], at: usize) -> PartNode
    requires formed { tree.IsFormed nodes.now }
    requires made { IsMadeBy nodes.now at ACT_PART }
    ensures { (whole : Option AnySimple) → tree.IsPartAt nodes.now at (PPart whole) → IsPartNode nodes.now at result whole }
{
    let simple = place_of(nodes, at, ACT_PART, 0);
    PartNode::Part { simple }
}

/// The node at a place where a part of the kind Part stands.
pub fn part_node(nodes: &[Node], at: usize) -> PartNode
    requires formed { tree.IsFormed nodes.now }
    requires some { IsSomePart nodes.now at }
    ensures { (whole : Option AnySimple) → tree.IsPartAt nodes.now at (PPart whole) → IsPartNode nodes.now at result whole }
{
    match act_of(nodes, at) {
        ACT_NO_PART => no_part_made(nodes, at),
        ACT_PART => part_made(nodes, at),
        _ => unreachable!(),
    }
}
