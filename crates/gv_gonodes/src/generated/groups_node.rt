//! Groups nodes. Made by tools/nodes.py from gosyntax.grammar: edit that.
#![tactic(auto, unfolding(gv_gosyntax::specs::Nodes::arity))]

ghost use Rattle.std.specs.Prelude.{◌≡◌, List};
ghost use Rattle.gv_gosyntax.specs.declared.generated.gosyntax_acts.Part.TheVariants.{Groups as PGroups};
ghost use Rattle.gv_gosyntax.specs.declared.tree.Group.{Group as AnyGroup};
ghost use Rattle.gv_gosyntax.specs.Nodes as tree;
ghost use Rattle.gv_gonodes.specs.Places.{IsMadeBy};
ghost use Rattle.gv_gonodes.specs.Groups.{IsGroupsNode, IsSomeGroups};

use crate::parts::{act_of, place_of};
use gv_gosyntax::Node;
use gv_gosyntax::generated::gosyntax_table::{ACT_GROUP, ACT_NO_GROUPS, ACT_PAST_GROUPS};

/// Which act makes a part of the kind Groups, with the tokens and the places of the parts that it takes.
#[derive(Clone, Copy)]
pub enum GroupsNode {
    NoGroups,
    Group {
        groups: usize,
        names: usize,
        kind: usize,
    },
    PastGroups {
        groups: usize,
    },
}

fn no_groups_made(_nodes: &[Node], _at: usize) -> GroupsNode
    requires formed { tree.IsFormed _nodes.now }
    requires made { IsMadeBy _nodes.now _at ACT_NO_GROUPS }
    ensures { (whole : List AnyGroup) → tree.IsPartAt _nodes.now _at (PGroups whole) → IsGroupsNode _nodes.now _at result whole }
{
    GroupsNode::NoGroups
}

fn group_made(nodes: &[Node], at: usize) -> GroupsNode
    requires formed { tree.IsFormed nodes.now }
    requires made { IsMadeBy nodes.now at ACT_GROUP }
    ensures { (whole : List AnyGroup) → tree.IsPartAt nodes.now at (PGroups whole) → IsGroupsNode nodes.now at result whole }
{
    let groups = place_of(nodes, at, ACT_GROUP, 2);
    let names = place_of(nodes, at, ACT_GROUP, 1);
    let kind = place_of(nodes, at, ACT_GROUP, 0);
    GroupsNode::Group {
        groups,
        names,
        kind,
    }
}

fn past_groups_made(nodes: &[Node], at: usize) -> GroupsNode
    requires formed { tree.IsFormed nodes.now }
    requires made { IsMadeBy nodes.now at ACT_PAST_GROUPS }
    ensures { (whole : List AnyGroup) → tree.IsPartAt nodes.now at (PGroups whole) → IsGroupsNode nodes.now at result whole }
{
    let groups = place_of(nodes, at, ACT_PAST_GROUPS, 1);
    GroupsNode::PastGroups { groups }
}

/// The node at a place where a part of the kind Groups stands.
pub fn groups_node(nodes: &[Node], at: usize) -> GroupsNode
    requires formed { tree.IsFormed nodes.now }
    requires some { IsSomeGroups nodes.now at }
    ensures { (whole : List AnyGroup) → tree.IsPartAt nodes.now at (PGroups whole) → IsGroupsNode nodes.now at result whole }
{
    match act_of(nodes, at) {
        ACT_NO_GROUPS => no_groups_made(nodes, at),
        ACT_GROUP => group_made(nodes, at),
        ACT_PAST_GROUPS => past_groups_made(nodes, at),
        _ => unreachable!(),
    }
}
