//! Rights nodes. Made by tools/nodes.py from gosyntax.grammar: edit that.
#![tactic(auto, unfolding(gv_gosyntax::specs::Nodes::arity))]

ghost use Rattle.std.specs.Prelude.{◌≡◌, List};
ghost use Rattle.gv_gosyntax.specs.declared.generated.gosyntax_acts.Part.TheVariants.{Rights as PRights};
ghost use Rattle.gv_gosyntax.specs.declared.tree.Right.{Right as AnyRight};
ghost use Rattle.gv_gosyntax.specs.Nodes as tree;
ghost use Rattle.gv_gonodes.specs.Places.{IsMadeBy};
ghost use Rattle.gv_gonodes.specs.Rights.{IsRightsNode, IsSomeRights};

use crate::parts::{act_of, place_of};
use gv_gosyntax::Node;
use gv_gosyntax::generated::gosyntax_table::{ACT_NO_RIGHTS, ACT_PAST_RIGHTS, ACT_RIGHT};

/// Which act makes a part of the kind Rights, with the tokens and the places of the parts that it takes.
#[derive(Clone, Copy)]
pub enum RightsNode {
    NoRights,
    Right { rights: usize, last: usize },
    PastRights { rights: usize },
}

fn no_rights_made(_nodes: &[Node], _at: usize) -> RightsNode
    requires formed { tree.IsFormed _nodes.now }
    requires made { IsMadeBy _nodes.now _at ACT_NO_RIGHTS }
    ensures { (whole : List AnyRight) → tree.IsPartAt _nodes.now _at (PRights whole) → IsRightsNode _nodes.now _at result whole }
{
    RightsNode::NoRights
}

fn right_made(nodes: &[Node], at: usize) -> RightsNode
    requires formed { tree.IsFormed nodes.now }
    requires made { IsMadeBy nodes.now at ACT_RIGHT }
    ensures { (whole : List AnyRight) → tree.IsPartAt nodes.now at (PRights whole) → IsRightsNode nodes.now at result whole }
{
    let rights = place_of(nodes, at, ACT_RIGHT, 1);
    let last = place_of(nodes, at, ACT_RIGHT, 0);
    RightsNode::Right { rights, last }
}

fn past_rights_made(nodes: &[Node], at: usize) -> RightsNode
    requires formed { tree.IsFormed nodes.now }
    requires made { IsMadeBy nodes.now at ACT_PAST_RIGHTS }
    ensures { (whole : List AnyRight) → tree.IsPartAt nodes.now at (PRights whole) → IsRightsNode nodes.now at result whole }
{
    let rights = place_of(nodes, at, ACT_PAST_RIGHTS, 1);
    RightsNode::PastRights { rights }
}

/// The node at a place where a part of the kind Rights stands.
pub fn rights_node(nodes: &[Node], at: usize) -> RightsNode
    requires formed { tree.IsFormed nodes.now }
    requires some { IsSomeRights nodes.now at }
    ensures { (whole : List AnyRight) → tree.IsPartAt nodes.now at (PRights whole) → IsRightsNode nodes.now at result whole }
{
    match act_of(nodes, at) {
        ACT_NO_RIGHTS => no_rights_made(nodes, at),
        ACT_RIGHT => right_made(nodes, at),
        ACT_PAST_RIGHTS => past_rights_made(nodes, at),
        _ => unreachable!(),
    }
}
