//! Receiver nodes. Made by tools/nodes.py from gosyntax.grammar: edit that.
#![tactic(auto, unfolding(gv_gosyntax::specs::Nodes::arity))]

ghost use Rattle.std.specs.Prelude.{◌≡◌, Option};
ghost use Rattle.gv_gosyntax.specs.declared.generated.gosyntax_acts.Part.TheVariants.{Receiver as PReceiver};
ghost use Rattle.gv_gosyntax.specs.declared.tree.Receiver.{Receiver as AnyReceiver};
ghost use Rattle.gv_gosyntax.specs.Nodes as tree;
ghost use Rattle.gv_gonodes.specs.Places.{IsMadeBy};
ghost use Rattle.gv_gonodes.specs.Receiver.{IsReceiverNode, IsSomeReceiver};

use crate::parts::{act_of, token_of};
use gv_gosyntax::generated::gosyntax_table::{ACT_NO_RECEIVER, ACT_RECEIVER};
use gv_gosyntax::{Lexeme, Node};

/// Which act makes a part of the kind Receiver, with the tokens and the places of the parts that it takes.
#[derive(Clone, Copy)]
pub enum ReceiverNode {
    NoReceiver,
    Receiver { name: Lexeme, of: Lexeme },
}

fn no_receiver_made(_nodes: &[Node], _at: usize) -> ReceiverNode
    requires formed { tree.IsFormed _nodes.now }
    requires made { IsMadeBy _nodes.now _at ACT_NO_RECEIVER }
    ensures { (whole : Option AnyReceiver) → tree.IsPartAt _nodes.now _at (PReceiver whole) → IsReceiverNode _nodes.now _at result whole }
{
    ReceiverNode::NoReceiver
}

fn receiver_made(nodes: &[Node], at: usize) -> ReceiverNode
    requires formed { tree.IsFormed nodes.now }
    requires made { IsMadeBy nodes.now at ACT_RECEIVER }
    ensures { (whole : Option AnyReceiver) → tree.IsPartAt nodes.now at (PReceiver whole) → IsReceiverNode nodes.now at result whole }
{
    let name = token_of(nodes, at, ACT_RECEIVER, 3);
    let of = token_of(nodes, at, ACT_RECEIVER, 1);
    ReceiverNode::Receiver { name, of }
}

/// The node at a place where a part of the kind Receiver stands.
pub fn receiver_node(nodes: &[Node], at: usize) -> ReceiverNode
    requires formed { tree.IsFormed nodes.now }
    requires some { IsSomeReceiver nodes.now at }
    ensures { (whole : Option AnyReceiver) → tree.IsPartAt nodes.now at (PReceiver whole) → IsReceiverNode nodes.now at result whole }
{
    match act_of(nodes, at) {
        ACT_NO_RECEIVER => no_receiver_made(nodes, at),
        ACT_RECEIVER => receiver_made(nodes, at),
        _ => unreachable!(),
    }
}
