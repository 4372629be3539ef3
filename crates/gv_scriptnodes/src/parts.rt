//! Parts of a node.

ghost use Rattle.std.specs.Prelude.{◌≡◌, ℕ, ◌<◌, ◌≤◌, length, slice_get, Some};
ghost use Rattle.gv_termread.specs.declared.token.SeenToken.{SeenToken as AnyToken};
ghost use Rattle.gv_grammar.specs.declared.levels.TheConstants.{FIRST_ACT};
ghost use Rattle.gv_scriptsyntax.specs.declared.node.Node.{Node as AnyNode};
ghost use Rattle.gv_scriptsyntax.specs.declared.node.Node.TheVariants.{Token as TokenNode};
ghost use Rattle.gv_scriptsyntax.specs.Nodes as tree;
ghost use Rattle.gv_scriptnodes.specs.Places.{IsChild, IsTokenOf, act_at};

use gv_scriptsyntax::{Node, part_of};
use gv_termread::SeenToken;

/// The act that makes the node at a place, and 0 where it is a token.
pub fn act_of(nodes: &[Node], at: usize) -> u8
    ensures { result ≡ act_at nodes.now at }
{
    match nodes.get(at) {
        Some(Node::Made { act, from: _ }) => *act,
        Some(Node::Token(_)) | None => 0,
    }
}

/// The place of the part of the node at `at` behind which `number` of its parts come: 0 is the last one. `act` makes the node.
pub fn place_of(text: &[u8], nodes: &[Node], at: usize, act: u8, number: usize) -> usize
    requires formed { tree.IsFormed text.now nodes.now }
    requires made { act_at nodes.now at ≡ act }
    requires behind_marks { FIRST_ACT ≤ act }
    requires taken { number < tree.arity act }
    ensures { IsChild text.now nodes.now at number result }
{
    part_of(text, nodes, at, number)
}

// The node at a place.
fn node_at(nodes: &[Node], at: usize) -> Node
    requires { at < length nodes.now }
    ensures { slice_get nodes.now at ≡ Some result }
{
    nodes[at]
}

// The token of a node, and one that stands in no text where it is none.
fn token_in(node: Node) -> SeenToken
    ensures { (t : AnyToken) → node ≡ TokenNode t → result ≡ t }
{
    match node {
        Node::Token(token) => token,
        Node::Made { act: _, from: _ } => SeenToken {
            class: 0,
            start: 0,
            end: 0,
            value: 0,
        },
    }
}

/// The part at such a place, where it is a token.
pub fn token_of(text: &[u8], nodes: &[Node], at: usize, act: u8, number: usize) -> SeenToken
    requires formed { tree.IsFormed text.now nodes.now }
    requires made { act_at nodes.now at ≡ act }
    requires behind_marks { FIRST_ACT ≤ act }
    requires taken { number < tree.arity act }
    ensures { IsTokenOf text.now nodes.now at number result }
{
    let place = place_of(text, nodes, at, act, number);
    let node = node_at(nodes, place);
    token_in(node)
}

/// Where the nodes of the node at a place begin.
pub fn first_of(nodes: &[Node], at: usize) -> usize
    requires { at < length nodes.now }
    ensures { (node : AnyNode) → slice_get nodes.now at ≡ Some node → result ≡ tree.first_of at node }
{
    match nodes[at] {
        Node::Token(_) => at,
        Node::Made { act: _, from } => from,
    }
}
