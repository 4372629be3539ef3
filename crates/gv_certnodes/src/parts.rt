//! Parts of a node.

ghost use Rattle.std.specs.Prelude.{◌≡◌, ℕ, ◌<◌, ◌≤◌, length, slice_get, Some};
ghost use Rattle.gv_termread.specs.declared.token.SeenToken.{SeenToken as AnyToken};
ghost use Rattle.gv_scriptsyntax.specs.declared.node.Node.TheVariants.{Token as TokenNode, Made as MadeNode};
ghost use Rattle.gv_scriptsyntax.specs.Nodes as tree;
ghost use Rattle.gv_scriptnodes.specs.Places.{IsChild, IsTokenOf};
ghost use Rattle.gv_certnodes.specs.Places.{IsMade, IsMadeBy};

use gv_grammar::FIRST_ACT;
use gv_scriptsyntax::{Node, part_of};
use gv_termread::SeenToken;

/// The place of the part of the node at `at` behind which `number` of its parts come: 0 is the last one. `act` makes the node.
pub fn place_of(text: &[u8], nodes: &[Node], at: usize, act: u8, number: usize) -> usize
    requires formed { tree.IsFormed text.now nodes.now }
    requires made { IsMadeBy nodes.now at act }
    requires taken { number < tree.arity act }
    ensures { IsChild text.now nodes.now at number result }
{
    part_of(text, nodes, at, number)
}

// The node at a place.
fn node_at(nodes: &[Node], at: usize) -> Node
    requires { at < length nodes.now }
    ensures { slice_get nodes.now at ≡ Some result }
{
    nodes[at]
}

// The token of a node, and one that stands in no text where it is none.
fn token_in(node: Node) -> SeenToken
    ensures { (t : AnyToken) → node ≡ TokenNode t → result ≡ t }
{
    match node {
        Node::Token(token) => token,
        Node::Made { act: _, from: _ } => SeenToken {
            class: 0,
            start: 0,
            end: 0,
            value: 0,
        },
    }
}

/// The part at such a place, where it is a token.
pub fn token_of(text: &[u8], nodes: &[Node], at: usize, act: u8, number: usize) -> SeenToken
    requires formed { tree.IsFormed text.now nodes.now }
    requires made { IsMadeBy nodes.now at act }
    requires taken { number < tree.arity act }
    ensures { IsTokenOf text.now nodes.now at number result }
{
    let place = place_of(text, nodes, at, act, number);
    let node = node_at(nodes, place);
    token_in(node)
}

// The act of a node, and 0 of a token.
fn act_in(node: Node) -> u8
    ensures { (act : ℕ) (from : ℕ) → node ≡ MadeNode act from → result ≡ act }
{
    match node {
        Node::Token(_) => 0,
        Node::Made { act, from: _ } => act,
    }
}

/// The act that makes the node at a place.
pub fn act_of(nodes: &[Node], at: usize) -> u8
    requires { IsMade nodes.now at }
    ensures made { IsMadeBy nodes.now at result }
    ensures behind_marks { FIRST_ACT ≤ result }
{
    let act = act_in(node_at(nodes, at));
    if act < FIRST_ACT { FIRST_ACT } else { act }
}
