//! Parts of a node.

ghost use Rattle.std.specs.Prelude.{◌≡◌, ℕ, ◌<◌, ◌≤◌, length, slice_get, Some};
ghost use Rattle.gv_gosyntax.specs.declared.lexeme.Lexeme.{Lexeme as AnyLexeme};
ghost use Rattle.gv_gosyntax.specs.declared.node.Node.TheVariants.{Token as TokenNode, Made as MadeNode};
ghost use Rattle.gv_gosyntax.specs.Nodes as tree;
ghost use Rattle.gv_gonodes.specs.Places.{IsMade, IsMadeBy, IsPartOf, IsTokenOf};

use gv_gosyntax::{Lexeme, Node, part_of};
use gv_grammar::FIRST_ACT;

/// The place of the part of the node at `at` behind which `number` of its parts come: 0 is the last one. `act` makes the node.
pub fn place_of(nodes: &[Node], at: usize, act: u8, number: usize) -> usize
    requires formed { tree.IsFormed nodes.now }
    requires made { IsMadeBy nodes.now at act }
    requires taken { number < tree.arity act }
    ensures { IsPartOf nodes.now at number result }
{
    part_of(nodes, at, number)
}

// The node at a place.
fn node_at(nodes: &[Node], at: usize) -> Node
    requires { at < length nodes.now }
    ensures { slice_get nodes.now at ≡ Some result }
{
    nodes[at]
}

// The token of a node, and one that stands in no text where it is none.
fn token_in(node: Node) -> Lexeme
    ensures { (t : AnyLexeme) → node ≡ TokenNode t → result ≡ t }
{
    match node {
        Node::Token(token) => token,
        Node::Made { act: _, from: _ } => Lexeme {
            class: 0,
            start: 0,
            end: 0,
        },
    }
}

/// The part at such a place, where it is a token.
pub fn token_of(nodes: &[Node], at: usize, act: u8, number: usize) -> Lexeme
    requires formed { tree.IsFormed nodes.now }
    requires made { IsMadeBy nodes.now at act }
    requires taken { number < tree.arity act }
    ensures { IsTokenOf nodes.now at number result }
{
    let place = place_of(nodes, at, act, number);
    let node = node_at(nodes, place);
    token_in(node)
}

// The act of a node, and 0 of a token.
fn act_in(node: Node) -> u8
    ensures { (act : ℕ) (from : ℕ) → node ≡ MadeNode act from → result ≡ act }
{
    match node {
        Node::Token(_) => 0,
        Node::Made { act, from: _ } => act,
    }
}

/// The act that makes the node at a place.
pub fn act_of(nodes: &[Node], at: usize) -> u8
    requires { IsMade nodes.now at }
    ensures made { IsMadeBy nodes.now at result }
    ensures behind_marks { FIRST_ACT ≤ result }
{
    let act = act_in(node_at(nodes, at));
    if act < FIRST_ACT { FIRST_ACT } else { act }
}
