//! Call nodes. Made by tools/nodes.py from gosyntax.grammar: edit that.
#![tactic(auto, unfolding(gv_gosyntax::specs::Nodes::arity))]

ghost use Rattle.std.specs.Prelude.{◌≡◌};
ghost use Rattle.gv_gosyntax.specs.declared.generated.gosyntax_acts.Part.TheVariants.{Call as PCall};
ghost use Rattle.gv_gosyntax.specs.declared.tree.Call.{Call as AnyCall};
ghost use Rattle.gv_gosyntax.specs.Nodes as tree;
ghost use Rattle.gv_gonodes.specs.Places.{IsMadeBy};
ghost use Rattle.gv_gonodes.specs.Call.{IsCallNode, IsSomeCall};

use crate::parts::{act_of, place_of, token_of};
use gv_gosyntax::generated::gosyntax_table::{
    ACT_CALL, ACT_LITERAL, ACT_MAKE, ACT_MAKE_LENGTH, ACT_NEW, ACT_PAIR,
};
use gv_gosyntax::{Lexeme, Node};

/// Which act makes a part of the kind Call, with the tokens and the places of the parts that it takes.
#[derive(Clone, Copy)]
pub enum CallNode {
    Call {
        function: usize,
        arguments: usize,
    },
    Pair {
        word: Lexeme,
        first: usize,
        second: usize,
    },
    Make {
        word: Lexeme,
        kind: usize,
    },
    MakeLength {
        word: Lexeme,
        kind: usize,
        length: usize,
    },
    New {
        word: Lexeme,
    },
    Literal {
        start: Lexeme,
        name: Lexeme,
        fields: usize,
    },
}

fn call_made(nodes: &[Node], at: usize) -> CallNode
    requires formed { tree.IsFormed nodes.now }
    requires made { IsMadeBy nodes.now at ACT_CALL }
    ensures { (whole : AnyCall) → tree.IsPartAt nodes.now at (PCall whole) → IsCallNode nodes.now at result whole }
{
    let function = place_of(nodes, at, ACT_CALL, 3);
    let arguments = place_of(nodes, at, ACT_CALL, 1);
    CallNode::Call {
        function,
        arguments,
    }
}

fn pair_made(nodes: &[Node], at: usize) -> CallNode
    requires formed { tree.IsFormed nodes.now }
    requires made { IsMadeBy nodes.now at ACT_PAIR }
    ensures { (whole : AnyCall) → tree.IsPartAt nodes.now at (PCall whole) → IsCallNode nodes.now at result whole }
{
    let word = token_of(nodes, at, ACT_PAIR, 5);
    let first = place_of(nodes, at, ACT_PAIR, 3);
    let second = place_of(nodes, at, ACT_PAIR, 1);
    CallNode::Pair {
        word,
        first,
        second,
    }
}

fn make_made(nodes: &[Node], at: usize) -> CallNode
    requires formed { tree.IsFormed nodes.now }
    requires made { IsMadeBy nodes.now at ACT_MAKE }
    ensures { (whole : AnyCall) → tree.IsPartAt nodes.now at (PCall whole) → IsCallNode nodes.now at result whole }
{
    let word = token_of(nodes, at, ACT_MAKE, 3);
    let kind = place_of(nodes, at, ACT_MAKE, 1);
    CallNode::Make { word, kind }
}

fn make_length_made(nodes: &[Node], at: usize) -> CallNode
    requires formed { tree.IsFormed nodes.now }
    requires made { IsMadeBy nodes.now at ACT_MAKE_LENGTH }
    ensures { (whole : AnyCall) → tree.IsPartAt nodes.now at (PCall whole) → IsCallNode nodes.now at result whole }
{
    let word = token_of(nodes, at, ACT_MAKE_LENGTH, 5);
    let kind = place_of(nodes, at, ACT_MAKE_LENGTH, 3);
    let length = place_of(nodes, at, ACT_MAKE_LENGTH, 1);
    CallNode::MakeLength { word, kind, length }
}

fn new_made(nodes: &[Node], at: usize) -> CallNode
    requires formed { tree.IsFormed nodes.now }
    requires made { IsMadeBy nodes.now at ACT_NEW }
    ensures { (whole : AnyCall) → tree.IsPartAt nodes.now at (PCall whole) → IsCallNode nodes.now at result whole }
{
    let word = token_of(nodes, at, ACT_NEW, 5);
    CallNode::New { word }
}

fn literal_made(nodes: &[Node], at: usize) -> CallNode
    requires formed { tree.IsFormed nodes.now }
    requires made { IsMadeBy nodes.now at ACT_LITERAL }
    ensures { (whole : AnyCall) → tree.IsPartAt nodes.now at (PCall whole) → IsCallNode nodes.now at result whole }
{
    let start = token_of(nodes, at, ACT_LITERAL, 4);
    let name = token_of(nodes, at, ACT_LITERAL, 3);
    let fields = place_of(nodes, at, ACT_LITERAL, 1);
    CallNode::Literal {
        start,
        name,
        fields,
    }
}

/// The node at a place where a part of the kind Call stands.
pub fn call_node(nodes: &[Node], at: usize) -> CallNode
    requires formed { tree.IsFormed nodes.now }
    requires some { IsSomeCall nodes.now at }
    ensures { (whole : AnyCall) → tree.IsPartAt nodes.now at (PCall whole) → IsCallNode nodes.now at result whole }
{
    match act_of(nodes, at) {
        ACT_CALL => call_made(nodes, at),
        ACT_PAIR => pair_made(nodes, at),
        ACT_MAKE => make_made(nodes, at),
        ACT_MAKE_LENGTH => make_length_made(nodes, at),
        ACT_NEW => new_made(nodes, at),
        ACT_LITERAL => literal_made(nodes, at),
        _ => unreachable!(),
    }
}
