//! Term nodes. Made by tools/script_nodes.py from script.grammar: edit that.
#![tactic(auto, unfolding(gv_scriptsyntax::specs::Nodes::arity))]

ghost use Rattle.std.specs.Prelude.{◌≡◌};
ghost use Rattle.gv_termread.specs.declared.generated.term_acts.Part.TheVariants.{Term as PTerm};
ghost use Rattle.gv_termread.specs.declared.placed.PlacedTerm.{PlacedTerm as AnyPlacedTerm};
ghost use Rattle.gv_scriptsyntax.specs.Nodes as tree;
ghost use Rattle.gv_certnodes.specs.Places.{IsMadeBy};
ghost use Rattle.gv_certnodes.specs.Term.{IsTermNode, IsSomeTerm};

use crate::parts::{act_of, place_of, token_of};
use gv_scriptsyntax::Node;
use gv_termread::SeenToken;
use gv_termread::generated::term_table::{
    ACT_BINARY, ACT_CONSTANT, ACT_MAKER, ACT_NUMBER, ACT_OF_ONE, ACT_OF_THREE, ACT_OF_TWO,
    ACT_PAREN, ACT_UNARY, ACT_VARIABLE,
};

/// Which act makes a part of the kind Term, with the tokens and the places of the parts that it takes.
#[derive(Clone, Copy)]
pub enum TermNode {
    Binary {
        left: usize,
        sign: SeenToken,
        right: usize,
    },
    Unary {
        sign: SeenToken,
        inner: usize,
    },
    Number {
        token: SeenToken,
    },
    Constant {
        word: SeenToken,
    },
    Variable {
        name: SeenToken,
    },
    Paren {
        brace: SeenToken,
        inner: usize,
    },
    Maker {
        name: SeenToken,
        count: SeenToken,
        item: usize,
    },
    OfOne {
        name: SeenToken,
        a: usize,
    },
    OfTwo {
        name: SeenToken,
        a: usize,
        b: usize,
    },
    OfThree {
        name: SeenToken,
        a: usize,
        b: usize,
        c: usize,
    },
}

fn binary_made(text: &[u8], nodes: &[Node], at: usize) -> TermNode
    requires formed { tree.IsFormed text.now nodes.now }
    requires made { IsMadeBy nodes.now at ACT_BINARY }
    ensures { (whole : AnyPlacedTerm) → tree.IsPartAt text.now nodes.now at (PTerm whole) → IsTermNode text.now nodes.now at result whole }
{
    let left = place_of(text, nodes, at, ACT_BINARY, 2);
    let sign = token_of(text, nodes, at, ACT_BINARY, 1);
    let right = place_of(text, nodes, at, ACT_BINARY, 0);
    TermNode::Binary { left, sign, right }
}

fn unary_made(text: &[u8], nodes: &[Node], at: usize) -> TermNode
    requires formed { tree.IsFormed text.now nodes.now }
    requires made { IsMadeBy nodes.now at ACT_UNARY }
    ensures { (whole : AnyPlacedTerm) → tree.IsPartAt text.now nodes.now at (PTerm whole) → IsTermNode text.now nodes.now at result whole }
{
    let sign = token_of(text, nodes, at, ACT_UNARY, 1);
    let inner = place_of(text, nodes, at, ACT_UNARY, 0);
    TermNode::Unary { sign, inner }
}

fn number_made(text: &[u8], nodes: &[Node], at: usize) -> TermNode
    requires formed { tree.IsFormed text.now nodes.now }
    requires made { IsMadeBy nodes.now at ACT_NUMBER }
    ensures { (whole : AnyPlacedTerm) → tree.IsPartAt text.now nodes.now at (PTerm whole) → IsTermNode text.now nodes.now at result whole }
{
    let token = token_of(text, nodes, at, ACT_NUMBER, 0);
    TermNode::Number { token }
}

fn constant_made(text: &[u8], nodes: &[Node], at: usize) -> TermNode
    requires formed { tree.IsFormed text.now nodes.now }
    requires made { IsMadeBy nodes.now at ACT_CONSTANT }
    ensures { (whole : AnyPlacedTerm) → tree.IsPartAt text.now nodes.now at (PTerm whole) → IsTermNode text.now nodes.now at result whole }
{
    let word = token_of(text, nodes, at, ACT_CONSTANT, 0);
    TermNode::Constant { word }
}

fn variable_made(text: &[u8], nodes: &[Node], at: usize) -> TermNode
    requires formed { tree.IsFormed text.now nodes.now }
    requires made { IsMadeBy nodes.now at ACT_VARIABLE }
    ensures { (whole : AnyPlacedTerm) → tree.IsPartAt text.now nodes.now at (PTerm whole) → IsTermNode text.now nodes.now at result whole }
{
    let name = token_of(text, nodes, at, ACT_VARIABLE, 0);
    TermNode::Variable { name }
}

fn paren_made(text: &[u8], nodes: &[Node], at: usize) -> TermNode
    requires formed { tree.IsFormed text.now nodes.now }
    requires made { IsMadeBy nodes.now at ACT_PAREN }
    ensures { (whole : AnyPlacedTerm) → tree.IsPartAt text.now nodes.now at (PTerm whole) → IsTermNode text.now nodes.now at result whole }
{
    let brace = token_of(text, nodes, at, ACT_PAREN, 2);
    let inner = place_of(text, nodes, at, ACT_PAREN, 1);
    TermNode::Paren { brace, inner }
}

fn maker_made(text: &[u8], nodes: &[Node], at: usize) -> TermNode
    requires formed { tree.IsFormed text.now nodes.now }
    requires made { IsMadeBy nodes.now at ACT_MAKER }
    ensures { (whole : AnyPlacedTerm) → tree.IsPartAt text.now nodes.now at (PTerm whole) → IsTermNode text.now nodes.now at result whole }
{
    let name = token_of(text, nodes, at, ACT_MAKER, 5);
    let count = token_of(text, nodes, at, ACT_MAKER, 3);
    let item = place_of(text, nodes, at, ACT_MAKER, 1);
    TermNode::Maker { name, count, item }
}

fn of_one_made(text: &[u8], nodes: &[Node], at: usize) -> TermNode
    requires formed { tree.IsFormed text.now nodes.now }
    requires made { IsMadeBy nodes.now at ACT_OF_ONE }
    ensures { (whole : AnyPlacedTerm) → tree.IsPartAt text.now nodes.now at (PTerm whole) → IsTermNode text.now nodes.now at result whole }
{
    let name = token_of(text, nodes, at, ACT_OF_ONE, 3);
    let a = place_of(text, nodes, at, ACT_OF_ONE, 1);
    TermNode::OfOne { name, a }
}

fn of_two_made(text: &[u8], nodes: &[Node], at: usize) -> TermNode
    requires formed { tree.IsFormed text.now nodes.now }
    requires made { IsMadeBy nodes.now at ACT_OF_TWO }
    ensures { (whole : AnyPlacedTerm) → tree.IsPartAt text.now nodes.now at (PTerm whole) → IsTermNode text.now nodes.now at result whole }
{
    let name = token_of(text, nodes, at, ACT_OF_TWO, 5);
    let a = place_of(text, nodes, at, ACT_OF_TWO, 3);
    let b = place_of(text, nodes, at, ACT_OF_TWO, 1);
    TermNode::OfTwo { name, a, b }
}

fn of_three_made(text: &[u8], nodes: &[Node], at: usize) -> TermNode
    requires formed { tree.IsFormed text.now nodes.now }
    requires made { IsMadeBy nodes.now at ACT_OF_THREE }
    ensures { (whole : AnyPlacedTerm) → tree.IsPartAt text.now nodes.now at (PTerm whole) → IsTermNode text.now nodes.now at result whole }
{
    let name = token_of(text, nodes, at, ACT_OF_THREE, 7);
    let a = place_of(text, nodes, at, ACT_OF_THREE, 5);
    let b = place_of(text, nodes, at, ACT_OF_THREE, 3);
    let c = place_of(text, nodes, at, ACT_OF_THREE, 1);
    TermNode::OfThree { name, a, b, c }
}

/// The node at a place where a part of the kind Term stands.
pub fn term_node(text: &[u8], nodes: &[Node], at: usize) -> TermNode
    requires formed { tree.IsFormed text.now nodes.now }
    requires some { IsSomeTerm text.now nodes.now at }
    ensures { (whole : AnyPlacedTerm) → tree.IsPartAt text.now nodes.now at (PTerm whole) → IsTermNode text.now nodes.now at result whole }
{
    match act_of(nodes, at) {
        ACT_BINARY => binary_made(text, nodes, at),
        ACT_UNARY => unary_made(text, nodes, at),
        ACT_NUMBER => number_made(text, nodes, at),
        ACT_CONSTANT => constant_made(text, nodes, at),
        ACT_VARIABLE => variable_made(text, nodes, at),
        ACT_PAREN => paren_made(text, nodes, at),
        ACT_MAKER => maker_made(text, nodes, at),
        ACT_OF_ONE => of_one_made(text, nodes, at),
        ACT_OF_TWO => of_two_made(text, nodes, at),
        ACT_OF_THREE => of_three_made(text, nodes, at),
        _ => unreachable!(),
    }
}
