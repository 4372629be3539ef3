//! Names nodes. Made by tools/nodes.py from gosyntax.grammar: edit that.
#![tactic(auto, unfolding(gv_gosyntax::specs::Nodes::arity))]

ghost use Rattle.std.specs.Prelude.{◌≡◌, List};
ghost use Rattle.gv_gosyntax.specs.declared.generated.gosyntax_acts.Part.TheVariants.{Names as PNames};
ghost use Rattle.gv_gosyntax.specs.declared.lexeme.Lexeme.{Lexeme as AnyLexeme};
ghost use Rattle.gv_gosyntax.specs.Nodes as tree;
ghost use Rattle.gv_gonodes.specs.Places.{IsMadeBy};
ghost use Rattle.gv_gonodes.specs.Names.{IsNamesNode, IsSomeNames};

use crate::parts::{act_of, place_of, token_of};
use gv_gosyntax::generated::gosyntax_table::{
    ACT_IN_PARENS, ACT_NAME, ACT_NO_NAMES, ACT_PAST_NAMES,
};
use gv_gosyntax::{Lexeme, Node};

/// Which act makes a part of the kind Names, with the tokens and the places of the parts that it takes.
#[derive(Clone, Copy)]
pub enum NamesNode {
    NoNames,
    Name { names: usize, name: Lexeme },
    PastNames { names: usize },
    InParens { names: usize },
}

fn no_names_made(_nodes: &[Node], _at: usize) -> NamesNode
    requires formed { tree.IsFormed _nodes.now }
    requires made { IsMadeBy _nodes.now _at ACT_NO_NAMES }
    ensures { (whole : List AnyLexeme) → tree.IsPartAt _nodes.now _at (PNames whole) → IsNamesNode _nodes.now _at result whole }
{
    NamesNode::NoNames
}

fn name_made(nodes: &[Node], at: usize) -> NamesNode
    requires formed { tree.IsFormed nodes.now }
    requires made { IsMadeBy nodes.now at ACT_NAME }
    ensures { (whole : List AnyLexeme) → tree.IsPartAt nodes.now at (PNames whole) → IsNamesNode nodes.now at result whole }
{
    let names = place_of(nodes, at, ACT_NAME, 1);
    let name = token_of(nodes, at, ACT_NAME, 0);
    NamesNode::Name { names, name }
}

fn past_names_made(nodes: &[Node], at: usize) -> NamesNode
    requires formed { tree.IsFormed nodes.now }
    requires made { IsMadeBy nodes.now at ACT_PAST_NAMES }
    ensures { (whole : List AnyLexeme) → tree.IsPartAt nodes.now at (PNames whole) → IsNamesNode nodes.now at result whole }
{
    let names = place_of(nodes, at, ACT_PAST_NAMES, 1);
    NamesNode::PastNames { names }
}

fn in_parens_made(nodes: &[Node], at: usize) -> NamesNode
    requires formed { tree.IsFormed nodes.now }
    requires made { IsMadeBy nodes.now at ACT_IN_PARENS }
    ensures { (whole : List AnyLexeme) → tree.IsPartAt nodes.now at (PNames whole) → IsNamesNode nodes.now at result whole }
{
    let names = place_of(nodes, at, ACT_IN_PARENS, 1);
    NamesNode::InParens { names }
}

/// The node at a place where a part of the kind Names stands.
pub fn names_node(nodes: &[Node], at: usize) -> NamesNode
    requires formed { tree.IsFormed nodes.now }
    requires some { IsSomeNames nodes.now at }
    ensures { (whole : List AnyLexeme) → tree.IsPartAt nodes.now at (PNames whole) → IsNamesNode nodes.now at result whole }
{
    match act_of(nodes, at) {
        ACT_NO_NAMES => no_names_made(nodes, at),
        ACT_NAME => name_made(nodes, at),
        ACT_PAST_NAMES => past_names_made(nodes, at),
        ACT_IN_PARENS => in_parens_made(nodes, at),
        _ => unreachable!(),
    }
}
