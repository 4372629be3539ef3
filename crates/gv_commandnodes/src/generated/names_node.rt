//! Names nodes. Made by tools/script_nodes.py from script.grammar: edit that.
#![tactic(auto, unfolding(gv_scriptsyntax::specs::Nodes::arity))]

ghost use Rattle.std.specs.Prelude.{◌≡◌, List};
ghost use Rattle.gv_termread.specs.declared.generated.term_acts.Part.TheVariants.{Other as POther};
ghost use Rattle.gv_scriptsyntax.specs.declared.generated.script_acts.ScriptPart.TheVariants.{Names as PNames};
ghost use Rattle.gv_termread.specs.declared.token.SeenToken.{SeenToken as AnySeenToken};
ghost use Rattle.gv_scriptsyntax.specs.Nodes as tree;
ghost use Rattle.gv_certnodes.specs.Places.{IsMadeBy};
ghost use Rattle.gv_commandnodes.specs.Names.{IsNamesNode, IsSomeNames};

use gv_certnodes::{act_of, place_of, token_of};
use gv_scriptsyntax::Node;
use gv_scriptsyntax::generated::script_table::{
    ACT_IN_NAMES, ACT_NAME, ACT_NEXT_NAME, ACT_NO_NAMES, ACT_WORD_NAMES,
};
use gv_termread::SeenToken;

/// Which act makes a part of the kind Names, with the tokens and the places of the parts that it takes.
#[derive(Clone, Copy)]
pub enum NamesNode {
    NoNames,
    Name { names: usize, name: SeenToken },
    NextName { names: usize, name: SeenToken },
    InNames { names: usize },
    WordNames { names: usize },
}

fn no_names_made(_text: &[u8], _nodes: &[Node], _at: usize) -> NamesNode
    requires formed { tree.IsFormed _text.now _nodes.now }
    requires made { IsMadeBy _nodes.now _at ACT_NO_NAMES }
    ensures { (whole : List AnySeenToken) → tree.IsPartAt _text.now _nodes.now _at (POther (PNames whole)) → IsNamesNode _text.now _nodes.now _at result whole }
{
    NamesNode::NoNames
}

fn name_made(text: &[u8], nodes: &[Node], at: usize) -> NamesNode
    requires formed { tree.IsFormed text.now nodes.now }
    requires made { IsMadeBy nodes.now at ACT_NAME }
    ensures { (whole : List AnySeenToken) → tree.IsPartAt text.now nodes.now at (POther (PNames whole)) → IsNamesNode text.now nodes.now at result whole }
{
    let names = place_of(text, nodes, at, ACT_NAME, 1);
    let name = token_of(text, nodes, at, ACT_NAME, 0);
    NamesNode::Name { names, name }
}

fn next_name_made(text: &[u8], nodes: &[Node], at: usize) -> NamesNode
    requires formed { tree.IsFormed text.now nodes.now }
    requires made { IsMadeBy nodes.now at ACT_NEXT_NAME }
    ensures { (whole : List AnySeenToken) → tree.IsPartAt text.now nodes.now at (POther (PNames whole)) → IsNamesNode text.now nodes.now at result whole }
{
    let names = place_of(text, nodes, at, ACT_NEXT_NAME, 2);
    let name = token_of(text, nodes, at, ACT_NEXT_NAME, 0);
    NamesNode::NextName { names, name }
}

fn in_names_made(text: &[u8], nodes: &[Node], at: usize) -> NamesNode
    requires formed { tree.IsFormed text.now nodes.now }
    requires made { IsMadeBy nodes.now at ACT_IN_NAMES }
    ensures { (whole : List AnySeenToken) → tree.IsPartAt text.now nodes.now at (POther (PNames whole)) → IsNamesNode text.now nodes.now at result whole }
{
    let names = place_of(text, nodes, at, ACT_IN_NAMES, 1);
    NamesNode::InNames { names }
}

fn word_names_made(text: &[u8], nodes: &[Node], at: usize) -> NamesNode
    requires formed { tree.IsFormed text.now nodes.now }
    requires made { IsMadeBy nodes.now at ACT_WORD_NAMES }
    ensures { (whole : List AnySeenToken) → tree.IsPartAt text.now nodes.now at (POther (PNames whole)) → IsNamesNode text.now nodes.now at result whole }
{
    let names = place_of(text, nodes, at, ACT_WORD_NAMES, 0);
    NamesNode::WordNames { names }
}

/// The node at a place where a part of the kind Names stands.
pub fn names_node(text: &[u8], nodes: &[Node], at: usize) -> NamesNode
    requires formed { tree.IsFormed text.now nodes.now }
    requires some { IsSomeNames text.now nodes.now at }
    ensures { (whole : List AnySeenToken) → tree.IsPartAt text.now nodes.now at (POther (PNames whole)) → IsNamesNode text.now nodes.now at result whole }
{
    match act_of(nodes, at) {
        ACT_NO_NAMES => no_names_made(text, nodes, at),
        ACT_NAME => name_made(text, nodes, at),
        ACT_NEXT_NAME => next_name_made(text, nodes, at),
        ACT_IN_NAMES => in_names_made(text, nodes, at),
        ACT_WORD_NAMES => word_names_made(text, nodes, at),
        _ => unreachable!(),
    }
}
