//! MaybeTerm nodes. Made by tools/script_nodes.py from script.grammar: edit that.
#![tactic(auto, unfolding(gv_scriptsyntax::specs::Nodes::arity))]

ghost use Rattle.std.specs.Prelude.{◌≡◌, Option};
ghost use Rattle.gv_termread.specs.declared.generated.term_acts.Part.TheVariants.{Other as POther};
ghost use Rattle.gv_scriptsyntax.specs.declared.generated.script_acts.ScriptPart.TheVariants.{MaybeTerm as PMaybeTerm};
ghost use Rattle.gv_termread.specs.declared.placed.PlacedTerm.{PlacedTerm as AnyPlacedTerm};
ghost use Rattle.gv_scriptsyntax.specs.Nodes as tree;
ghost use Rattle.gv_certnodes.specs.Places.{IsMadeBy};
ghost use Rattle.gv_certnodes.specs.MaybeTerm.{IsMaybeTermNode, IsSomeMaybeTerm};

use crate::parts::{act_of, place_of};
use gv_scriptsyntax::Node;
use gv_scriptsyntax::generated::script_table::{ACT_NO_TERM, ACT_WORD_TERM};

/// Which act makes a part of the kind MaybeTerm, with the tokens and the places of the parts that it takes.
#[derive(Clone, Copy)]
pub enum MaybeTermNode {
    NoTerm,
    WordTerm { term: usize },
}

fn no_term_made(_text: &[u8], _nodes: &[Node], _at: usize) -> MaybeTermNode
    requires formed { tree.IsFormed _text.now _nodes.now }
    requires made { IsMadeBy _nodes.now _at ACT_NO_TERM }
    ensures { (whole : Option AnyPlacedTerm) → tree.IsPartAt _text.now _nodes.now _at (POther (PMaybeTerm whole)) → IsMaybeTermNode _text.now _nodes.now _at result whole }
{
    MaybeTermNode::NoTerm
}

fn word_term_made(text: &[u8], nodes: &[Node], at: usize) -> MaybeTermNode
    requires formed { tree.IsFormed text.now nodes.now }
    requires made { IsMadeBy nodes.now at ACT_WORD_TERM }
    ensures { (whole : Option AnyPlacedTerm) → tree.IsPartAt text.now nodes.now at (POther (PMaybeTerm whole)) → IsMaybeTermNode text.now nodes.now at result whole }
{
    let term = place_of(text, nodes, at, ACT_WORD_TERM, 0);
    MaybeTermNode::WordTerm { term }
}

/// The node at a place where a part of the kind MaybeTerm stands.
pub fn maybe_term_node(text: &[u8], nodes: &[Node], at: usize) -> MaybeTermNode
    requires formed { tree.IsFormed text.now nodes.now }
    requires some { IsSomeMaybeTerm text.now nodes.now at }
    ensures { (whole : Option AnyPlacedTerm) → tree.IsPartAt text.now nodes.now at (POther (PMaybeTerm whole)) → IsMaybeTermNode text.now nodes.now at result whole }
{
    match act_of(nodes, at) {
        ACT_NO_TERM => no_term_made(text, nodes, at),
        ACT_WORD_TERM => word_term_made(text, nodes, at),
        _ => unreachable!(),
    }
}
