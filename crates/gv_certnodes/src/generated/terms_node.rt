//! Terms nodes. Made by tools/script_nodes.py from script.grammar: edit that.
#![tactic(auto, unfolding(gv_scriptsyntax::specs::Nodes::arity))]

ghost use Rattle.std.specs.Prelude.{◌≡◌, List};
ghost use Rattle.gv_termread.specs.declared.generated.term_acts.Part.TheVariants.{Other as POther};
ghost use Rattle.gv_scriptsyntax.specs.declared.generated.script_acts.ScriptPart.TheVariants.{Terms as PTerms};
ghost use Rattle.gv_termread.specs.declared.placed.PlacedTerm.{PlacedTerm as AnyPlacedTerm};
ghost use Rattle.gv_scriptsyntax.specs.Nodes as tree;
ghost use Rattle.gv_certnodes.specs.Places.{IsMadeBy};
ghost use Rattle.gv_certnodes.specs.Terms.{IsTermsNode, IsSomeTerms};

use crate::parts::{act_of, place_of};
use gv_scriptsyntax::Node;
use gv_scriptsyntax::generated::script_table::{
    ACT_IN_TERMS, ACT_NEXT_TERM, ACT_NO_TERMS, ACT_TERM, ACT_WORD_TERMS,
};

/// Which act makes a part of the kind Terms, with the tokens and the places of the parts that it takes.
#[derive(Clone, Copy)]
pub enum TermsNode {
    NoTerms,
    Term { terms: usize, term: usize },
    NextTerm { terms: usize, term: usize },
    InTerms { terms: usize },
    WordTerms { terms: usize },
}

fn no_terms_made(_text: &[u8], _nodes: &[Node], _at: usize) -> TermsNode
    requires formed { tree.IsFormed _text.now _nodes.now }
    requires made { IsMadeBy _nodes.now _at ACT_NO_TERMS }
    ensures { (whole : List AnyPlacedTerm) → tree.IsPartAt _text.now _nodes.now _at (POther (PTerms whole)) → IsTermsNode _text.now _nodes.now _at result whole }
{
    TermsNode::NoTerms
}

fn term_made(text: &[u8], nodes: &[Node], at: usize) -> TermsNode
    requires formed { tree.IsFormed text.now nodes.now }
    requires made { IsMadeBy nodes.now at ACT_TERM }
    ensures { (whole : List AnyPlacedTerm) → tree.IsPartAt text.now nodes.now at (POther (PTerms whole)) → IsTermsNode text.now nodes.now at result whole }
{
    let terms = place_of(text, nodes, at, ACT_TERM, 1);
    let term = place_of(text, nodes, at, ACT_TERM, 0);
    TermsNode::Term { terms, term }
}

fn next_term_made(text: &[u8], nodes: &[Node], at: usize) -> TermsNode
    requires formed { tree.IsFormed text.now nodes.now }
    requires made { IsMadeBy nodes.now at ACT_NEXT_TERM }
    ensures { (whole : List AnyPlacedTerm) → tree.IsPartAt text.now nodes.now at (POther (PTerms whole)) → IsTermsNode text.now nodes.now at result whole }
{
    let terms = place_of(text, nodes, at, ACT_NEXT_TERM, 2);
    let term = place_of(text, nodes, at, ACT_NEXT_TERM, 0);
    TermsNode::NextTerm { terms, term }
}

fn in_terms_made(text: &[u8], nodes: &[Node], at: usize) -> TermsNode
    requires formed { tree.IsFormed text.now nodes.now }
    requires made { IsMadeBy nodes.now at ACT_IN_TERMS }
    ensures { (whole : List AnyPlacedTerm) → tree.IsPartAt text.now nodes.now at (POther (PTerms whole)) → IsTermsNode text.now nodes.now at result whole }
{
    let terms = place_of(text, nodes, at, ACT_IN_TERMS, 1);
    TermsNode::InTerms { terms }
}

fn word_terms_made(text: &[u8], nodes: &[Node], at: usize) -> TermsNode
    requires formed { tree.IsFormed text.now nodes.now }
    requires made { IsMadeBy nodes.now at ACT_WORD_TERMS }
    ensures { (whole : List AnyPlacedTerm) → tree.IsPartAt text.now nodes.now at (POther (PTerms whole)) → IsTermsNode text.now nodes.now at result whole }
{
    let terms = place_of(text, nodes, at, ACT_WORD_TERMS, 0);
    TermsNode::WordTerms { terms }
}

/// The node at a place where a part of the kind Terms stands.
pub fn terms_node(text: &[u8], nodes: &[Node], at: usize) -> TermsNode
    requires formed { tree.IsFormed text.now nodes.now }
    requires some { IsSomeTerms text.now nodes.now at }
    ensures { (whole : List AnyPlacedTerm) → tree.IsPartAt text.now nodes.now at (POther (PTerms whole)) → IsTermsNode text.now nodes.now at result whole }
{
    match act_of(nodes, at) {
        ACT_NO_TERMS => no_terms_made(text, nodes, at),
        ACT_TERM => term_made(text, nodes, at),
        ACT_NEXT_TERM => next_term_made(text, nodes, at),
        ACT_IN_TERMS => in_terms_made(text, nodes, at),
        ACT_WORD_TERMS => word_terms_made(text, nodes, at),
        _ => unreachable!(),
    }
}
