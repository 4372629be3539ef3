//! Factors nodes. Made by tools/script_nodes.py from script.grammar: edit that.
#![tactic(auto, unfolding(gv_scriptsyntax::specs::Nodes::arity))]

ghost use Rattle.std.specs.Prelude.{◌≡◌, List};
ghost use Rattle.gv_termread.specs.declared.generated.term_acts.Part.TheVariants.{Other as POther};
ghost use Rattle.gv_scriptsyntax.specs.declared.generated.script_acts.ScriptPart.TheVariants.{Factors as PFactors};
ghost use Rattle.gv_scriptsyntax.specs.declared.tree.Factor.{Factor as AnyFactor};
ghost use Rattle.gv_scriptsyntax.specs.Nodes as tree;
ghost use Rattle.gv_certnodes.specs.Places.{IsMadeBy};
ghost use Rattle.gv_certnodes.specs.Factors.{IsFactorsNode, IsSomeFactors};

use crate::parts::{act_of, place_of};
use gv_scriptsyntax::Node;
use gv_scriptsyntax::generated::script_table::{ACT_FACTOR, ACT_NEXT_FACTOR, ACT_NO_FACTORS};

/// Which act makes a part of the kind Factors, with the tokens and the places of the parts that it takes.
#[derive(Clone, Copy)]
pub enum FactorsNode {
    NoFactors,
    Factor { factors: usize, factor: usize },
    NextFactor { factors: usize, factor: usize },
}

fn no_factors_made(_text: &[u8], _nodes: &[Node], _at: usize) -> FactorsNode
    requires formed { tree.IsFormed _text.now _nodes.now }
    requires made { IsMadeBy _nodes.now _at ACT_NO_FACTORS }
    ensures { (whole : List AnyFactor) → tree.IsPartAt _text.now _nodes.now _at (POther (PFactors whole)) → IsFactorsNode _text.now _nodes.now _at result whole }
{
    FactorsNode::NoFactors
}

fn factor_made(text: &[u8], nodes: &[Node], at: usize) -> FactorsNode
    requires formed { tree.IsFormed text.now nodes.now }
    requires made { IsMadeBy nodes.now at ACT_FACTOR }
    ensures { (whole : List AnyFactor) → tree.IsPartAt text.now nodes.now at (POther (PFactors whole)) → IsFactorsNode text.now nodes.now at result whole }
{
    let factors = place_of(text, nodes, at, ACT_FACTOR, 1);
    let factor = place_of(text, nodes, at, ACT_FACTOR, 0);
    FactorsNode::Factor { factors, factor }
}

fn next_factor_made(text: &[u8], nodes: &[Node], at: usize) -> FactorsNode
    requires formed { tree.IsFormed text.now nodes.now }
    requires made { IsMadeBy nodes.now at ACT_NEXT_FACTOR }
    ensures { (whole : List AnyFactor) → tree.IsPartAt text.now nodes.now at (POther (PFactors whole)) → IsFactorsNode text.now nodes.now at result whole }
{
    let factors = place_of(text, nodes, at, ACT_NEXT_FACTOR, 2);
    let factor = place_of(text, nodes, at, ACT_NEXT_FACTOR, 0);
    FactorsNode::NextFactor { factors, factor }
}

/// The node at a place where a part of the kind Factors stands.
pub fn factors_node(text: &[u8], nodes: &[Node], at: usize) -> FactorsNode
    requires formed { tree.IsFormed text.now nodes.now }
    requires some { IsSomeFactors text.now nodes.now at }
    ensures { (whole : List AnyFactor) → tree.IsPartAt text.now nodes.now at (POther (PFactors whole)) → IsFactorsNode text.now nodes.now at result whole }
{
    match act_of(nodes, at) {
        ACT_NO_FACTORS => no_factors_made(text, nodes, at),
        ACT_FACTOR => factor_made(text, nodes, at),
        ACT_NEXT_FACTOR => next_factor_made(text, nodes, at),
        _ => unreachable!(),
    }
}
