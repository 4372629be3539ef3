//! Factor nodes. Made by tools/script_nodes.py from script.grammar: edit that.
#![tactic(auto, unfolding(gv_scriptsyntax::specs::Nodes::arity))]

ghost use Rattle.std.specs.Prelude.{◌≡◌};
ghost use Rattle.gv_termread.specs.declared.generated.term_acts.Part.TheVariants.{Other as POther};
ghost use Rattle.gv_scriptsyntax.specs.declared.generated.script_acts.ScriptPart.TheVariants.{Factor as PFactor};
ghost use Rattle.gv_scriptsyntax.specs.declared.tree.Factor.{Factor as AnyFactor};
ghost use Rattle.gv_scriptsyntax.specs.Nodes as tree;
ghost use Rattle.gv_certnodes.specs.Places.{IsMadeBy};
ghost use Rattle.gv_certnodes.specs.Factor.{IsFactorNode, IsSomeFactor};

use crate::parts::{act_of, place_of, token_of};
use gv_scriptsyntax::Node;
use gv_scriptsyntax::generated::script_table::{ACT_NEGATIVE, ACT_POSITIVE};
use gv_termread::SeenToken;

/// Which act makes a part of the kind Factor, with the tokens and the places of the parts that it takes.
#[derive(Clone, Copy)]
pub enum FactorNode {
    Positive {
        number: SeenToken,
        term: usize,
    },
    Negative {
        minus: SeenToken,
        number: SeenToken,
        term: usize,
    },
}

fn positive_made(text: &[u8], nodes: &[Node], at: usize) -> FactorNode
    requires formed { tree.IsFormed text.now nodes.now }
    requires made { IsMadeBy nodes.now at ACT_POSITIVE }
    ensures { (whole : AnyFactor) → tree.IsPartAt text.now nodes.now at (POther (PFactor whole)) → IsFactorNode text.now nodes.now at result whole }
{
    let number = token_of(text, nodes, at, ACT_POSITIVE, 1);
    let term = place_of(text, nodes, at, ACT_POSITIVE, 0);
    FactorNode::Positive { number, term }
}

fn negative_made(text: &[u8], nodes: &[Node], at: usize) -> FactorNode
    requires formed { tree.IsFormed text.now nodes.now }
    requires made { IsMadeBy nodes.now at ACT_NEGATIVE }
    ensures { (whole : AnyFactor) → tree.IsPartAt text.now nodes.now at (POther (PFactor whole)) → IsFactorNode text.now nodes.now at result whole }
{
    let minus = token_of(text, nodes, at, ACT_NEGATIVE, 2);
    let number = token_of(text, nodes, at, ACT_NEGATIVE, 1);
    let term = place_of(text, nodes, at, ACT_NEGATIVE, 0);
    FactorNode::Negative {
        minus,
        number,
        term,
    }
}

/// The node at a place where a part of the kind Factor stands.
pub fn factor_node(text: &[u8], nodes: &[Node], at: usize) -> FactorNode
    requires formed { tree.IsFormed text.now nodes.now }
    requires some { IsSomeFactor text.now nodes.now at }
    ensures { (whole : AnyFactor) → tree.IsPartAt text.now nodes.now at (POther (PFactor whole)) → IsFactorNode text.now nodes.now at result whole }
{
    match act_of(nodes, at) {
        ACT_POSITIVE => positive_made(text, nodes, at),
        ACT_NEGATIVE => negative_made(text, nodes, at),
        _ => unreachable!(),
    }
}
