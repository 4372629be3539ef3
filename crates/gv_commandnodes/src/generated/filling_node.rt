//! Filling nodes. Made by tools/script_nodes.py from script.grammar: edit that.
#![tactic(auto, unfolding(gv_scriptsyntax::specs::Nodes::arity))]

ghost use Rattle.std.specs.Prelude.{◌≡◌};
ghost use Rattle.gv_termread.specs.declared.generated.term_acts.Part.TheVariants.{Other as POther};
ghost use Rattle.gv_scriptsyntax.specs.declared.generated.script_acts.ScriptPart.TheVariants.{Filling as PFilling};
ghost use Rattle.gv_scriptsyntax.specs.declared.tree.Filling.{Filling as AnyFilling};
ghost use Rattle.gv_scriptsyntax.specs.Nodes as tree;
ghost use Rattle.gv_certnodes.specs.Places.{IsMadeBy};
ghost use Rattle.gv_commandnodes.specs.Filling.{IsFillingNode, IsSomeFilling};

use gv_certnodes::{act_of, place_of, token_of};
use gv_scriptsyntax::Node;
use gv_scriptsyntax::generated::script_table::{ACT_FILLED, ACT_FILLED_PARENS, ACT_HOLE_TERMS};
use gv_termread::SeenToken;

/// Which act makes a part of the kind Filling, with the tokens and the places of the parts that it takes.
#[derive(Clone, Copy)]
pub enum FillingNode {
    HoleTerms { hole: SeenToken },
    Filled { terms: usize },
    FilledParens { terms: usize },
}

fn hole_terms_made(text: &[u8], nodes: &[Node], at: usize) -> FillingNode
    requires formed { tree.IsFormed text.now nodes.now }
    requires made { IsMadeBy nodes.now at ACT_HOLE_TERMS }
    ensures { (whole : AnyFilling) → tree.IsPartAt text.now nodes.now at (POther (PFilling whole)) → IsFillingNode text.now nodes.now at result whole }
{
    let hole = token_of(text, nodes, at, ACT_HOLE_TERMS, 1);
    FillingNode::HoleTerms { hole }
}

fn filled_made(text: &[u8], nodes: &[Node], at: usize) -> FillingNode
    requires formed { tree.IsFormed text.now nodes.now }
    requires made { IsMadeBy nodes.now at ACT_FILLED }
    ensures { (whole : AnyFilling) → tree.IsPartAt text.now nodes.now at (POther (PFilling whole)) → IsFillingNode text.now nodes.now at result whole }
{
    let terms = place_of(text, nodes, at, ACT_FILLED, 0);
    FillingNode::Filled { terms }
}

fn filled_parens_made(text: &[u8], nodes: &[Node], at: usize) -> FillingNode
    requires formed { tree.IsFormed text.now nodes.now }
    requires made { IsMadeBy nodes.now at ACT_FILLED_PARENS }
    ensures { (whole : AnyFilling) → tree.IsPartAt text.now nodes.now at (POther (PFilling whole)) → IsFillingNode text.now nodes.now at result whole }
{
    let terms = place_of(text, nodes, at, ACT_FILLED_PARENS, 1);
    FillingNode::FilledParens { terms }
}

/// The node at a place where a part of the kind Filling stands.
pub fn filling_node(text: &[u8], nodes: &[Node], at: usize) -> FillingNode
    requires formed { tree.IsFormed text.now nodes.now }
    requires some { IsSomeFilling text.now nodes.now at }
    ensures { (whole : AnyFilling) → tree.IsPartAt text.now nodes.now at (POther (PFilling whole)) → IsFillingNode text.now nodes.now at result whole }
{
    match act_of(nodes, at) {
        ACT_HOLE_TERMS => hole_terms_made(text, nodes, at),
        ACT_FILLED => filled_made(text, nodes, at),
        ACT_FILLED_PARENS => filled_parens_made(text, nodes, at),
        _ => unreachable!(),
    }
}
