//! Haves nodes. Made by tools/script_nodes.py from script.grammar: edit that.
#![tactic(auto, unfolding(gv_scriptsyntax::specs::Nodes::arity))]

ghost use Rattle.std.specs.Prelude.{◌≡◌, List};
ghost use Rattle.gv_termread.specs.declared.generated.term_acts.Part.TheVariants.{Other as POther};
ghost use Rattle.gv_scriptsyntax.specs.declared.generated.script_acts.ScriptPart.TheVariants.{Haves as PHaves};
ghost use Rattle.gv_scriptsyntax.specs.declared.tree.Have.{Have as AnyHave};
ghost use Rattle.gv_scriptsyntax.specs.Nodes as tree;
ghost use Rattle.gv_certnodes.specs.Places.{IsMadeBy};
ghost use Rattle.gv_certnodes.specs.Haves.{IsHavesNode, IsSomeHaves};

use crate::parts::{act_of, place_of, token_of};
use gv_scriptsyntax::Node;
use gv_scriptsyntax::generated::script_table::{ACT_NO_HAVES, ACT_STEP_HAVE};
use gv_termread::SeenToken;

/// Which act makes a part of the kind Haves, with the tokens and the places of the parts that it takes.
#[derive(Clone, Copy)]
pub enum HavesNode {
    NoHaves,
    StepHave {
        haves: usize,
        word: SeenToken,
        term: usize,
        proof: usize,
    },
}

fn no_haves_made(_text: &[u8], _nodes: &[Node], _at: usize) -> HavesNode
    requires formed { tree.IsFormed _text.now _nodes.now }
    requires made { IsMadeBy _nodes.now _at ACT_NO_HAVES }
    ensures { (whole : List AnyHave) → tree.IsPartAt _text.now _nodes.now _at (POther (PHaves whole)) → IsHavesNode _text.now _nodes.now _at result whole }
{
    HavesNode::NoHaves
}

fn step_have_made(text: &[u8], nodes: &[Node], at: usize) -> HavesNode
    requires formed { tree.IsFormed text.now nodes.now }
    requires made { IsMadeBy nodes.now at ACT_STEP_HAVE }
    ensures { (whole : List AnyHave) → tree.IsPartAt text.now nodes.now at (POther (PHaves whole)) → IsHavesNode text.now nodes.now at result whole }
{
    let haves = place_of(text, nodes, at, ACT_STEP_HAVE, 5);
    let word = token_of(text, nodes, at, ACT_STEP_HAVE, 4);
    let term = place_of(text, nodes, at, ACT_STEP_HAVE, 3);
    let proof = place_of(text, nodes, at, ACT_STEP_HAVE, 1);
    HavesNode::StepHave {
        haves,
        word,
        term,
        proof,
    }
}

/// The node at a place where a part of the kind Haves stands.
pub fn haves_node(text: &[u8], nodes: &[Node], at: usize) -> HavesNode
    requires formed { tree.IsFormed text.now nodes.now }
    requires some { IsSomeHaves text.now nodes.now at }
    ensures { (whole : List AnyHave) → tree.IsPartAt text.now nodes.now at (POther (PHaves whole)) → IsHavesNode text.now nodes.now at result whole }
{
    match act_of(nodes, at) {
        ACT_NO_HAVES => no_haves_made(text, nodes, at),
        ACT_STEP_HAVE => step_have_made(text, nodes, at),
        _ => unreachable!(),
    }
}
