//! Cuts nodes. Made by tools/script_nodes.py from script.grammar: edit that.
#![tactic(auto, unfolding(gv_scriptsyntax::specs::Nodes::arity))]

ghost use Rattle.std.specs.Prelude.{◌≡◌, List};
ghost use Rattle.gv_termread.specs.declared.generated.term_acts.Part.TheVariants.{Other as POther};
ghost use Rattle.gv_scriptsyntax.specs.declared.generated.script_acts.ScriptPart.TheVariants.{Cuts as PCuts};
ghost use Rattle.gv_scriptsyntax.specs.declared.tree.Cut.{Cut as AnyCut};
ghost use Rattle.gv_scriptsyntax.specs.Nodes as tree;
ghost use Rattle.gv_certnodes.specs.Places.{IsMadeBy};
ghost use Rattle.gv_declnodes.specs.Cuts.{IsCutsNode, IsSomeCuts};

use gv_certnodes::{act_of, place_of, token_of};
use gv_scriptsyntax::Node;
use gv_scriptsyntax::generated::script_table::{ACT_CUT, ACT_NO_CUTS};
use gv_termread::SeenToken;

/// Which act makes a part of the kind Cuts, with the tokens and the places of the parts that it takes.
#[derive(Clone, Copy)]
pub enum CutsNode {
    NoCuts,
    Cut {
        cuts: usize,
        name: SeenToken,
        number: SeenToken,
        mode: SeenToken,
        locals: usize,
        vars: usize,
        items: usize,
        block: usize,
    },
}

fn no_cuts_made(_text: &[u8], _nodes: &[Node], _at: usize) -> CutsNode
    requires formed { tree.IsFormed _text.now _nodes.now }
    requires made { IsMadeBy _nodes.now _at ACT_NO_CUTS }
    ensures { (whole : List AnyCut) → tree.IsPartAt _text.now _nodes.now _at (POther (PCuts whole)) → IsCutsNode _text.now _nodes.now _at result whole }
{
    CutsNode::NoCuts
}

fn cut_made(text: &[u8], nodes: &[Node], at: usize) -> CutsNode
    requires formed { tree.IsFormed text.now nodes.now }
    requires made { IsMadeBy nodes.now at ACT_CUT }
    ensures { (whole : List AnyCut) → tree.IsPartAt text.now nodes.now at (POther (PCuts whole)) → IsCutsNode text.now nodes.now at result whole }
{
    let cuts = place_of(text, nodes, at, ACT_CUT, 11);
    let name = token_of(text, nodes, at, ACT_CUT, 9);
    let number = token_of(text, nodes, at, ACT_CUT, 7);
    let mode = token_of(text, nodes, at, ACT_CUT, 6);
    let locals = place_of(text, nodes, at, ACT_CUT, 4);
    let vars = place_of(text, nodes, at, ACT_CUT, 2);
    let items = place_of(text, nodes, at, ACT_CUT, 1);
    let block = place_of(text, nodes, at, ACT_CUT, 0);
    CutsNode::Cut {
        cuts,
        name,
        number,
        mode,
        locals,
        vars,
        items,
        block,
    }
}

/// The node at a place where a part of the kind Cuts stands.
pub fn cuts_node(text: &[u8], nodes: &[Node], at: usize) -> CutsNode
    requires formed { tree.IsFormed text.now nodes.now }
    requires some { IsSomeCuts text.now nodes.now at }
    ensures { (whole : List AnyCut) → tree.IsPartAt text.now nodes.now at (POther (PCuts whole)) → IsCutsNode text.now nodes.now at result whole }
{
    match act_of(nodes, at) {
        ACT_NO_CUTS => no_cuts_made(text, nodes, at),
        ACT_CUT => cut_made(text, nodes, at),
        _ => unreachable!(),
    }
}
