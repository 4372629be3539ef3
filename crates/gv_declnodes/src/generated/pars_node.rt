//! Pars nodes. Made by tools/script_nodes.py from script.grammar: edit that.
#![tactic(auto, unfolding(gv_scriptsyntax::specs::Nodes::arity))]

ghost use Rattle.std.specs.Prelude.{◌≡◌, List};
ghost use Rattle.gv_termread.specs.declared.generated.term_acts.Part.TheVariants.{Other as POther};
ghost use Rattle.gv_scriptsyntax.specs.declared.generated.script_acts.ScriptPart.TheVariants.{Pars as PPars};
ghost use Rattle.gv_scriptsyntax.specs.declared.tree.Par.{Par as AnyPar};
ghost use Rattle.gv_scriptsyntax.specs.Nodes as tree;
ghost use Rattle.gv_certnodes.specs.Places.{IsMadeBy};
ghost use Rattle.gv_declnodes.specs.Pars.{IsParsNode, IsSomePars};

use gv_certnodes::{act_of, place_of, token_of};
use gv_scriptsyntax::Node;
use gv_scriptsyntax::generated::script_table::{ACT_IN_PARS, ACT_NEXT_PAR, ACT_NO_PARS, ACT_PAR};
use gv_termread::SeenToken;

/// Which act makes a part of the kind Pars, with the tokens and the places of the parts that it takes.
#[derive(Clone, Copy)]
pub enum ParsNode {
    NoPars,
    Par {
        pars: usize,
        name: SeenToken,
        sort: SeenToken,
    },
    NextPar {
        pars: usize,
        name: SeenToken,
        sort: SeenToken,
    },
    InPars {
        pars: usize,
    },
}

fn no_pars_made(_text: &[u8], _nodes: &[Node], _at: usize) -> ParsNode
    requires formed { tree.IsFormed _text.now _nodes.now }
    requires made { IsMadeBy _nodes.now _at ACT_NO_PARS }
    ensures { (whole : List AnyPar) → tree.IsPartAt _text.now _nodes.now _at (POther (PPars whole)) → IsParsNode _text.now _nodes.now _at result whole }
{
    ParsNode::NoPars
}

fn par_made(text: &[u8], nodes: &[Node], at: usize) -> ParsNode
    requires formed { tree.IsFormed text.now nodes.now }
    requires made { IsMadeBy nodes.now at ACT_PAR }
    ensures { (whole : List AnyPar) → tree.IsPartAt text.now nodes.now at (POther (PPars whole)) → IsParsNode text.now nodes.now at result whole }
{
    let pars = place_of(text, nodes, at, ACT_PAR, 3);
    let name = token_of(text, nodes, at, ACT_PAR, 2);
    let sort = token_of(text, nodes, at, ACT_PAR, 0);
    ParsNode::Par { pars, name, sort }
}

fn next_par_made(text: &[u8], nodes: &[Node], at: usize) -> ParsNode
    requires formed { tree.IsFormed text.now nodes.now }
    requires made { IsMadeBy nodes.now at ACT_NEXT_PAR }
    ensures { (whole : List AnyPar) → tree.IsPartAt text.now nodes.now at (POther (PPars whole)) → IsParsNode text.now nodes.now at result whole }
{
    let pars = place_of(text, nodes, at, ACT_NEXT_PAR, 4);
    let name = token_of(text, nodes, at, ACT_NEXT_PAR, 2);
    let sort = token_of(text, nodes, at, ACT_NEXT_PAR, 0);
    ParsNode::NextPar { pars, name, sort }
}

fn in_pars_made(text: &[u8], nodes: &[Node], at: usize) -> ParsNode
    requires formed { tree.IsFormed text.now nodes.now }
    requires made { IsMadeBy nodes.now at ACT_IN_PARS }
    ensures { (whole : List AnyPar) → tree.IsPartAt text.now nodes.now at (POther (PPars whole)) → IsParsNode text.now nodes.now at result whole }
{
    let pars = place_of(text, nodes, at, ACT_IN_PARS, 1);
    ParsNode::InPars { pars }
}

/// The node at a place where a part of the kind Pars stands.
pub fn pars_node(text: &[u8], nodes: &[Node], at: usize) -> ParsNode
    requires formed { tree.IsFormed text.now nodes.now }
    requires some { IsSomePars text.now nodes.now at }
    ensures { (whole : List AnyPar) → tree.IsPartAt text.now nodes.now at (POther (PPars whole)) → IsParsNode text.now nodes.now at result whole }
{
    match act_of(nodes, at) {
        ACT_NO_PARS => no_pars_made(text, nodes, at),
        ACT_PAR => par_made(text, nodes, at),
        ACT_NEXT_PAR => next_par_made(text, nodes, at),
        ACT_IN_PARS => in_pars_made(text, nodes, at),
        _ => unreachable!(),
    }
}
