//! Preds nodes. Made by tools/script_nodes.py from script.grammar: edit that.
#![tactic(auto, unfolding(gv_scriptsyntax::specs::Nodes::arity))]

ghost use Rattle.std.specs.Prelude.{◌≡◌, List};
ghost use Rattle.gv_termread.specs.declared.generated.term_acts.Part.TheVariants.{Other as POther};
ghost use Rattle.gv_scriptsyntax.specs.declared.generated.script_acts.ScriptPart.TheVariants.{Preds as PPreds};
ghost use Rattle.gv_scriptsyntax.specs.declared.tree.Pred.{Pred as AnyPred};
ghost use Rattle.gv_scriptsyntax.specs.Nodes as tree;
ghost use Rattle.gv_certnodes.specs.Places.{IsMadeBy};
ghost use Rattle.gv_declnodes.specs.Preds.{IsPredsNode, IsSomePreds};

use gv_certnodes::{act_of, place_of, token_of};
use gv_scriptsyntax::Node;
use gv_scriptsyntax::generated::script_table::{ACT_NO_PREDS, ACT_PRED};
use gv_termread::SeenToken;

/// Which act makes a part of the kind Preds, with the tokens and the places of the parts that it takes.
#[derive(Clone, Copy)]
pub enum PredsNode {
    NoPreds,
    Pred {
        preds: usize,
        name: SeenToken,
        params: usize,
        cases: usize,
    },
}

fn no_preds_made(_text: &[u8], _nodes: &[Node], _at: usize) -> PredsNode
    requires formed { tree.IsFormed _text.now _nodes.now }
    requires made { IsMadeBy _nodes.now _at ACT_NO_PREDS }
    ensures { (whole : List AnyPred) → tree.IsPartAt _text.now _nodes.now _at (POther (PPreds whole)) → IsPredsNode _text.now _nodes.now _at result whole }
{
    PredsNode::NoPreds
}

fn pred_made(text: &[u8], nodes: &[Node], at: usize) -> PredsNode
    requires formed { tree.IsFormed text.now nodes.now }
    requires made { IsMadeBy nodes.now at ACT_PRED }
    ensures { (whole : List AnyPred) → tree.IsPartAt text.now nodes.now at (POther (PPreds whole)) → IsPredsNode text.now nodes.now at result whole }
{
    let preds = place_of(text, nodes, at, ACT_PRED, 6);
    let name = token_of(text, nodes, at, ACT_PRED, 4);
    let params = place_of(text, nodes, at, ACT_PRED, 3);
    let cases = place_of(text, nodes, at, ACT_PRED, 1);
    PredsNode::Pred {
        preds,
        name,
        params,
        cases,
    }
}

/// The node at a place where a part of the kind Preds stands.
pub fn preds_node(text: &[u8], nodes: &[Node], at: usize) -> PredsNode
    requires formed { tree.IsFormed text.now nodes.now }
    requires some { IsSomePreds text.now nodes.now at }
    ensures { (whole : List AnyPred) → tree.IsPartAt text.now nodes.now at (POther (PPreds whole)) → IsPredsNode text.now nodes.now at result whole }
{
    match act_of(nodes, at) {
        ACT_NO_PREDS => no_preds_made(text, nodes, at),
        ACT_PRED => pred_made(text, nodes, at),
        _ => unreachable!(),
    }
}
