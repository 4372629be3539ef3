//! Cases nodes. Made by tools/script_nodes.py from script.grammar: edit that.
#![tactic(auto, unfolding(gv_scriptsyntax::specs::Nodes::arity))]

ghost use Rattle.std.specs.Prelude.{◌≡◌, List};
ghost use Rattle.gv_termread.specs.declared.generated.term_acts.Part.TheVariants.{Other as POther};
ghost use Rattle.gv_scriptsyntax.specs.declared.generated.script_acts.ScriptPart.TheVariants.{Cases as PCases};
ghost use Rattle.gv_scriptsyntax.specs.declared.tree.Case.{Case as AnyCase};
ghost use Rattle.gv_scriptsyntax.specs.Nodes as tree;
ghost use Rattle.gv_certnodes.specs.Places.{IsMadeBy};
ghost use Rattle.gv_declnodes.specs.Cases.{IsCasesNode, IsSomeCases};

use gv_certnodes::{act_of, place_of};
use gv_scriptsyntax::Node;
use gv_scriptsyntax::generated::script_table::{ACT_NEXT_CASE, ACT_NO_CASES};

/// Which act makes a part of the kind Cases, with the tokens and the places of the parts that it takes.
#[derive(Clone, Copy)]
pub enum CasesNode {
    NoCases,
    NextCase { cases: usize, next: usize },
}

fn no_cases_made(_text: &[u8], _nodes: &[Node], _at: usize) -> CasesNode
    requires formed { tree.IsFormed _text.now _nodes.now }
    requires made { IsMadeBy _nodes.now _at ACT_NO_CASES }
    ensures { (whole : List AnyCase) → tree.IsPartAt _text.now _nodes.now _at (POther (PCases whole)) → IsCasesNode _text.now _nodes.now _at result whole }
{
    CasesNode::NoCases
}

fn next_case_made(text: &[u8], nodes: &[Node], at: usize) -> CasesNode
    requires formed { tree.IsFormed text.now nodes.now }
    requires made { IsMadeBy nodes.now at ACT_NEXT_CASE }
    ensures { (whole : List AnyCase) → tree.IsPartAt text.now nodes.now at (POther (PCases whole)) → IsCasesNode text.now nodes.now at result whole }
{
    let cases = place_of(text, nodes, at, ACT_NEXT_CASE, 1);
    let next = place_of(text, nodes, at, ACT_NEXT_CASE, 0);
    CasesNode::NextCase { cases, next }
}

/// The node at a place where a part of the kind Cases stands.
pub fn cases_node(text: &[u8], nodes: &[Node], at: usize) -> CasesNode
    requires formed { tree.IsFormed text.now nodes.now }
    requires some { IsSomeCases text.now nodes.now at }
    ensures { (whole : List AnyCase) → tree.IsPartAt text.now nodes.now at (POther (PCases whole)) → IsCasesNode text.now nodes.now at result whole }
{
    match act_of(nodes, at) {
        ACT_NO_CASES => no_cases_made(text, nodes, at),
        ACT_NEXT_CASE => next_case_made(text, nodes, at),
        _ => unreachable!(),
    }
}
