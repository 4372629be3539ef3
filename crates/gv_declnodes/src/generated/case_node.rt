//! Case nodes. Made by tools/script_nodes.py from script.grammar: edit that.
#![tactic(auto, unfolding(gv_scriptsyntax::specs::Nodes::arity))]

ghost use Rattle.std.specs.Prelude.{◌≡◌};
ghost use Rattle.gv_termread.specs.declared.generated.term_acts.Part.TheVariants.{Other as POther};
ghost use Rattle.gv_scriptsyntax.specs.declared.generated.script_acts.ScriptPart.TheVariants.{Case as PCase};
ghost use Rattle.gv_scriptsyntax.specs.declared.tree.Case.{Case as AnyCase};
ghost use Rattle.gv_scriptsyntax.specs.Nodes as tree;
ghost use Rattle.gv_certnodes.specs.Places.{IsMadeBy};
ghost use Rattle.gv_declnodes.specs.Case.{IsCaseNode, IsSomeCase};

use gv_certnodes::{act_of, place_of};
use gv_scriptsyntax::Node;
use gv_scriptsyntax::generated::script_table::ACT_CASE;

/// Which act makes a part of the kind Case, with the tokens and the places of the parts that it takes.
#[derive(Clone, Copy)]
pub enum CaseNode {
    Case { vars: usize, items: usize },
}

fn case_made(text: &[u8], nodes: &[Node], at: usize) -> CaseNode
    requires formed { tree.IsFormed text.now nodes.now }
    requires made { IsMadeBy nodes.now at ACT_CASE }
    ensures { (whole : AnyCase) → tree.IsPartAt text.now nodes.now at (POther (PCase whole)) → IsCaseNode text.now nodes.now at result whole }
{
    let vars = place_of(text, nodes, at, ACT_CASE, 1);
    let items = place_of(text, nodes, at, ACT_CASE, 0);
    CaseNode::Case { vars, items }
}

/// The node at a place where a part of the kind Case stands.
pub fn case_node(text: &[u8], nodes: &[Node], at: usize) -> CaseNode
    requires formed { tree.IsFormed text.now nodes.now }
    requires some { IsSomeCase text.now nodes.now at }
    ensures { (whole : AnyCase) → tree.IsPartAt text.now nodes.now at (POther (PCase whole)) → IsCaseNode text.now nodes.now at result whole }
{
    match act_of(nodes, at) {
        ACT_CASE => case_made(text, nodes, at),
        _ => unreachable!(),
    }
}
