//! Item nodes. Made by tools/script_nodes.py from script.grammar: edit that.
#![tactic(auto, unfolding(gv_scriptsyntax::specs::Nodes::arity))]

ghost use Rattle.std.specs.Prelude.{◌≡◌};
ghost use Rattle.gv_termread.specs.declared.generated.term_acts.Part.TheVariants.{Other as POther};
ghost use Rattle.gv_scriptsyntax.specs.declared.generated.script_acts.ScriptPart.TheVariants.{Item as PItem};
ghost use Rattle.gv_scriptsyntax.specs.declared.tree.Item.{Item as AnyItem};
ghost use Rattle.gv_scriptsyntax.specs.Nodes as tree;
ghost use Rattle.gv_certnodes.specs.Places.{IsMadeBy};
ghost use Rattle.gv_declnodes.specs.Item.{IsItemNode, IsSomeItem};

use gv_certnodes::{act_of, place_of};
use gv_scriptsyntax::Node;
use gv_scriptsyntax::generated::script_table::{ACT_FACT, ACT_HELD};

/// Which act makes a part of the kind Item, with the tokens and the places of the parts that it takes.
#[derive(Clone, Copy)]
pub enum ItemNode {
    Fact { term: usize },
    Held { held: usize },
}

fn fact_made(text: &[u8], nodes: &[Node], at: usize) -> ItemNode
    requires formed { tree.IsFormed text.now nodes.now }
    requires made { IsMadeBy nodes.now at ACT_FACT }
    ensures { (whole : AnyItem) → tree.IsPartAt text.now nodes.now at (POther (PItem whole)) → IsItemNode text.now nodes.now at result whole }
{
    let term = place_of(text, nodes, at, ACT_FACT, 0);
    ItemNode::Fact { term }
}

fn held_made(text: &[u8], nodes: &[Node], at: usize) -> ItemNode
    requires formed { tree.IsFormed text.now nodes.now }
    requires made { IsMadeBy nodes.now at ACT_HELD }
    ensures { (whole : AnyItem) → tree.IsPartAt text.now nodes.now at (POther (PItem whole)) → IsItemNode text.now nodes.now at result whole }
{
    let held = place_of(text, nodes, at, ACT_HELD, 0);
    ItemNode::Held { held }
}

/// The node at a place where a part of the kind Item stands.
pub fn item_node(text: &[u8], nodes: &[Node], at: usize) -> ItemNode
    requires formed { tree.IsFormed text.now nodes.now }
    requires some { IsSomeItem text.now nodes.now at }
    ensures { (whole : AnyItem) → tree.IsPartAt text.now nodes.now at (POther (PItem whole)) → IsItemNode text.now nodes.now at result whole }
{
    match act_of(nodes, at) {
        ACT_FACT => fact_made(text, nodes, at),
        ACT_HELD => held_made(text, nodes, at),
        _ => unreachable!(),
    }
}
