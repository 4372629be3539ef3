//! Items nodes. Made by tools/script_nodes.py from script.grammar: edit that.
#![tactic(auto, unfolding(gv_scriptsyntax::specs::Nodes::arity))]

ghost use Rattle.std.specs.Prelude.{◌≡◌, List};
ghost use Rattle.gv_termread.specs.declared.generated.term_acts.Part.TheVariants.{Other as POther};
ghost use Rattle.gv_scriptsyntax.specs.declared.generated.script_acts.ScriptPart.TheVariants.{Items as PItems};
ghost use Rattle.gv_scriptsyntax.specs.declared.tree.Item.{Item as AnyItem};
ghost use Rattle.gv_scriptsyntax.specs.Nodes as tree;
ghost use Rattle.gv_certnodes.specs.Places.{IsMadeBy};
ghost use Rattle.gv_declnodes.specs.Items.{IsItemsNode, IsSomeItems};

use gv_certnodes::{act_of, place_of};
use gv_scriptsyntax::Node;
use gv_scriptsyntax::generated::script_table::{ACT_IN_ITEMS, ACT_ITEM, ACT_NO_ITEMS};

/// Which act makes a part of the kind Items, with the tokens and the places of the parts that it takes.
#[derive(Clone, Copy)]
pub enum ItemsNode {
    NoItems,
    Item { items: usize, next: usize },
    InItems { items: usize },
}

fn no_items_made(_text: &[u8], _nodes: &[Node], _at: usize) -> ItemsNode
    requires formed { tree.IsFormed _text.now _nodes.now }
    requires made { IsMadeBy _nodes.now _at ACT_NO_ITEMS }
    ensures { (whole : List AnyItem) → tree.IsPartAt _text.now _nodes.now _at (POther (PItems whole)) → IsItemsNode _text.now _nodes.now _at result whole }
{
    ItemsNode::NoItems
}

fn item_made(text: &[u8], nodes: &[Node], at: usize) -> ItemsNode
    requires formed { tree.IsFormed text.now nodes.now }
    requires made { IsMadeBy nodes.now at ACT_ITEM }
    ensures { (whole : List AnyItem) → tree.IsPartAt text.now nodes.now at (POther (PItems whole)) → IsItemsNode text.now nodes.now at result whole }
{
    let items = place_of(text, nodes, at, ACT_ITEM, 2);
    let next = place_of(text, nodes, at, ACT_ITEM, 1);
    ItemsNode::Item { items, next }
}

fn in_items_made(text: &[u8], nodes: &[Node], at: usize) -> ItemsNode
    requires formed { tree.IsFormed text.now nodes.now }
    requires made { IsMadeBy nodes.now at ACT_IN_ITEMS }
    ensures { (whole : List AnyItem) → tree.IsPartAt text.now nodes.now at (POther (PItems whole)) → IsItemsNode text.now nodes.now at result whole }
{
    let items = place_of(text, nodes, at, ACT_IN_ITEMS, 1);
    ItemsNode::InItems { items }
}

/// The node at a place where a part of the kind Items stands.
pub fn items_node(text: &[u8], nodes: &[Node], at: usize) -> ItemsNode
    requires formed { tree.IsFormed text.now nodes.now }
    requires some { IsSomeItems text.now nodes.now at }
    ensures { (whole : List AnyItem) → tree.IsPartAt text.now nodes.now at (POther (PItems whole)) → IsItemsNode text.now nodes.now at result whole }
{
    match act_of(nodes, at) {
        ACT_NO_ITEMS => no_items_made(text, nodes, at),
        ACT_ITEM => item_made(text, nodes, at),
        ACT_IN_ITEMS => in_items_made(text, nodes, at),
        _ => unreachable!(),
    }
}
