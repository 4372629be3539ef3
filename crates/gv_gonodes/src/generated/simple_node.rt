//! Simple nodes. Made by tools/nodes.py from gosyntax.grammar: edit that.
#![tactic(auto, unfolding(gv_gosyntax::specs::Nodes::arity))]

ghost use Rattle.std.specs.Prelude.{◌≡◌};
ghost use Rattle.gv_gosyntax.specs.declared.generated.gosyntax_acts.Part.TheVariants.{Simple as PSimple};
ghost use Rattle.gv_gosyntax.specs.declared.tree.Simple.{Simple as AnySimple};
ghost use Rattle.gv_gosyntax.specs.Nodes as tree;
ghost use Rattle.gv_gonodes.specs.Places.{IsMadeBy};
ghost use Rattle.gv_gonodes.specs.Simple.{IsSimpleNode, IsSomeSimple};

use crate::parts::{act_of, place_of, token_of};
use gv_gosyntax::generated::gosyntax_table::{ACT_ASSIGN, ACT_COUNT, ACT_DO, ACT_UPDATE};
use gv_gosyntax::{Lexeme, Node};

/// Which act makes a part of the kind Simple, with the tokens and the places of the parts that it takes.
#[derive(Clone, Copy)]
pub enum SimpleNode {
    Assign {
        lefts: usize,
        sign: Lexeme,
        right: usize,
    },
    Count {
        name: usize,
        sign: Lexeme,
    },
    Update {
        name: usize,
        sign: Lexeme,
        value: usize,
    },
    Do {
        done: usize,
    },
}

fn assign_made(nodes: &[Node], at: usize) -> SimpleNode
    requires formed { tree.IsFormed nodes.now }
    requires made { IsMadeBy nodes.now at ACT_ASSIGN }
    ensures { (whole : AnySimple) → tree.IsPartAt nodes.now at (PSimple whole) → IsSimpleNode nodes.now at result whole }
{
    let lefts = place_of(nodes, at, ACT_ASSIGN, 2);
    let sign = token_of(nodes, at, ACT_ASSIGN, 1);
    let right = place_of(nodes, at, ACT_ASSIGN, 0);
    SimpleNode::Assign { lefts, sign, right }
}

fn count_made(nodes: &[Node], at: usize) -> SimpleNode
    requires formed { tree.IsFormed nodes.now }
    requires made { IsMadeBy nodes.now at ACT_COUNT }
    ensures { (whole : AnySimple) → tree.IsPartAt nodes.now at (PSimple whole) → IsSimpleNode nodes.now at result whole }
{
    let name = place_of(nodes, at, ACT_COUNT, 1);
    let sign = token_of(nodes, at, ACT_COUNT, 0);
    SimpleNode::Count { name, sign }
}

fn update_made(nodes: &[Node], at: usize) -> SimpleNode
    requires formed { tree.IsFormed nodes.now }
    requires made { IsMadeBy nodes.now at ACT_UPDATE }
    ensures { (whole : AnySimple) → tree.IsPartAt nodes.now at (PSimple whole) → IsSimpleNode nodes.now at result whole }
{
    let name = place_of(nodes, at, ACT_UPDATE, 2);
    let sign = token_of(nodes, at, ACT_UPDATE, 1);
    let value = place_of(nodes, at, ACT_UPDATE, 0);
    SimpleNode::Update { name, sign, value }
}

fn do_made(nodes: &[Node], at: usize) -> SimpleNode
    requires formed { tree.IsFormed nodes.now }
    requires made { IsMadeBy nodes.now at ACT_DO }
    ensures { (whole : AnySimple) → tree.IsPartAt nodes.now at (PSimple whole) → IsSimpleNode nodes.now at result whole }
{
    let done = place_of(nodes, at, ACT_DO, 0);
    SimpleNode::Do { done }
}

/// The node at a place where a part of the kind Simple stands.
pub fn simple_node(nodes: &[Node], at: usize) -> SimpleNode
    requires formed { tree.IsFormed nodes.now }
    requires some { IsSomeSimple nodes.now at }
    ensures { (whole : AnySimple) → tree.IsPartAt nodes.now at (PSimple whole) → IsSimpleNode nodes.now at result whole }
{
    match act_of(nodes, at) {
        ACT_ASSIGN => assign_made(nodes, at),
        ACT_COUNT => count_made(nodes, at),
        ACT_UPDATE => update_made(nodes, at),
        ACT_DO => do_made(nodes, at),
        _ => unreachable!(),
    }
}
