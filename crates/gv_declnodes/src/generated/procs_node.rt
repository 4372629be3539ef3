//! Procs nodes. Made by tools/script_nodes.py from script.grammar: edit that.
#![tactic(auto, unfolding(gv_scriptsyntax::specs::Nodes::arity))]

ghost use Rattle.std.specs.Prelude.{◌≡◌, List};
ghost use Rattle.gv_termread.specs.declared.generated.term_acts.Part.TheVariants.{Other as POther};
ghost use Rattle.gv_scriptsyntax.specs.declared.generated.script_acts.ScriptPart.TheVariants.{Procs as PProcs};
ghost use Rattle.gv_scriptsyntax.specs.declared.tree.Proc.{Proc as AnyProc};
ghost use Rattle.gv_scriptsyntax.specs.Nodes as tree;
ghost use Rattle.gv_certnodes.specs.Places.{IsMadeBy};
ghost use Rattle.gv_declnodes.specs.Procs.{IsProcsNode, IsSomeProcs};

use gv_certnodes::{act_of, place_of, token_of};
use gv_scriptsyntax::Node;
use gv_scriptsyntax::generated::script_table::{ACT_NO_PROCS, ACT_PROC};
use gv_termread::SeenToken;

/// Which act makes a part of the kind Procs, with the tokens and the places of the parts that it takes.
#[derive(Clone, Copy)]
pub enum ProcsNode {
    NoProcs,
    Proc {
        procs: usize,
        name: SeenToken,
        own: usize,
        vars: usize,
        pre: usize,
        results: usize,
        post: usize,
        block: usize,
        cuts: usize,
    },
}

fn no_procs_made(_text: &[u8], _nodes: &[Node], _at: usize) -> ProcsNode
    requires formed { tree.IsFormed _text.now _nodes.now }
    requires made { IsMadeBy _nodes.now _at ACT_NO_PROCS }
    ensures { (whole : List AnyProc) → tree.IsPartAt _text.now _nodes.now _at (POther (PProcs whole)) → IsProcsNode _text.now _nodes.now _at result whole }
{
    ProcsNode::NoProcs
}

fn proc_made(text: &[u8], nodes: &[Node], at: usize) -> ProcsNode
    requires formed { tree.IsFormed text.now nodes.now }
    requires made { IsMadeBy nodes.now at ACT_PROC }
    ensures { (whole : List AnyProc) → tree.IsPartAt text.now nodes.now at (POther (PProcs whole)) → IsProcsNode text.now nodes.now at result whole }
{
    let procs = place_of(text, nodes, at, ACT_PROC, 12);
    let name = token_of(text, nodes, at, ACT_PROC, 10);
    let own = place_of(text, nodes, at, ACT_PROC, 9);
    let vars = place_of(text, nodes, at, ACT_PROC, 7);
    let pre = place_of(text, nodes, at, ACT_PROC, 5);
    let results = place_of(text, nodes, at, ACT_PROC, 3);
    let post = place_of(text, nodes, at, ACT_PROC, 2);
    let block = place_of(text, nodes, at, ACT_PROC, 1);
    let cuts = place_of(text, nodes, at, ACT_PROC, 0);
    ProcsNode::Proc {
        procs,
        name,
        own,
        vars,
        pre,
        results,
        post,
        block,
        cuts,
    }
}

/// The node at a place where a part of the kind Procs stands.
pub fn procs_node(text: &[u8], nodes: &[Node], at: usize) -> ProcsNode
    requires formed { tree.IsFormed text.now nodes.now }
    requires some { IsSomeProcs text.now nodes.now at }
    ensures { (whole : List AnyProc) → tree.IsPartAt text.now nodes.now at (POther (PProcs whole)) → IsProcsNode text.now nodes.now at result whole }
{
    match act_of(nodes, at) {
        ACT_NO_PROCS => no_procs_made(text, nodes, at),
        ACT_PROC => proc_made(text, nodes, at),
        _ => unreachable!(),
    }
}
