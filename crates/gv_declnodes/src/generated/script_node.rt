//! Script nodes. Made by tools/script_nodes.py from script.grammar: edit that.
#![tactic(auto, unfolding(gv_scriptsyntax::specs::Nodes::arity))]

ghost use Rattle.std.specs.Prelude.{◌≡◌};
ghost use Rattle.gv_termread.specs.declared.generated.term_acts.Part.TheVariants.{Other as POther};
ghost use Rattle.gv_scriptsyntax.specs.declared.generated.script_acts.ScriptPart.TheVariants.{Script as PScript};
ghost use Rattle.gv_scriptsyntax.specs.declared.tree.Script.{Script as AnyScript};
ghost use Rattle.gv_scriptsyntax.specs.Nodes as tree;
ghost use Rattle.gv_certnodes.specs.Places.{IsMadeBy};
ghost use Rattle.gv_declnodes.specs.Script.{IsScriptNode, IsSomeScript};

use gv_certnodes::{act_of, place_of, token_of};
use gv_scriptsyntax::Node;
use gv_scriptsyntax::generated::script_table::ACT_SCRIPT;
use gv_termread::SeenToken;

/// Which act makes a part of the kind Script, with the tokens and the places of the parts that it takes.
#[derive(Clone, Copy)]
pub enum ScriptNode {
    Script {
        books: usize,
        preds: usize,
        crash_word: SeenToken,
        crash: SeenToken,
        root_word: SeenToken,
        root: SeenToken,
        init: usize,
        recover: usize,
        cuts: usize,
        ops: usize,
        procs: usize,
    },
}

fn script_made(text: &[u8], nodes: &[Node], at: usize) -> ScriptNode
    requires formed { tree.IsFormed text.now nodes.now }
    requires made { IsMadeBy nodes.now at ACT_SCRIPT }
    ensures { (whole : AnyScript) → tree.IsPartAt text.now nodes.now at (POther (PScript whole)) → IsScriptNode text.now nodes.now at result whole }
{
    let books = place_of(text, nodes, at, ACT_SCRIPT, 14);
    let preds = place_of(text, nodes, at, ACT_SCRIPT, 13);
    let crash_word = token_of(text, nodes, at, ACT_SCRIPT, 12);
    let crash = token_of(text, nodes, at, ACT_SCRIPT, 11);
    let root_word = token_of(text, nodes, at, ACT_SCRIPT, 9);
    let root = token_of(text, nodes, at, ACT_SCRIPT, 8);
    let init = place_of(text, nodes, at, ACT_SCRIPT, 5);
    let recover = place_of(text, nodes, at, ACT_SCRIPT, 3);
    let cuts = place_of(text, nodes, at, ACT_SCRIPT, 2);
    let ops = place_of(text, nodes, at, ACT_SCRIPT, 1);
    let procs = place_of(text, nodes, at, ACT_SCRIPT, 0);
    ScriptNode::Script {
        books,
        preds,
        crash_word,
        crash,
        root_word,
        root,
        init,
        recover,
        cuts,
        ops,
        procs,
    }
}

/// The node at a place where a part of the kind Script stands.
pub fn script_node(text: &[u8], nodes: &[Node], at: usize) -> ScriptNode
    requires formed { tree.IsFormed text.now nodes.now }
    requires some { IsSomeScript text.now nodes.now at }
    ensures { (whole : AnyScript) → tree.IsPartAt text.now nodes.now at (POther (PScript whole)) → IsScriptNode text.now nodes.now at result whole }
{
    match act_of(nodes, at) {
        ACT_SCRIPT => script_made(text, nodes, at),
        _ => unreachable!(),
    }
}
