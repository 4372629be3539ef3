//! Builds the list of nodes that the steps of a derivation say.

ghost use Rattle.std.specs.Prelude.{◌≡◌, ◌≤◌, ◌<◌, List, length, drop, take, slice_get, slice_index, Some, IfOk, OnOk, IsSome};
ghost use Rattle.gv_termread.specs.declared.generated.term_acts.Part.{Part as AnyPart};
ghost use Rattle.gv_scriptsyntax.specs.declared.generated.script_acts.ScriptPart.{ScriptPart};
ghost use Rattle.gv_scriptsyntax.specs.declared.node.Node.{Node as AnyNode};
ghost use Rattle.gv_scriptsyntax.specs.Nodes as tree;

use crate::generated::script_acts::TAKEN;
use crate::node::Node;
use gv_grammar::{FIRST_ACT, Step};
use gv_termread::SeenToken;
use std::alloc::{AllocError, Global};

// The number at a place of a table, or 0 behind its end.
fn entry(table: &[u8], at: usize) -> u8
    ensures { result ≡ slice_index table.now at }
{
    table.get(at).copied().unwrap_or(0)
}

// How many parts an act takes.
#[tactic(auto, using(crate::proofs::Leaving::taken_arity))]
fn arity(act: u8) -> usize
    requires { FIRST_ACT ≤ act }
    ensures { result ≡ tree.arity act }
{
    entry(&TAKEN, act as usize) as usize
}

// Where the nodes of the node at a place begin.
fn first_of(nodes: &[Node], at: usize) -> usize
    requires { at < length nodes.now }
    ensures { (node : AnyNode) → slice_get nodes.now at ≡ Some node → result ≡ tree.first_of at node }
{
    match nodes[at] {
        Node::Token(_) => at,
        Node::Made { act: _, from } => from,
    }
}

// Where the nodes of the last `count` parts before `end` begin.
pub(crate) fn start_of(text: &[u8], nodes: &[Node], end: usize, count: usize) -> usize
    requires formed { tree.IsFormed text.now nodes.now }
    requires within { end ≤ length nodes.now }
    requires enough { tree.HasParts text.now nodes.now end count }
    ensures within { result ≤ end }
    ensures kept { (parts : List (AnyPart ScriptPart)) → tree.built text.now (take end nodes.now) ≡ Some parts
        → tree.built text.now (take result nodes.now) ≡ Some (drop count parts) }
{
    let mut start = end;
    for _ in 0..count {
        start = first_of(nodes, start - 1);
    }
    start
}

// Where the nodes of the parts that an act takes begin.
fn act_start(text: &[u8], nodes: &[Node], act: u8) -> usize
    requires behind_marks { FIRST_ACT ≤ act }
    requires formed { tree.IsFormed text.now nodes.now }
    requires allowed { tree.Allows text.now nodes.now act }
    ensures within { result ≤ length nodes.now }
    ensures kept { (parts : List (AnyPart ScriptPart)) → tree.built text.now nodes.now ≡ Some parts
        → tree.built text.now (take result nodes.now) ≡ Some (drop (tree.arity act) parts) }
{
    start_of(text, nodes, nodes.len(), arity(act))
}

// Adds a token.
fn push_token(text: &[u8], nodes: &mut Vec<Node>, token: SeenToken) -> Result<(), AllocError>
    requires formed { tree.IsFormed text.now nodes.old.items }
    requires made { IsSome (tree.built text.now nodes.old.items) }
    ensures made { OnOk result (tree.built text.now nodes.new.items ≡ tree.with_token token (tree.built text.now nodes.old.items)) }
    ensures formed { OnOk result (tree.IsFormed text.now nodes.new.items) }
{
    nodes.push(Node::Token(token))?;
    Ok(())
}

// Adds what an act makes of the last parts.
fn push_made(text: &[u8], nodes: &mut Vec<Node>, act: u8) -> Result<(), AllocError>
    requires behind_marks { FIRST_ACT ≤ act }
    requires formed { tree.IsFormed text.now nodes.old.items }
    requires allowed { tree.Allows text.now nodes.old.items act }
    ensures made { OnOk result (tree.built text.now nodes.new.items ≡ tree.with_act text.now act (tree.built text.now nodes.old.items)) }
    ensures formed { OnOk result (tree.IsFormed text.now nodes.new.items) }
{
    let from = act_start(text, nodes, act);
    nodes.push(Node::Made { act, from })?;
    Ok(())
}

/// The nodes that the steps of a derivation say, in time and room linear in their number: at most one a step. The
/// text, whose bytes the names in terms are spelled by, changes nothing: only what the nodes are the tree of depends on it.
pub fn nodes_of(
    alloc: Global,
    text: &[u8],
    steps: &[Step],
    tokens: &[SeenToken],
) -> Result<Vec<Node>, AllocError>
    requires { IsSome (tree.left_by text.now steps.now tokens.now) }
    ensures made { IfOk result (λ nodes. tree.built text.now nodes.items ≡ tree.left_by text.now steps.now tokens.now) }
    ensures formed { IfOk result (λ nodes. tree.IsFormed text.now nodes.items) }
{
    let mut nodes = Vec::new(alloc);
    let mut rest = tokens;
    for step in steps {
        match step {
            Step::Take => {
                let Some((token, after)) = rest.split_first() else {
                    unreachable!()
                };
                push_token(text, &mut nodes, *token)?;
                rest = after;
            }
            Step::Do(act) => {
                if *act >= FIRST_ACT {
                    push_made(text, &mut nodes, *act)?;
                }
            }
        }
    }
    Ok(nodes)
}
