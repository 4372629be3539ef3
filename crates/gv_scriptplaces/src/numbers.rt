//! Where the numbered commands of a script begin.
#![tactic(auto, unfolding(gv_scriptsyntax::specs::Nodes::arity))]

ghost use Rattle.std.specs.Prelude.{◌≡◌, ◌++◌, false, IfOk, OnOk};
ghost use Rattle.gv_scriptsyntax.specs.declared.tree.Script.{Script as AnyScript};
ghost use Rattle.gv_scriptsyntax.specs.Nodes as tree;
ghost use Rattle.gv_scriptnodes.specs.Places.{IsSomeScript};
ghost use Rattle.gv_scriptnumbers.specs.Numbers as numbers;
ghost use Rattle.gv_scriptplaces.specs.Begun as begun;

use gv_scriptnodes::token_of;
use gv_scriptsyntax::Node;
use gv_scriptsyntax::generated::script_table::{
    ACT_COMMAND, ACT_LAST, ACT_NO_COMMANDS, ACT_SCRIPT,
};
use std::alloc::{AllocError, Global};

// Whether an act makes a list of commands.
fn is_list(act: u8) -> bool
    ensures { result ≡ begun.is_list act }
{
    act == ACT_NO_COMMANDS || act == ACT_COMMAND || act == ACT_LAST
}

// Whether a node is a list of commands.
fn ends_list(node: &Node) -> bool
    ensures { result ≡ begun.ends_list node.now }
{
    match node {
        Node::Token(_) => false,
        Node::Made { act, from: _ } => is_list(*act),
    }
}

// Adds where a node begins a command; `behind` says whether it stands behind a list of commands.
fn add_begun(node: &Node, behind: bool, starts: &mut Vec<u32>) -> Result<(), AllocError>
    ensures { OnOk result (starts.new.items ≡ starts.old.items ++ begun.begun_by behind node.now) }
{
    match node {
        Node::Token(token) if behind => {
            starts.push(token.start)?;
            Ok(())
        }
        _ => Ok(()),
    }
}

// Adds where the nodes begin commands.
fn add_all(nodes: &[Node], starts: &mut Vec<u32>) -> Result<(), AllocError>
    ensures { OnOk result (starts.new.items ≡ starts.old.items ++ begun.begun false nodes.now) }
{
    let mut behind = false;
    let mut left = nodes;
    while let [node, rest @ ..] = left {
        add_begun(node, behind, starts)?;
        behind = ends_list(node);
        left = rest;
    }
    Ok(())
}

/// The bytes at which the numbered commands of a script begin, in the order of their numbers from 1, by the nodes of its tree. It takes
/// time and room linear in their number, and goes into no depth. This project's own.
pub fn numbered(alloc: Global, text: &[u8], nodes: &[Node]) -> Result<Vec<u32>, AllocError>
    requires { IsSomeScript text.now nodes.now }
    ensures { IfOk result (λ starts. (script : AnyScript) → tree.IsTreeOf text.now nodes.now script → starts.items ≡ numbers.numbered script) }
{
    let at = nodes.len() - 1;
    let crash = token_of(text, nodes, at, ACT_SCRIPT, 12);
    let root = token_of(text, nodes, at, ACT_SCRIPT, 9);
    let mut starts = Vec::new(alloc);
    starts.push(crash.start)?;
    starts.push(root.start)?;
    add_all(nodes, &mut starts)?;
    Ok(starts)
}
