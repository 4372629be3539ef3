//! File nodes. Made by tools/nodes.py from gosyntax.grammar: edit that.
#![tactic(auto, unfolding(gv_gosyntax::specs::Nodes::arity))]

ghost use Rattle.std.specs.Prelude.{◌≡◌};
ghost use Rattle.gv_gosyntax.specs.declared.generated.gosyntax_acts.Part.TheVariants.{File as PFile};
ghost use Rattle.gv_gosyntax.specs.declared.tree.File.{File as AnyFile};
ghost use Rattle.gv_gosyntax.specs.Nodes as tree;
ghost use Rattle.gv_gonodes.specs.Places.{IsMadeBy};
ghost use Rattle.gv_gonodes.specs.File.{IsFileNode, IsSomeFile};

use crate::parts::{act_of, place_of, token_of};
use gv_gosyntax::generated::gosyntax_table::ACT_FILE;
use gv_gosyntax::{Lexeme, Node};

/// Which act makes a part of the kind File, with the tokens and the places of the parts that it takes.
#[derive(Clone, Copy)]
pub enum FileNode {
    File {
        name: Lexeme,
        imports: usize,
        decls: usize,
    },
}

fn file_made(nodes: &[Node], at: usize) -> FileNode
    requires formed { tree.IsFormed nodes.now }
    requires made { IsMadeBy nodes.now at ACT_FILE }
    ensures { (whole : AnyFile) → tree.IsPartAt nodes.now at (PFile whole) → IsFileNode nodes.now at result whole }
{
    let name = token_of(nodes, at, ACT_FILE, 3);
    let imports = place_of(nodes, at, ACT_FILE, 1);
    let decls = place_of(nodes, at, ACT_FILE, 0);
    FileNode::File {
        name,
        imports,
        decls,
    }
}

/// The node at a place where a part of the kind File stands.
pub fn file_node(nodes: &[Node], at: usize) -> FileNode
    requires formed { tree.IsFormed nodes.now }
    requires some { IsSomeFile nodes.now at }
    ensures { (whole : AnyFile) → tree.IsPartAt nodes.now at (PFile whole) → IsFileNode nodes.now at result whole }
{
    match act_of(nodes, at) {
        ACT_FILE => file_made(nodes, at),
        _ => unreachable!(),
    }
}
