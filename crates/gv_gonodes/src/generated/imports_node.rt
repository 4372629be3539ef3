//! Imports nodes. Made by tools/nodes.py from gosyntax.grammar: edit that.
#![tactic(auto, unfolding(gv_gosyntax::specs::Nodes::arity))]

ghost use Rattle.std.specs.Prelude.{◌≡◌, List};
ghost use Rattle.gv_gosyntax.specs.declared.generated.gosyntax_acts.Part.TheVariants.{Imports as PImports};
ghost use Rattle.gv_gosyntax.specs.declared.lexeme.Lexeme.{Lexeme as AnyLexeme};
ghost use Rattle.gv_gosyntax.specs.Nodes as tree;
ghost use Rattle.gv_gonodes.specs.Places.{IsMadeBy};
ghost use Rattle.gv_gonodes.specs.Imports.{IsImportsNode, IsSomeImports};

use crate::parts::{act_of, place_of};
use gv_gosyntax::Node;
use gv_gosyntax::generated::gosyntax_table::{ACT_IMPORT, ACT_NO_IMPORTS};

/// Which act makes a part of the kind Imports, with the tokens and the places of the parts that it takes.
#[derive(Clone, Copy)]
pub enum ImportsNode {
    NoImports,
    Import { imports: usize, texts: usize },
}

fn no_imports_made(_nodes: &[Node], _at: usize) -> ImportsNode
    requires formed { tree.IsFormed _nodes.now }
    requires made { IsMadeBy _nodes.now _at ACT_NO_IMPORTS }
    ensures { (whole : List (List AnyLexeme)) → tree.IsPartAt _nodes.now _at (PImports whole) → IsImportsNode _nodes.now _at result whole }
{
    ImportsNode::NoImports
}

fn import_made(nodes: &[Node], at: usize) -> ImportsNode
    requires formed { tree.IsFormed nodes.now }
    requires made { IsMadeBy nodes.now at ACT_IMPORT }
    ensures { (whole : List (List AnyLexeme)) → tree.IsPartAt nodes.now at (PImports whole) → IsImportsNode nodes.now at result whole }
{
    let imports = place_of(nodes, at, ACT_IMPORT, 3);
    let texts = place_of(nodes, at, ACT_IMPORT, 1);
    ImportsNode::Import { imports, texts }
}

/// The node at a place where a part of the kind Imports stands.
pub fn imports_node(nodes: &[Node], at: usize) -> ImportsNode
    requires formed { tree.IsFormed nodes.now }
    requires some { IsSomeImports nodes.now at }
    ensures { (whole : List (List AnyLexeme)) → tree.IsPartAt nodes.now at (PImports whole) → IsImportsNode nodes.now at result whole }
{
    match act_of(nodes, at) {
        ACT_NO_IMPORTS => no_imports_made(nodes, at),
        ACT_IMPORT => import_made(nodes, at),
        _ => unreachable!(),
    }
}
