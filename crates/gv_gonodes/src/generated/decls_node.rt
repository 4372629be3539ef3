//! Decls nodes. Made by tools/nodes.py from gosyntax.grammar: edit that.
#![tactic(auto, unfolding(gv_gosyntax::specs::Nodes::arity))]

ghost use Rattle.std.specs.Prelude.{◌≡◌, List};
ghost use Rattle.gv_gosyntax.specs.declared.generated.gosyntax_acts.Part.TheVariants.{Decls as PDecls};
ghost use Rattle.gv_gosyntax.specs.declared.tree.Decl.{Decl as AnyDecl};
ghost use Rattle.gv_gosyntax.specs.Nodes as tree;
ghost use Rattle.gv_gonodes.specs.Places.{IsMadeBy};
ghost use Rattle.gv_gonodes.specs.Decls.{IsDeclsNode, IsSomeDecls};

use crate::parts::{act_of, place_of};
use gv_gosyntax::Node;
use gv_gosyntax::generated::gosyntax_table::{ACT_DECL, ACT_NO_DECLS};

/// Which act makes a part of the kind Decls, with the tokens and the places of the parts that it takes.
#[derive(Clone, Copy)]
pub enum DeclsNode {
    NoDecls,
    Decl { decls: usize, decl: usize },
}

fn no_decls_made(_nodes: &[Node], _at: usize) -> DeclsNode
    requires formed { tree.IsFormed _nodes.now }
    requires made { IsMadeBy _nodes.now _at ACT_NO_DECLS }
    ensures { (whole : List AnyDecl) → tree.IsPartAt _nodes.now _at (PDecls whole) → IsDeclsNode _nodes.now _at result whole }
{
    DeclsNode::NoDecls
}

fn decl_made(nodes: &[Node], at: usize) -> DeclsNode
    requires formed { tree.IsFormed nodes.now }
    requires made { IsMadeBy nodes.now at ACT_DECL }
    ensures { (whole : List AnyDecl) → tree.IsPartAt nodes.now at (PDecls whole) → IsDeclsNode nodes.now at result whole }
{
    let decls = place_of(nodes, at, ACT_DECL, 2);
    let decl = place_of(nodes, at, ACT_DECL, 1);
    DeclsNode::Decl { decls, decl }
}

/// The node at a place where a part of the kind Decls stands.
pub fn decls_node(nodes: &[Node], at: usize) -> DeclsNode
    requires formed { tree.IsFormed nodes.now }
    requires some { IsSomeDecls nodes.now at }
    ensures { (whole : List AnyDecl) → tree.IsPartAt nodes.now at (PDecls whole) → IsDeclsNode nodes.now at result whole }
{
    match act_of(nodes, at) {
        ACT_NO_DECLS => no_decls_made(nodes, at),
        ACT_DECL => decl_made(nodes, at),
        _ => unreachable!(),
    }
}
