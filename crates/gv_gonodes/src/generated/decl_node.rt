//! Decl nodes. Made by tools/nodes.py from gosyntax.grammar: edit that.
#![tactic(auto, unfolding(gv_gosyntax::specs::Nodes::arity))]

ghost use Rattle.std.specs.Prelude.{◌≡◌};
ghost use Rattle.gv_gosyntax.specs.declared.generated.gosyntax_acts.Part.TheVariants.{Decl as PDecl};
ghost use Rattle.gv_gosyntax.specs.declared.tree.Decl.{Decl as AnyDecl};
ghost use Rattle.gv_gosyntax.specs.Nodes as tree;
ghost use Rattle.gv_gonodes.specs.Places.{IsMadeBy};
ghost use Rattle.gv_gonodes.specs.Decl.{IsDeclNode, IsSomeDecl};

use crate::parts::{act_of, place_of, token_of};
use gv_gosyntax::generated::gosyntax_table::{ACT_CONST, ACT_FUNC, ACT_STRUCT, ACT_TYPED_CONST};
use gv_gosyntax::{Lexeme, Node};

/// Which act makes a part of the kind Decl, with the tokens and the places of the parts that it takes.
#[derive(Clone, Copy)]
pub enum DeclNode {
    Struct {
        name: Lexeme,
        fields: usize,
    },
    Const {
        name: Lexeme,
        value: usize,
    },
    TypedConst {
        name: Lexeme,
        kind: Lexeme,
        value: usize,
    },
    Func {
        receiver: usize,
        name: Lexeme,
        params: usize,
        results: usize,
        body: usize,
    },
}

fn struct_made(nodes: &[Node], at: usize) -> DeclNode
    requires formed { tree.IsFormed nodes.now }
    requires made { IsMadeBy nodes.now at ACT_STRUCT }
    ensures { (whole : AnyDecl) → tree.IsPartAt nodes.now at (PDecl whole) → IsDeclNode nodes.now at result whole }
{
    let name = token_of(nodes, at, ACT_STRUCT, 4);
    let fields = place_of(nodes, at, ACT_STRUCT, 1);
    DeclNode::Struct { name, fields }
}

fn const_made(nodes: &[Node], at: usize) -> DeclNode
    requires formed { tree.IsFormed nodes.now }
    requires made { IsMadeBy nodes.now at ACT_CONST }
    ensures { (whole : AnyDecl) → tree.IsPartAt nodes.now at (PDecl whole) → IsDeclNode nodes.now at result whole }
{
    let name = token_of(nodes, at, ACT_CONST, 2);
    let value = place_of(nodes, at, ACT_CONST, 0);
    DeclNode::Const { name, value }
}

fn typed_const_made(nodes: &[Node], at: usize) -> DeclNode
    requires formed { tree.IsFormed nodes.now }
    requires made { IsMadeBy nodes.now at ACT_TYPED_CONST }
    ensures { (whole : AnyDecl) → tree.IsPartAt nodes.now at (PDecl whole) → IsDeclNode nodes.now at result whole }
{
    let name = token_of(nodes, at, ACT_TYPED_CONST, 3);
    let kind = token_of(nodes, at, ACT_TYPED_CONST, 2);
    let value = place_of(nodes, at, ACT_TYPED_CONST, 0);
    DeclNode::TypedConst { name, kind, value }
}

fn func_made(nodes: &[Node], at: usize) -> DeclNode
    requires formed { tree.IsFormed nodes.now }
    requires made { IsMadeBy nodes.now at ACT_FUNC }
    ensures { (whole : AnyDecl) → tree.IsPartAt nodes.now at (PDecl whole) → IsDeclNode nodes.now at result whole }
{
    let receiver = place_of(nodes, at, ACT_FUNC, 6);
    let name = token_of(nodes, at, ACT_FUNC, 5);
    let params = place_of(nodes, at, ACT_FUNC, 3);
    let results = place_of(nodes, at, ACT_FUNC, 1);
    let body = place_of(nodes, at, ACT_FUNC, 0);
    DeclNode::Func {
        receiver,
        name,
        params,
        results,
        body,
    }
}

/// The node at a place where a part of the kind Decl stands.
pub fn decl_node(nodes: &[Node], at: usize) -> DeclNode
    requires formed { tree.IsFormed nodes.now }
    requires some { IsSomeDecl nodes.now at }
    ensures { (whole : AnyDecl) → tree.IsPartAt nodes.now at (PDecl whole) → IsDeclNode nodes.now at result whole }
{
    match act_of(nodes, at) {
        ACT_STRUCT => struct_made(nodes, at),
        ACT_CONST => const_made(nodes, at),
        ACT_TYPED_CONST => typed_const_made(nodes, at),
        ACT_FUNC => func_made(nodes, at),
        _ => unreachable!(),
    }
}
