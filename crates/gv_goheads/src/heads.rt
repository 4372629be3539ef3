//! Heads of declarations by their nodes.

ghost use Rattle.std.specs.Prelude.{◌≡◌, List as Seq, Option as Maybe, IfOk};
ghost use Rattle.gv_gosyntax.specs.declared.generated.gosyntax_acts.Part.TheVariants.{Decl as PDecl, Decls as PDecls, Groups as PGroups, Receiver as PReceiver, Types as PTypes};
ghost use Rattle.gv_gosyntax.specs.declared.tree.Decl.{Decl as AnyDecl};
ghost use Rattle.gv_gosyntax.specs.declared.tree.GoType.{GoType as AnyGoType};
ghost use Rattle.gv_gosyntax.specs.declared.tree.Group.{Group as AnyGroup};
ghost use Rattle.gv_gosyntax.specs.declared.tree.Receiver.{Receiver as AnyReceiver};
ghost use Rattle.gv_gosyntax.specs.Nodes as tree;
ghost use Rattle.gv_gonodes.specs.Decl.{IsSomeDecl};
ghost use Rattle.gv_gonodes.specs.Decls.{IsSomeDecls};
ghost use Rattle.gv_gonodes.specs.Groups.{IsSomeGroups};
ghost use Rattle.gv_gonodes.specs.Receiver.{IsSomeReceiver};
ghost use Rattle.gv_gonodes.specs.Types.{IsSomeTypes};
ghost use Rattle.gv_gotypes.specs.Trees.{decl_of};
ghost use Rattle.gv_goheads.specs.Heads.{head_of, heads_of};

use crate::head::{FuncHead, Head};
use crate::lists::{groups_at, types_at};
use gv_base::{List, NoMemory};
use gv_gonodes::{DeclNode, DeclsNode, ReceiverNode, decl_node, decls_node, receiver_node};
use gv_gosyntax::{Lexeme, Node, Receiver};
use std::alloc::Global;

fn receiver_at(nodes: &[Node], at: usize) -> Option<Receiver>
    requires formed { tree.IsFormed nodes.now }
    requires some { IsSomeReceiver nodes.now at }
    ensures { (r : Maybe AnyReceiver) → tree.IsPartAt nodes.now at (PReceiver r) → result ≡ r }
{
    match receiver_node(nodes, at) {
        ReceiverNode::NoReceiver => None,
        ReceiverNode::Receiver { name, of } => Some(Receiver { name, of }),
    }
}

fn func_head_at(
    alloc: Global,
    nodes: &[Node],
    receiver: usize,
    name: Lexeme,
    params: usize,
    results: usize,
) -> Result<FuncHead, NoMemory>
    requires formed { tree.IsFormed nodes.now }
    requires receiver { IsSomeReceiver nodes.now receiver }
    requires params { IsSomeGroups nodes.now params }
    requires results { IsSomeTypes nodes.now results }
    ensures { (r : Maybe AnyReceiver) (gs : Seq AnyGroup) (ts : Seq AnyGoType)
        → tree.IsPartAt nodes.now receiver (PReceiver r) → tree.IsPartAt nodes.now params (PGroups gs) → tree.IsPartAt nodes.now results (PTypes ts)
        → IfOk result (λ head. head ≡ record { receiver = r; name = name; params = gs; results = ts }) }
{
    let params = groups_at(alloc, nodes, params)?;
    let results = types_at(alloc, nodes, results)?;
    Ok(FuncHead {
        receiver: receiver_at(nodes, receiver),
        name,
        params: List::from_vec(params),
        results: List::from_vec(results),
    })
}

/// The head of the declaration whose node is at a place.
pub fn head_at(alloc: Global, nodes: &[Node], at: usize) -> Result<Head, NoMemory>
    requires formed { tree.IsFormed nodes.now }
    requires some { IsSomeDecl nodes.now at }
    ensures { (d : AnyDecl) → tree.IsPartAt nodes.now at (PDecl d) → IfOk result (λ head. head ≡ head_of (decl_of d)) }
{
    match decl_node(nodes, at) {
        DeclNode::Struct { name, fields } => {
            let groups = groups_at(alloc, nodes, fields)?;
            Ok(Head::Struct(name, List::from_vec(groups)))
        }
        DeclNode::Const { name, value: _ } => Ok(Head::Const(name)),
        DeclNode::TypedConst {
            name,
            kind: _,
            value: _,
        } => Ok(Head::Const(name)),
        DeclNode::Func {
            receiver,
            name,
            params,
            results,
            body: _,
        } => {
            let func = func_head_at(alloc, nodes, receiver, name, params, results)?;
            Ok(Head::Func(func))
        }
    }
}

/// The heads of the declarations whose node is at a place, in order of text.
pub fn heads_at(alloc: Global, nodes: &[Node], at: usize) -> Result<Vec<Head>, NoMemory>
    requires formed { tree.IsFormed nodes.now }
    requires some { IsSomeDecls nodes.now at }
    ensures { (ds : Seq AnyDecl) → tree.IsPartAt nodes.now at (PDecls ds) → IfOk result (λ heads. heads.items ≡ heads_of ds) }
{
    let mut place = at;
    let mut heads = Vec::new(alloc);
    loop {
        match decls_node(nodes, place) {
            DeclsNode::NoDecls => break,
            DeclsNode::Decl { decls, decl } => {
                let head = head_at(alloc, nodes, decl)?;
                heads.push(head)?;
                place = decls;
            }
        }
    }
    heads.reverse();
    Ok(heads)
}
