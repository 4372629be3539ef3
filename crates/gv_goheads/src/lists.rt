//! Lists of names, types and groups, from their end.

ghost use Rattle.std.specs.Prelude.{◌≡◌, List as Seq, ◌++◌, reverse, IfOk, OnOk};
ghost use Rattle.gv_gosyntax.specs.declared.generated.gosyntax_acts.Part.TheVariants.{GoType as PGoType, Groups as PGroups, Imports as PImports, Names as PNames, Types as PTypes};
ghost use Rattle.gv_gosyntax.specs.declared.lexeme.Lexeme.{Lexeme as AnyLexeme};
ghost use Rattle.gv_gosyntax.specs.declared.tree.GoType.{GoType as AnyGoType};
ghost use Rattle.gv_gosyntax.specs.declared.tree.Group.{Group as AnyGroup};
ghost use Rattle.gv_gosyntax.specs.Nodes as tree;
ghost use Rattle.gv_gonodes.specs.GoType.{IsSomeGoType};
ghost use Rattle.gv_gonodes.specs.Groups.{IsSomeGroups};
ghost use Rattle.gv_gonodes.specs.Imports.{IsSomeImports};
ghost use Rattle.gv_gonodes.specs.Names.{IsSomeNames};
ghost use Rattle.gv_gonodes.specs.Types.{IsSomeTypes};
ghost use Rattle.gv_gotypes.specs.Declarations.{all_imports};

use gv_base::{List, NoMemory};
use gv_gonodes::{
    GroupsNode, ImportsNode, NamesNode, TypesNode, groups_node, imports_node, names_node,
    types_node,
};
use gv_gosyntax::{GoType, Group, Lexeme, Node};
use gv_gowalk::type_at;
use std::alloc::Global;

// Appends names from the last one on.
fn push_names(nodes: &[Node], at: usize, names: &mut Vec<Lexeme>) -> Result<(), NoMemory>
    requires formed { tree.IsFormed nodes.now }
    requires some { IsSomeNames nodes.now at }
    ensures { OnOk result ((ts : Seq AnyLexeme) → tree.IsPartAt nodes.now at (PNames ts) → reverse names.new.items ≡ ts ++ reverse names.old.items) }
{
    let mut place = at;
    loop {
        match names_node(nodes, place) {
            NamesNode::NoNames => return Ok(()),
            NamesNode::Name {
                names: before,
                name,
            } => {
                names.push(name)?;
                place = before;
            }
            NamesNode::PastNames { names: inner } => place = inner,
            NamesNode::InParens { names: inner } => place = inner,
        }
    }
}

/// The names whose node is at a place, in order of text.
pub fn names_at(alloc: Global, nodes: &[Node], at: usize) -> Result<Vec<Lexeme>, NoMemory>
    requires formed { tree.IsFormed nodes.now }
    requires some { IsSomeNames nodes.now at }
    ensures { (ts : Seq AnyLexeme) → tree.IsPartAt nodes.now at (PNames ts) → IfOk result (λ names. names.items ≡ ts) }
{
    let mut names = Vec::new(alloc);
    push_names(nodes, at, &mut names)?;
    names.reverse();
    Ok(names)
}

/// The paths of all imports whose node is at a place, in order of text.
pub fn imports_at(alloc: Global, nodes: &[Node], at: usize) -> Result<Vec<Lexeme>, NoMemory>
    requires formed { tree.IsFormed nodes.now }
    requires some { IsSomeImports nodes.now at }
    ensures { (tss : Seq (Seq AnyLexeme)) → tree.IsPartAt nodes.now at (PImports tss) → IfOk result (λ paths. paths.items ≡ all_imports tss) }
{
    let mut place = at;
    let mut paths = Vec::new(alloc);
    loop {
        match imports_node(nodes, place) {
            ImportsNode::NoImports => break,
            ImportsNode::Import { imports, texts } => {
                push_names(nodes, texts, &mut paths)?;
                place = imports;
            }
        }
    }
    paths.reverse();
    Ok(paths)
}

/// The types whose node is at a place, in order of text.
pub fn types_at(alloc: Global, nodes: &[Node], at: usize) -> Result<Vec<GoType>, NoMemory>
    requires formed { tree.IsFormed nodes.now }
    requires some { IsSomeTypes nodes.now at }
    ensures { (ts : Seq AnyGoType) → tree.IsPartAt nodes.now at (PTypes ts) → IfOk result (λ kinds. kinds.items ≡ ts) }
{
    let mut place = at;
    let mut kinds = Vec::new(alloc);
    loop {
        match types_node(nodes, place) {
            TypesNode::NoTypes => break,
            TypesNode::Type { types, kind } => {
                kinds.push(type_at(nodes, kind))?;
                place = types;
            }
            TypesNode::PastTypes { types } => place = types,
        }
    }
    kinds.reverse();
    Ok(kinds)
}

// Names with their type.
fn group_at(alloc: Global, nodes: &[Node], names: usize, kind: usize) -> Result<Group, NoMemory>
    requires formed { tree.IsFormed nodes.now }
    requires names { IsSomeNames nodes.now names }
    requires kind { IsSomeGoType nodes.now kind }
    ensures { (ts : Seq AnyLexeme) (t : AnyGoType) → tree.IsPartAt nodes.now names (PNames ts) → tree.IsPartAt nodes.now kind (PGoType t)
        → IfOk result (λ group. group ≡ record { names = ts; kind = t }) }
{
    let names = names_at(alloc, nodes, names)?;
    Ok(Group {
        names: List::from_vec(names),
        kind: type_at(nodes, kind),
    })
}

/// The groups of names whose node is at a place, in order of text.
pub fn groups_at(alloc: Global, nodes: &[Node], at: usize) -> Result<Vec<Group>, NoMemory>
    requires formed { tree.IsFormed nodes.now }
    requires some { IsSomeGroups nodes.now at }
    ensures { (gs : Seq AnyGroup) → tree.IsPartAt nodes.now at (PGroups gs) → IfOk result (λ groups. groups.items ≡ gs) }
{
    let mut place = at;
    let mut done = Vec::new(alloc);
    loop {
        match groups_node(nodes, place) {
            GroupsNode::NoGroups => break,
            GroupsNode::Group {
                groups,
                names,
                kind,
            } => {
                let group = group_at(alloc, nodes, names, kind)?;
                done.push(group)?;
                place = groups;
            }
            GroupsNode::PastGroups { groups } => place = groups,
        }
    }
    done.reverse();
    Ok(done)
}
