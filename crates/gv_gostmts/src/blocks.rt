//! Statements and blocks.

ghost use Rattle.std.specs.Prelude.{◌≡◌, ◌++◌, Some, Option as Maybe, List as Seq, option_map, IfOk, OnOk};
ghost use Rattle.gv_gosyntax.specs.declared.generated.gosyntax_acts.Part.TheVariants.{Block as PBlock, Bound as PBound, Expr as PExpr, Part as PPart, Stmt as PStmt, Stmts as PStmts};
ghost use Rattle.gv_gosyntax.specs.declared.tree.Block.{Block as AnyBlock};
ghost use Rattle.gv_gosyntax.specs.declared.tree.Expr.{Expr as AnyExpr};
ghost use Rattle.gv_gosyntax.specs.declared.tree.Simple.{Simple as AnySimple};
ghost use Rattle.gv_gosyntax.specs.declared.tree.Stmt.{Stmt as AnyStmt};
ghost use Rattle.gv_gosyntax.specs.Nodes as tree;
ghost use Rattle.gv_gonodes.specs.Block.{IsSomeBlock};
ghost use Rattle.gv_gonodes.specs.Bound.{IsSomeBound};
ghost use Rattle.gv_gonodes.specs.Expr.{IsSomeExpr};
ghost use Rattle.gv_gonodes.specs.Part.{IsSomePart};
ghost use Rattle.gv_gonodes.specs.Stmt.{IsSomeStmt};
ghost use Rattle.gv_gonodes.specs.Stmts.{IsSomeStmts};
ghost use Rattle.gv_gotypes.specs.Scopes as scope;
ghost use Rattle.gv_gotypes.specs.Statements as spec;
ghost use Rattle.gv_gotypes.specs.Trees.{block_of, expr_of, simple_of};
ghost use Rattle.gv_gotyped.specs.First.{first_of};
ghost use Rattle.gv_goends.specs.Trees.{plain, statements_by, stmt_of};
ghost use Rattle.gv_gostmts.specs.Lists.{plain_header};

use crate::lists::statements_at;
use crate::returns::return_fault;
use crate::vars::{kind_at, value_fault, var_fault};
use gv_base::NoMemory;
use gv_gonodes::{
    BlockNode, BoundNode, PartNode, StmtNode, block_node, bound_node, part_node, stmt_node,
};
use gv_goscopes::Scopes;
use gv_gosimple::{declare_simple, simple_fault};
use gv_gosyntax::Node;
use gv_gotyped::{Fault, earliest};
use gv_gowalk::{Names, placed_at};
use gv_operands::{GoType, Want};
use std::alloc::Global;

// ---- headers

fn condition_fault<N: Names>(names: &N, nodes: &[Node], at: usize) -> Option<Fault>
    requires formed { tree.IsFormed nodes.now }
    requires some { IsSomeBound nodes.now at }
    ensures { (e : Maybe AnyExpr) → tree.IsPartAt nodes.now at (PBound e)
        → result ≡ first_of (spec.condition_findings (N.env names.now) (option_map expr_of e)) }
{
    match bound_node(nodes, at) {
        BoundNode::NoBound => None,
        BoundNode::Bound { inner } => {
            placed_at(names, nodes, inner, Want::Exactly(GoType::Boolean))
        }
    }
}

fn part_fault<N: Scopes>(
    alloc: Global,
    names: &N,
    nodes: &[Node],
    at: usize,
) -> Result<Option<Fault>, NoMemory>
    requires formed { tree.IsFormed nodes.now }
    requires some { IsSomePart nodes.now at }
    ensures { (s : Maybe AnySimple) → tree.IsPartAt nodes.now at (PPart s)
        → IfOk result (λ first. first ≡ first_of (spec.part_findings (N.env names.now) (option_map simple_of s))) }
{
    match part_node(nodes, at) {
        PartNode::NoPart => Ok(None),
        PartNode::Part { simple } => simple_fault(alloc, names, nodes, simple),
    }
}

/// Declares the variables of a part of a header, where it is a definition. After `NoMemory` some may be declared and others not.
pub fn declare_part<N: Scopes>(
    alloc: Global,
    names: &mut N,
    nodes: &[Node],
    at: usize,
) -> Result<(), NoMemory>
    requires formed { tree.IsFormed nodes.now }
    requires some { IsSomePart nodes.now at }
    ensures env { OnOk result ((s : Maybe AnySimple) → tree.IsPartAt nodes.now at (PPart s)
        → N.env names.new ≡ spec.part_after (N.env names.old) (option_map simple_of s)) }
    ensures outer { OnOk result (N.outer names.new ≡ N.outer names.old) }
{
    match part_node(nodes, at) {
        PartNode::NoPart => Ok(()),
        PartNode::Part { simple } => {
            declare_simple(alloc, names, nodes, simple)?;
            Ok(())
        }
    }
}

// What is found in a header, whose scope is there already. Its variables are declared.
fn header_fault<N: Scopes>(
    alloc: Global,
    names: &mut N,
    nodes: &[Node],
    first: usize,
    condition: usize,
    post: usize,
) -> Result<Option<Fault>, NoMemory>
    requires formed { tree.IsFormed nodes.now }
    requires first { IsSomePart nodes.now first }
    requires condition { IsSomeBound nodes.now condition }
    requires post { IsSomePart nodes.now post }
    ensures told { (a c : Maybe AnySimple) (b : Maybe AnyExpr) → tree.IsPartAt nodes.now first (PPart a) → tree.IsPartAt nodes.now condition (PBound b)
        → tree.IsPartAt nodes.now post (PPart c)
        → IfOk result (λ fault. let env = spec.part_after (N.env names.old) (option_map simple_of a) in
        fault ≡ first_of (spec.part_findings (N.env names.old) (option_map simple_of a)
        ++ (spec.condition_findings env (option_map expr_of b) ++ spec.part_findings env (option_map simple_of c)))) }
    ensures env { OnOk result ((a : Maybe AnySimple) → tree.IsPartAt nodes.now first (PPart a)
        → N.env names.new ≡ spec.part_after (N.env names.old) (option_map simple_of a)) }
    ensures outer { OnOk result (N.outer names.new ≡ N.outer names.old) }
{
    let begun = part_fault(alloc, names, nodes, first)?;
    declare_part(alloc, names, nodes, first)?;
    let tested = condition_fault(names, nodes, condition);
    let ended = part_fault(alloc, names, nodes, post)?;
    let more = earliest(tested, ended);
    Ok(earliest(begun, more))
}

// ---- what is declared

/// Declares what the statement whose node is at a place declares behind it. After `NoMemory` some variables may be declared and others
/// not.
pub fn declare_stmt<N: Scopes>(
    alloc: Global,
    names: &mut N,
    nodes: &[Node],
    at: usize,
) -> Result<(), NoMemory>
    requires formed { tree.IsFormed nodes.now }
    requires some { IsSomeStmt nodes.now at }
    ensures env { OnOk result ((s : AnyStmt) → tree.IsPartAt nodes.now at (PStmt s) → N.env names.new ≡ spec.after (N.env names.old) (stmt_of s)) }
    ensures outer { OnOk result (N.outer names.new ≡ N.outer names.old) }
{
    match stmt_node(nodes, at) {
        StmtNode::Simple { simple } => {
            declare_simple(alloc, names, nodes, simple)?;
            Ok(())
        }
        StmtNode::Var {
            word: _,
            name,
            kind,
        } => {
            let own = kind_at(names, nodes, kind);
            names.declare(alloc, name, own)?;
            Ok(())
        }
        StmtNode::VarValue {
            word: _,
            name,
            kind,
            value: _,
        } => {
            let own = kind_at(names, nodes, kind);
            names.declare(alloc, name, own)?;
            Ok(())
        }
        StmtNode::If {
            word: _,
            condition: _,
            body: _,
        } => Ok(()),
        StmtNode::IfElse {
            word: _,
            condition: _,
            body: _,
            other: _,
        } => Ok(()),
        StmtNode::Nested { block: _ } => Ok(()),
        StmtNode::Jump { word: _ } => Ok(()),
        StmtNode::Forever { word: _, body: _ } => Ok(()),
        StmtNode::While {
            word: _,
            condition: _,
            body: _,
        } => Ok(()),
        StmtNode::For {
            word: _,
            first: _,
            condition: _,
            post: _,
            body: _,
        } => Ok(()),
        StmtNode::Return { word: _, rights: _ } => Ok(()),
        StmtNode::Go { word: _, body: _ } => Ok(()),
    }
}

// ---- statements

// What is told of a statement. Nothing that it declares is seen behind it.
#[cycle(blocks)]
fn stmt_fault<N: Scopes>(
    alloc: Global,
    names: &mut N,
    nodes: &[Node],
    at: usize,
) -> Result<Option<Fault>, NoMemory>
    requires formed { tree.IsFormed nodes.now }
    requires some { IsSomeStmt nodes.now at }
    ensures told { (s : AnyStmt) → tree.IsPartAt nodes.now at (PStmt s)
        → IfOk result (λ first. first ≡ first_of (spec.stmt_findings (N.env names.old) (stmt_of s))) }
    ensures env { OnOk result (N.env names.new ≡ N.env names.old) }
    ensures outer { OnOk result (N.outer names.new ≡ N.outer names.old) }
{
    match stmt_node(nodes, at) {
        StmtNode::Simple { simple } => simple_fault(alloc, names, nodes, simple),
        StmtNode::Var { word, name, kind } => Ok(var_fault(names, nodes, word, name, kind)),
        StmtNode::VarValue {
            word,
            name,
            kind,
            value,
        } => value_fault(alloc, names, nodes, word, name, kind, value),
        StmtNode::If {
            word: _,
            condition,
            body,
        } => {
            let own = placed_at(names, nodes, condition, Want::Exactly(GoType::Boolean));
            let inner = nested_fault(alloc, names, nodes, body)?;
            Ok(earliest(own, inner))
        }
        StmtNode::IfElse {
            word: _,
            condition,
            body,
            other,
        } => {
            let own = placed_at(names, nodes, condition, Want::Exactly(GoType::Boolean));
            let inner = nested_fault(alloc, names, nodes, body)?;
            let otherwise = stmt_fault(alloc, names, nodes, other)?;
            let more = earliest(inner, otherwise);
            Ok(earliest(own, more))
        }
        StmtNode::Nested { block } => nested_fault(alloc, names, nodes, block),
        StmtNode::Jump { word: _ } => Ok(None),
        StmtNode::Forever { word: _, body } => loop_fault(alloc, names, nodes, body),
        StmtNode::While {
            word: _,
            condition,
            body,
        } => while_fault(alloc, names, nodes, condition, body),
        StmtNode::For {
            word: _,
            first,
            condition,
            post,
            body,
        } => for_fault(alloc, names, nodes, first, condition, post, body),
        StmtNode::Return { word, rights } => {
            return_fault(alloc, names, nodes, word.start, rights)
        }
        StmtNode::Go { word: _, body } => literal_fault(alloc, names, nodes, body),
    }
}

// ---- scopes

/// Where the node of a block's statements stands.
pub fn statements_in(node: BlockNode) -> usize
    ensures { result ≡ statements_by node }
{
    match node {
        BlockNode::Block {
            start: _,
            statements,
            end: _,
        } => statements,
    }
}

// `for BLOCK`
#[cycle(blocks)]
fn loop_fault<N: Scopes>(
    alloc: Global,
    names: &mut N,
    nodes: &[Node],
    body: usize,
) -> Result<Option<Fault>, NoMemory>
    requires formed { tree.IsFormed nodes.now }
    requires some { IsSomeBlock nodes.now body }
    ensures told { (b : AnyBlock) → tree.IsPartAt nodes.now body (PBlock b)
        → IfOk result (λ first. first ≡ first_of (spec.block_findings (scope.opened (scope.opened (N.env names.old))) (block_of b))) }
    ensures env { OnOk result (N.env names.new ≡ N.env names.old) }
    ensures outer { OnOk result (N.outer names.new ≡ N.outer names.old) }
{
    names.open(alloc)?;
    let first = nested_fault(alloc, names, nodes, body)?;
    names.close();
    Ok(first)
}

// `for CONDITION BLOCK`
#[cycle(blocks)]
fn while_fault<N: Scopes>(
    alloc: Global,
    names: &mut N,
    nodes: &[Node],
    condition: usize,
    body: usize,
) -> Result<Option<Fault>, NoMemory>
    requires formed { tree.IsFormed nodes.now }
    requires condition { IsSomeExpr nodes.now condition }
    requires body { IsSomeBlock nodes.now body }
    ensures told { (e : AnyExpr) (b : AnyBlock) → tree.IsPartAt nodes.now condition (PExpr e) → tree.IsPartAt nodes.now body (PBlock b)
        → IfOk result (λ first. let env = scope.opened (N.env names.old) in
        first ≡ first_of (spec.condition_findings env (Some (expr_of e)) ++ spec.block_findings (scope.opened env) (block_of b))) }
    ensures env { OnOk result (N.env names.new ≡ N.env names.old) }
    ensures outer { OnOk result (N.outer names.new ≡ N.outer names.old) }
{
    names.open(alloc)?;
    let own = placed_at(names, nodes, condition, Want::Exactly(GoType::Boolean));
    let inner = nested_fault(alloc, names, nodes, body)?;
    names.close();
    Ok(earliest(own, inner))
}

// `for FIRST; CONDITION; POST BLOCK`
#[cycle(blocks)]
fn for_fault<N: Scopes>(
    alloc: Global,
    names: &mut N,
    nodes: &[Node],
    first: usize,
    condition: usize,
    post: usize,
    body: usize,
) -> Result<Option<Fault>, NoMemory>
    requires formed { tree.IsFormed nodes.now }
    requires first { IsSomePart nodes.now first }
    requires condition { IsSomeBound nodes.now condition }
    requires post { IsSomePart nodes.now post }
    requires body { IsSomeBlock nodes.now body }
    ensures told { (a c : Maybe AnySimple) (b : Maybe AnyExpr) (d : AnyBlock) → tree.IsPartAt nodes.now first (PPart a) → tree.IsPartAt nodes.now condition (PBound b)
        → tree.IsPartAt nodes.now post (PPart c) → tree.IsPartAt nodes.now body (PBlock d)
        → IfOk result (λ fault. let h = plain_header a b c in
        fault ≡ first_of (spec.header_findings (N.env names.old) h ++ spec.block_findings (scope.opened (spec.header_env (N.env names.old) h)) (block_of d))) }
    ensures env { OnOk result (N.env names.new ≡ N.env names.old) }
    ensures outer { OnOk result (N.outer names.new ≡ N.outer names.old) }
{
    names.open(alloc)?;
    let own = header_fault(alloc, names, nodes, first, condition, post)?;
    let inner = nested_fault(alloc, names, nodes, body)?;
    names.close();
    Ok(earliest(own, inner))
}

// A literal behind `go`, by its block.
#[cycle(blocks)]
fn literal_fault<N: Scopes>(
    alloc: Global,
    names: &mut N,
    nodes: &[Node],
    body: usize,
) -> Result<Option<Fault>, NoMemory>
    requires formed { tree.IsFormed nodes.now }
    requires some { IsSomeBlock nodes.now body }
    ensures told { (b : AnyBlock) → tree.IsPartAt nodes.now body (PBlock b)
        → IfOk result (λ first. first ≡ first_of (spec.block_findings (scope.in_literal (N.env names.old)) (block_of b))) }
    ensures env { OnOk result (N.env names.new ≡ N.env names.old) }
    ensures outer { OnOk result (N.outer names.new ≡ N.outer names.old) }
{
    names.open_literal(alloc)?;
    let first = block_fault(alloc, names, nodes, body)?;
    names.close();
    Ok(first)
}

// A block in a scope of its own.
#[cycle(blocks)]
fn nested_fault<N: Scopes>(
    alloc: Global,
    names: &mut N,
    nodes: &[Node],
    body: usize,
) -> Result<Option<Fault>, NoMemory>
    requires formed { tree.IsFormed nodes.now }
    requires some { IsSomeBlock nodes.now body }
    ensures told { (b : AnyBlock) → tree.IsPartAt nodes.now body (PBlock b)
        → IfOk result (λ first. first ≡ first_of (spec.block_findings (scope.opened (N.env names.old)) (block_of b))) }
    ensures env { OnOk result (N.env names.new ≡ N.env names.old) }
    ensures outer { OnOk result (N.outer names.new ≡ N.outer names.old) }
{
    names.open(alloc)?;
    let first = block_fault(alloc, names, nodes, body)?;
    names.close();
    Ok(first)
}

#[cycle(blocks)]
fn stmts_fault<N: Scopes>(
    alloc: Global,
    names: &mut N,
    nodes: &[Node],
    at: usize,
) -> Result<Option<Fault>, NoMemory>
    requires formed { tree.IsFormed nodes.now }
    requires some { IsSomeStmts nodes.now at }
    ensures told { (ss : Seq AnyStmt) → tree.IsPartAt nodes.now at (PStmts ss)
        → IfOk result (λ first. first ≡ first_of (spec.stmts_findings (N.env names.old) (plain ss))) }
    ensures outer { OnOk result (N.outer names.new ≡ N.outer names.old) }
{
    let places = statements_at(alloc, nodes, at)?;
    let mut first = None;
    let mut left = places.as_slice();
    while let [place, rest @ ..] = left {
        let own = stmt_fault(alloc, names, nodes, *place)?;
        declare_stmt(alloc, names, nodes, *place)?;
        first = earliest(first, own);
        left = rest;
    }
    Ok(first)
}

/// The fault that is told of the block whose node is at a place, where its scope was opened. What its statements declare is seen
/// behind it until that scope is closed; after `NoMemory` nothing is known of the scopes.
#[cycle(blocks)]
pub fn block_fault<N: Scopes>(
    alloc: Global,
    names: &mut N,
    nodes: &[Node],
    at: usize,
) -> Result<Option<Fault>, NoMemory>
    requires formed { tree.IsFormed nodes.now }
    requires some { IsSomeBlock nodes.now at }
    ensures told { (b : AnyBlock) → tree.IsPartAt nodes.now at (PBlock b)
        → IfOk result (λ first. first ≡ first_of (spec.block_findings (N.env names.old) (block_of b))) }
    ensures outer { OnOk result (N.outer names.new ≡ N.outer names.old) }
{
    let node = block_node(nodes, at);
    let place = statements_in(node);
    stmts_fault(alloc, names, nodes, place)
}
