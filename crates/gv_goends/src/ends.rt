//! Ends of bodies.

ghost use Rattle.std.specs.Prelude.{◌≡◌, List as Seq};
ghost use Rattle.gv_gosyntax.specs.declared.generated.gosyntax_acts.Part.TheVariants.{Block as PBlock, Stmt as PStmt, Stmts as PStmts};
ghost use Rattle.gv_gosyntax.specs.declared.tree.Block.{Block as AnyBlock};
ghost use Rattle.gv_gosyntax.specs.declared.tree.Stmt.{Stmt as AnyStmt};
ghost use Rattle.gv_gosyntax.specs.Nodes as tree;
ghost use Rattle.gv_gonodes.specs.Block.{IsSomeBlock};
ghost use Rattle.gv_gonodes.specs.Stmt.{IsSomeStmt};
ghost use Rattle.gv_gonodes.specs.Stmts.{IsSomeStmts};
ghost use Rattle.gv_gotypes.specs.Returns as returns;
ghost use Rattle.gv_gotypes.specs.Trees.{block_of};
ghost use Rattle.gv_goends.specs.Trees.{plain, stmt_of, IsEnd};

use crate::blocks::statements_in;
use crate::breaks::block_breaks;
use gv_gonodes::{BoundNode, StmtNode, StmtsNode, block_node, bound_node, stmt_node, stmts_node};
use gv_gosyntax::Node;

// No run of the statement reaches what stands behind it.
#[cycle(ends)]
fn stmt_ends(nodes: &[Node], at: usize) -> bool
    requires formed { tree.IsFormed nodes.now }
    requires some { IsSomeStmt nodes.now at }
    ensures { (s : AnyStmt) → tree.IsPartAt nodes.now at (PStmt s) → IsEnd result s }
{
    match stmt_node(nodes, at) {
        StmtNode::Simple { simple: _ } => false,
        StmtNode::Var {
            word: _,
            name: _,
            kind: _,
        } => false,
        StmtNode::VarValue {
            word: _,
            name: _,
            kind: _,
            value: _,
        } => false,
        StmtNode::If {
            word: _,
            condition: _,
            body: _,
        } => false,
        StmtNode::IfElse {
            word: _,
            condition: _,
            body,
            other,
        } => {
            let first = block_ends(nodes, body);
            let second = stmt_ends(nodes, other);
            first && second
        }
        StmtNode::Nested { block } => block_ends(nodes, block),
        StmtNode::Jump { word: _ } => false,
        StmtNode::Forever { word: _, body } => !block_breaks(nodes, body),
        StmtNode::While {
            word: _,
            condition: _,
            body: _,
        } => false,
        StmtNode::For {
            word: _,
            first: _,
            condition,
            post: _,
            body,
        } => {
            match bound_node(nodes, condition) {
                BoundNode::NoBound => !block_breaks(nodes, body),
                BoundNode::Bound { inner: _ } => false,
            }
        }
        StmtNode::Return { word: _, rights: _ } => true,
        StmtNode::Go { word: _, body: _ } => false,
    }
}

// The last statement that isn't empty does.
#[cycle(ends)]
fn stmts_end(nodes: &[Node], at: usize) -> bool
    requires formed { tree.IsFormed nodes.now }
    requires some { IsSomeStmts nodes.now at }
    ensures { (ss : Seq AnyStmt) → tree.IsPartAt nodes.now at (PStmts ss) → result ≡ returns.stmts_end (plain ss) }
{
    let mut place = at;
    loop {
        match stmts_node(nodes, place) {
            StmtsNode::NoStmts => return false,
            StmtsNode::Stmt { stmts: _, stmt } => return stmt_ends(nodes, stmt),
            StmtsNode::Empty { stmts } => place = stmts,
            StmtsNode::PastStmts { stmts } => place = stmts,
        }
    }
}

/// The block whose node is at a place ends in a return: its last statement that isn't empty is one, or a `for` without a
/// condition and without a `break` of its own, an `if` whose two branches end so, or a block that does.
#[cycle(ends)]
pub fn block_ends(nodes: &[Node], at: usize) -> bool
    requires formed { tree.IsFormed nodes.now }
    requires some { IsSomeBlock nodes.now at }
    ensures { (b : AnyBlock) → tree.IsPartAt nodes.now at (PBlock b) → result ≡ returns.block_ends (block_of b) }
{
    let node = block_node(nodes, at);
    let statements = statements_in(node);
    stmts_end(nodes, statements)
}
