//! Breaks that leave what is around them.

ghost use Rattle.std.specs.Prelude.{◌≡◌, List as Seq};
ghost use Rattle.gv_gosyntax.specs.declared.generated.gosyntax_acts.Part.TheVariants.{Block as PBlock, Stmt as PStmt, Stmts as PStmts};
ghost use Rattle.gv_gosyntax.specs.declared.tree.Block.{Block as AnyBlock};
ghost use Rattle.gv_gosyntax.specs.declared.tree.Stmt.{Stmt as AnyStmt};
ghost use Rattle.gv_gosyntax.specs.Nodes as tree;
ghost use Rattle.gv_gonodes.specs.Block.{IsSomeBlock};
ghost use Rattle.gv_gonodes.specs.Stmt.{IsSomeStmt};
ghost use Rattle.gv_gonodes.specs.Stmts.{IsSomeStmts};
ghost use Rattle.gv_gotypes.specs.Returns as returns;
ghost use Rattle.gv_gotypes.specs.Trees.{block_of};
ghost use Rattle.gv_goends.specs.Trees.{plain, stmt_of};

use crate::blocks::statements_in;
use gv_gonodes::{StmtNode, StmtsNode, block_node, stmt_node, stmts_node};
use gv_gosyntax::Node;
use gv_gosyntax::generated::gosyntax_table::CLASS_BREAK;

// A `break` stands in the statement that leaves what is around it.
#[cycle(breaks)]
fn stmt_breaks(nodes: &[Node], at: usize) -> bool
    requires formed { tree.IsFormed nodes.now }
    requires some { IsSomeStmt nodes.now at }
    ensures { (s : AnyStmt) → tree.IsPartAt nodes.now at (PStmt s) → result ≡ returns.breaks (stmt_of s) }
{
    match stmt_node(nodes, at) {
        StmtNode::Simple { simple: _ } => false,
        StmtNode::Var {
            word: _,
            name: _,
            kind: _,
        } => false,
        StmtNode::VarValue {
            word: _,
            name: _,
            kind: _,
            value: _,
        } => false,
        StmtNode::If {
            word: _,
            condition: _,
            body,
        } => block_breaks(nodes, body),
        StmtNode::IfElse {
            word: _,
            condition: _,
            body,
            other,
        } => {
            let first = block_breaks(nodes, body);
            let second = stmt_breaks(nodes, other);
            first || second
        }
        StmtNode::Nested { block } => block_breaks(nodes, block),
        StmtNode::Jump { word } => word.class == CLASS_BREAK,
        StmtNode::Forever { word: _, body: _ } => false,
        StmtNode::While {
            word: _,
            condition: _,
            body: _,
        } => false,
        StmtNode::For {
            word: _,
            first: _,
            condition: _,
            post: _,
            body: _,
        } => false,
        StmtNode::Return { word: _, rights: _ } => false,
        StmtNode::Go { word: _, body: _ } => false,
    }
}

#[cycle(breaks)]
fn stmts_break(nodes: &[Node], at: usize) -> bool
    requires formed { tree.IsFormed nodes.now }
    requires some { IsSomeStmts nodes.now at }
    ensures { (ss : Seq AnyStmt) → tree.IsPartAt nodes.now at (PStmts ss) → result ≡ returns.stmts_break (plain ss) }
{
    let mut place = at;
    loop {
        match stmts_node(nodes, place) {
            StmtsNode::NoStmts => return false,
            StmtsNode::Stmt { stmts, stmt } => {
                if stmt_breaks(nodes, stmt) {
                    return true;
                }
                place = stmts;
            }
            StmtsNode::Empty { stmts } => place = stmts,
            StmtsNode::PastStmts { stmts } => place = stmts,
        }
    }
}

/// A `break` stands in the block whose node is at a place that leaves what is around it: not within a `for` or a literal of its
/// own.
#[cycle(breaks)]
pub fn block_breaks(nodes: &[Node], at: usize) -> bool
    requires formed { tree.IsFormed nodes.now }
    requires some { IsSomeBlock nodes.now at }
    ensures { (b : AnyBlock) → tree.IsPartAt nodes.now at (PBlock b) → result ≡ returns.block_breaks (block_of b) }
{
    let node = block_node(nodes, at);
    let statements = statements_in(node);
    stmts_break(nodes, statements)
}
