//! Stmts nodes. Made by tools/nodes.py from gosyntax.grammar: edit that.
#![tactic(auto, unfolding(gv_gosyntax::specs::Nodes::arity))]

ghost use Rattle.std.specs.Prelude.{◌≡◌, List};
ghost use Rattle.gv_gosyntax.specs.declared.generated.gosyntax_acts.Part.TheVariants.{Stmts as PStmts};
ghost use Rattle.gv_gosyntax.specs.declared.tree.Stmt.{Stmt as AnyStmt};
ghost use Rattle.gv_gosyntax.specs.Nodes as tree;
ghost use Rattle.gv_gonodes.specs.Places.{IsMadeBy};
ghost use Rattle.gv_gonodes.specs.Stmts.{IsStmtsNode, IsSomeStmts};

use crate::parts::{act_of, place_of};
use gv_gosyntax::Node;
use gv_gosyntax::generated::gosyntax_table::{ACT_EMPTY, ACT_NO_STMTS, ACT_PAST_STMTS, ACT_STMT};

/// Which act makes a part of the kind Stmts, with the tokens and the places of the parts that it takes.
#[derive(Clone, Copy)]
pub enum StmtsNode {
    NoStmts,
    Stmt { stmts: usize, stmt: usize },
    Empty { stmts: usize },
    PastStmts { stmts: usize },
}

fn no_stmts_made(_nodes: &[Node], _at: usize) -> StmtsNode
    requires formed { tree.IsFormed _nodes.now }
    requires made { IsMadeBy _nodes.now _at ACT_NO_STMTS }
    ensures { (whole : List AnyStmt) → tree.IsPartAt _nodes.now _at (PStmts whole) → IsStmtsNode _nodes.now _at result whole }
{
    StmtsNode::NoStmts
}

fn stmt_made(nodes: &[Node], at: usize) -> StmtsNode
    requires formed { tree.IsFormed nodes.now }
    requires made { IsMadeBy nodes.now at ACT_STMT }
    ensures { (whole : List AnyStmt) → tree.IsPartAt nodes.now at (PStmts whole) → IsStmtsNode nodes.now at result whole }
{
    let stmts = place_of(nodes, at, ACT_STMT, 1);
    let stmt = place_of(nodes, at, ACT_STMT, 0);
    StmtsNode::Stmt { stmts, stmt }
}

fn empty_made(nodes: &[Node], at: usize) -> StmtsNode
    requires formed { tree.IsFormed nodes.now }
    requires made { IsMadeBy nodes.now at ACT_EMPTY }
    ensures { (whole : List AnyStmt) → tree.IsPartAt nodes.now at (PStmts whole) → IsStmtsNode nodes.now at result whole }
{
    let stmts = place_of(nodes, at, ACT_EMPTY, 1);
    StmtsNode::Empty { stmts }
}

fn past_stmts_made(nodes: &[Node], at: usize) -> StmtsNode
    requires formed { tree.IsFormed nodes.now }
    requires made { IsMadeBy nodes.now at ACT_PAST_STMTS }
    ensures { (whole : List AnyStmt) → tree.IsPartAt nodes.now at (PStmts whole) → IsStmtsNode nodes.now at result whole }
{
    let stmts = place_of(nodes, at, ACT_PAST_STMTS, 1);
    StmtsNode::PastStmts { stmts }
}

/// The node at a place where a part of the kind Stmts stands.
pub fn stmts_node(nodes: &[Node], at: usize) -> StmtsNode
    requires formed { tree.IsFormed nodes.now }
    requires some { IsSomeStmts nodes.now at }
    ensures { (whole : List AnyStmt) → tree.IsPartAt nodes.now at (PStmts whole) → IsStmtsNode nodes.now at result whole }
{
    match act_of(nodes, at) {
        ACT_NO_STMTS => no_stmts_made(nodes, at),
        ACT_STMT => stmt_made(nodes, at),
        ACT_EMPTY => empty_made(nodes, at),
        ACT_PAST_STMTS => past_stmts_made(nodes, at),
        _ => unreachable!(),
    }
}
