//! Stmt nodes. Made by tools/nodes.py from gosyntax.grammar: edit that.
#![tactic(auto, unfolding(gv_gosyntax::specs::Nodes::arity))]

ghost use Rattle.std.specs.Prelude.{◌≡◌};
ghost use Rattle.gv_gosyntax.specs.declared.generated.gosyntax_acts.Part.TheVariants.{Stmt as PStmt};
ghost use Rattle.gv_gosyntax.specs.declared.tree.Stmt.{Stmt as AnyStmt};
ghost use Rattle.gv_gosyntax.specs.Nodes as tree;
ghost use Rattle.gv_gonodes.specs.Places.{IsMadeBy};
ghost use Rattle.gv_gonodes.specs.Stmt.{IsStmtNode, IsSomeStmt};

use crate::parts::{act_of, place_of, token_of};
use gv_gosyntax::generated::gosyntax_table::{
    ACT_FOR, ACT_FOREVER, ACT_GO, ACT_IF, ACT_IF_ELSE, ACT_JUMP, ACT_NESTED, ACT_RETURN,
    ACT_SIMPLE, ACT_VAR, ACT_VAR_VALUE, ACT_WHILE,
};
use gv_gosyntax::{Lexeme, Node};

/// Which act makes a part of the kind Stmt, with the tokens and the places of the parts that it takes.
#[derive(Clone, Copy)]
pub enum StmtNode {
    Simple {
        simple: usize,
    },
    Var {
        word: Lexeme,
        name: Lexeme,
        kind: usize,
    },
    VarValue {
        word: Lexeme,
        name: Lexeme,
        kind: usize,
        value: usize,
    },
    If {
        word: Lexeme,
        condition: usize,
        body: usize,
    },
    IfElse {
        word: Lexeme,
        condition: usize,
        body: usize,
        other: usize,
    },
    Nested {
        block: usize,
    },
    Jump {
        word: Lexeme,
    },
    Forever {
        word: Lexeme,
        body: usize,
    },
    While {
        word: Lexeme,
        condition: usize,
        body: usize,
    },
    For {
        word: Lexeme,
        first: usize,
        condition: usize,
        post: usize,
        body: usize,
    },
    Return {
        word: Lexeme,
        rights: usize,
    },
    Go {
        word: Lexeme,
        body: usize,
    },
}

fn simple_made(nodes: &[Node], at: usize) -> StmtNode
    requires formed { tree.IsFormed nodes.now }
    requires made { IsMadeBy nodes.now at ACT_SIMPLE }
    ensures { (whole : AnyStmt) → tree.IsPartAt nodes.now at (PStmt whole) → IsStmtNode nodes.now at result whole }
{
    let simple = place_of(nodes, at, ACT_SIMPLE, 0);
    StmtNode::Simple { simple }
}

fn var_made(nodes: &[Node], at: usize) -> StmtNode
    requires formed { tree.IsFormed nodes.now }
    requires made { IsMadeBy nodes.now at ACT_VAR }
    ensures { (whole : AnyStmt) → tree.IsPartAt nodes.now at (PStmt whole) → IsStmtNode nodes.now at result whole }
{
    let word = token_of(nodes, at, ACT_VAR, 2);
    let name = token_of(nodes, at, ACT_VAR, 1);
    let kind = place_of(nodes, at, ACT_VAR, 0);
    StmtNode::Var { word, name, kind }
}

fn var_value_made(nodes: &[Node], at: usize) -> StmtNode
    requires formed { tree.IsFormed nodes.now }
    requires made { IsMadeBy nodes.now at ACT_VAR_VALUE }
    ensures { (whole : AnyStmt) → tree.IsPartAt nodes.now at (PStmt whole) → IsStmtNode nodes.now at result whole }
{
    let word = token_of(nodes, at, ACT_VAR_VALUE, 4);
    let name = token_of(nodes, at, ACT_VAR_VALUE, 3);
    let kind = place_of(nodes, at, ACT_VAR_VALUE, 2);
    let value = place_of(nodes, at, ACT_VAR_VALUE, 0);
    StmtNode::VarValue {
        word,
        name,
        kind,
        value,
    }
}

fn if_made(nodes: &[Node], at: usize) -> StmtNode
    requires formed { tree.IsFormed nodes.now }
    requires made { IsMadeBy nodes.now at ACT_IF }
    ensures { (whole : AnyStmt) → tree.IsPartAt nodes.now at (PStmt whole) → IsStmtNode nodes.now at result whole }
{
    let word = token_of(nodes, at, ACT_IF, 2);
    let condition = place_of(nodes, at, ACT_IF, 1);
    let body = place_of(nodes, at, ACT_IF, 0);
    StmtNode::If {
        word,
        condition,
        body,
    }
}

fn if_else_made(nodes: &[Node], at: usize) -> StmtNode
    requires formed { tree.IsFormed nodes.now }
    requires made { IsMadeBy nodes.now at ACT_IF_ELSE }
    ensures { (whole : AnyStmt) → tree.IsPartAt nodes.now at (PStmt whole) → IsStmtNode nodes.now at result whole }
{
    let word = token_of(nodes, at, ACT_IF_ELSE, 4);
    let condition = place_of(nodes, at, ACT_IF_ELSE, 3);
    let body = place_of(nodes, at, ACT_IF_ELSE, 2);
    let other = place_of(nodes, at, ACT_IF_ELSE, 0);
    StmtNode::IfElse {
        word,
        condition,
        body,
        other,
    }
}

fn nested_made(nodes: &[Node], at: usize) -> StmtNode
    requires formed { tree.IsFormed nodes.now }
    requires made { IsMadeBy nodes.now at ACT_NESTED }
    ensures { (whole : AnyStmt) → tree.IsPartAt nodes.now at (PStmt whole) → IsStmtNode nodes.now at result whole }
{
    let block = place_of(nodes, at, ACT_NESTED, 0);
    StmtNode::Nested { block }
}

fn jump_made(nodes: &[Node], at: usize) -> StmtNode
    requires formed { tree.IsFormed nodes.now }
    requires made { IsMadeBy nodes.now at ACT_JUMP }
    ensures { (whole : AnyStmt) → tree.IsPartAt nodes.now at (PStmt whole) → IsStmtNode nodes.now at result whole }
{
    let word = token_of(nodes, at, ACT_JUMP, 0);
    StmtNode::Jump { word }
}

fn forever_made(nodes: &[Node], at: usize) -> StmtNode
    requires formed { tree.IsFormed nodes.now }
    requires made { IsMadeBy nodes.now at ACT_FOREVER }
    ensures { (whole : AnyStmt) → tree.IsPartAt nodes.now at (PStmt whole) → IsStmtNode nodes.now at result whole }
{
    let word = token_of(nodes, at, ACT_FOREVER, 1);
    let body = place_of(nodes, at, ACT_FOREVER, 0);
    StmtNode::Forever { word, body }
}

fn while_made(nodes: &[Node], at: usize) -> StmtNode
    requires formed { tree.IsFormed nodes.now }
    requires made { IsMadeBy nodes.now at ACT_WHILE }
    ensures { (whole : AnyStmt) → tree.IsPartAt nodes.now at (PStmt whole) → IsStmtNode nodes.now at result whole }
{
    let word = token_of(nodes, at, ACT_WHILE, 2);
    let condition = place_of(nodes, at, ACT_WHILE, 1);
    let body = place_of(nodes, at, ACT_WHILE, 0);
    StmtNode::While {
        word,
        condition,
        body,
    }
}

fn for_made(nodes: &[Node], at: usize) -> StmtNode
    requires formed { tree.IsFormed nodes.now }
    requires made { IsMadeBy nodes.now at ACT_FOR }
    ensures { (whole : AnyStmt) → tree.IsPartAt nodes.now at (PStmt whole) → IsStmtNode nodes.now at result whole }
{
    let word = token_of(nodes, at, ACT_FOR, 6);
    let first = place_of(nodes, at, ACT_FOR, 5);
    let condition = place_of(nodes, at, ACT_FOR, 3);
    let post = place_of(nodes, at, ACT_FOR, 1);
    let body = place_of(nodes, at, ACT_FOR, 0);
    StmtNode::For {
        word,
        first,
        condition,
        post,
        body,
    }
}

fn return_made(nodes: &[Node], at: usize) -> StmtNode
    requires formed { tree.IsFormed nodes.now }
    requires made { IsMadeBy nodes.now at ACT_RETURN }
    ensures { (whole : AnyStmt) → tree.IsPartAt nodes.now at (PStmt whole) → IsStmtNode nodes.now at result whole }
{
    let word = token_of(nodes, at, ACT_RETURN, 1);
    let rights = place_of(nodes, at, ACT_RETURN, 0);
    StmtNode::Return { word, rights }
}

fn go_made(nodes: &[Node], at: usize) -> StmtNode
    requires formed { tree.IsFormed nodes.now }
    requires made { IsMadeBy nodes.now at ACT_GO }
    ensures { (whole : AnyStmt) → tree.IsPartAt nodes.now at (PStmt whole) → IsStmtNode nodes.now at result whole }
{
    let word = token_of(nodes, at, ACT_GO, 6);
    let body = place_of(nodes, at, ACT_GO, 2);
    StmtNode::Go { word, body }
}

/// The node at a place where a part of the kind Stmt stands.
pub fn stmt_node(nodes: &[Node], at: usize) -> StmtNode
    requires formed { tree.IsFormed nodes.now }
    requires some { IsSomeStmt nodes.now at }
    ensures { (whole : AnyStmt) → tree.IsPartAt nodes.now at (PStmt whole) → IsStmtNode nodes.now at result whole }
{
    match act_of(nodes, at) {
        ACT_SIMPLE => simple_made(nodes, at),
        ACT_VAR => var_made(nodes, at),
        ACT_VAR_VALUE => var_value_made(nodes, at),
        ACT_IF => if_made(nodes, at),
        ACT_IF_ELSE => if_else_made(nodes, at),
        ACT_NESTED => nested_made(nodes, at),
        ACT_JUMP => jump_made(nodes, at),
        ACT_FOREVER => forever_made(nodes, at),
        ACT_WHILE => while_made(nodes, at),
        ACT_FOR => for_made(nodes, at),
        ACT_RETURN => return_made(nodes, at),
        ACT_GO => go_made(nodes, at),
        _ => unreachable!(),
    }
}
