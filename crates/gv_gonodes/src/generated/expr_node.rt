//! Expr nodes. Made by tools/nodes.py from gosyntax.grammar: edit that.
#![tactic(auto, unfolding(gv_gosyntax::specs::Nodes::arity))]

ghost use Rattle.std.specs.Prelude.{◌≡◌};
ghost use Rattle.gv_gosyntax.specs.declared.generated.gosyntax_acts.Part.TheVariants.{Expr as PExpr};
ghost use Rattle.gv_gosyntax.specs.declared.tree.Expr.{Expr as AnyExpr};
ghost use Rattle.gv_gosyntax.specs.Nodes as tree;
ghost use Rattle.gv_gonodes.specs.Places.{IsMadeBy};
ghost use Rattle.gv_gonodes.specs.Expr.{IsExprNode, IsSomeExpr};

use crate::parts::{act_of, place_of, token_of};
use gv_gosyntax::generated::gosyntax_table::{
    ACT_BINARY, ACT_CONSTANT, ACT_CONVERT, ACT_INDEX, ACT_OPERAND, ACT_PAREN, ACT_SELECT,
    ACT_SLICE_FROM, ACT_SLICE_TO, ACT_UNARY,
};
use gv_gosyntax::{Lexeme, Node};

/// Which act makes a part of the kind Expr, with the tokens and the places of the parts that it takes.
#[derive(Clone, Copy)]
pub enum ExprNode {
    Constant {
        token: Lexeme,
    },
    Operand {
        name: Lexeme,
    },
    Paren {
        start: Lexeme,
        inner: usize,
    },
    Convert {
        word: Lexeme,
        inner: usize,
    },
    Select {
        inner: usize,
        name: Lexeme,
    },
    Index {
        inner: usize,
        index: usize,
    },
    SliceTo {
        inner: usize,
        high: usize,
    },
    SliceFrom {
        inner: usize,
        low: usize,
        high: usize,
    },
    Unary {
        sign: Lexeme,
        inner: usize,
    },
    Binary {
        left: usize,
        sign: Lexeme,
        right: usize,
    },
}

fn constant_made(nodes: &[Node], at: usize) -> ExprNode
    requires formed { tree.IsFormed nodes.now }
    requires made { IsMadeBy nodes.now at ACT_CONSTANT }
    ensures { (whole : AnyExpr) → tree.IsPartAt nodes.now at (PExpr whole) → IsExprNode nodes.now at result whole }
{
    let token = token_of(nodes, at, ACT_CONSTANT, 0);
    ExprNode::Constant { token }
}

fn operand_made(nodes: &[Node], at: usize) -> ExprNode
    requires formed { tree.IsFormed nodes.now }
    requires made { IsMadeBy nodes.now at ACT_OPERAND }
    ensures { (whole : AnyExpr) → tree.IsPartAt nodes.now at (PExpr whole) → IsExprNode nodes.now at result whole }
{
    let name = token_of(nodes, at, ACT_OPERAND, 0);
    ExprNode::Operand { name }
}

fn paren_made(nodes: &[Node], at: usize) -> ExprNode
    requires formed { tree.IsFormed nodes.now }
    requires made { IsMadeBy nodes.now at ACT_PAREN }
    ensures { (whole : AnyExpr) → tree.IsPartAt nodes.now at (PExpr whole) → IsExprNode nodes.now at result whole }
{
    let start = token_of(nodes, at, ACT_PAREN, 2);
    let inner = place_of(nodes, at, ACT_PAREN, 1);
    ExprNode::Paren { start, inner }
}

fn convert_made(nodes: &[Node], at: usize) -> ExprNode
    requires formed { tree.IsFormed nodes.now }
    requires made { IsMadeBy nodes.now at ACT_CONVERT }
    ensures { (whole : AnyExpr) → tree.IsPartAt nodes.now at (PExpr whole) → IsExprNode nodes.now at result whole }
{
    let word = token_of(nodes, at, ACT_CONVERT, 3);
    let inner = place_of(nodes, at, ACT_CONVERT, 1);
    ExprNode::Convert { word, inner }
}

fn select_made(nodes: &[Node], at: usize) -> ExprNode
    requires formed { tree.IsFormed nodes.now }
    requires made { IsMadeBy nodes.now at ACT_SELECT }
    ensures { (whole : AnyExpr) → tree.IsPartAt nodes.now at (PExpr whole) → IsExprNode nodes.now at result whole }
{
    let inner = place_of(nodes, at, ACT_SELECT, 2);
    let name = token_of(nodes, at, ACT_SELECT, 0);
    ExprNode::Select { inner, name }
}

fn index_made(nodes: &[Node], at: usize) -> ExprNode
    requires formed { tree.IsFormed nodes.now }
    requires made { IsMadeBy nodes.now at ACT_INDEX }
    ensures { (whole : AnyExpr) → tree.IsPartAt nodes.now at (PExpr whole) → IsExprNode nodes.now at result whole }
{
    let inner = place_of(nodes, at, ACT_INDEX, 3);
    let index = place_of(nodes, at, ACT_INDEX, 1);
    ExprNode::Index { inner, index }
}

fn slice_to_made(nodes: &[Node], at: usize) -> ExprNode
    requires formed { tree.IsFormed nodes.now }
    requires made { IsMadeBy nodes.now at ACT_SLICE_TO }
    ensures { (whole : AnyExpr) → tree.IsPartAt nodes.now at (PExpr whole) → IsExprNode nodes.now at result whole }
{
    let inner = place_of(nodes, at, ACT_SLICE_TO, 4);
    let high = place_of(nodes, at, ACT_SLICE_TO, 1);
    ExprNode::SliceTo { inner, high }
}

fn slice_from_made(nodes: &[Node], at: usize) -> ExprNode
    requires formed { tree.IsFormed nodes.now }
    requires made { IsMadeBy nodes.now at ACT_SLICE_FROM }
    ensures { (whole : AnyExpr) → tree.IsPartAt nodes.now at (PExpr whole) → IsExprNode nodes.now at result whole }
{
    let inner = place_of(nodes, at, ACT_SLICE_FROM, 5);
    let low = place_of(nodes, at, ACT_SLICE_FROM, 3);
    let high = place_of(nodes, at, ACT_SLICE_FROM, 1);
    ExprNode::SliceFrom { inner, low, high }
}

fn unary_made(nodes: &[Node], at: usize) -> ExprNode
    requires formed { tree.IsFormed nodes.now }
    requires made { IsMadeBy nodes.now at ACT_UNARY }
    ensures { (whole : AnyExpr) → tree.IsPartAt nodes.now at (PExpr whole) → IsExprNode nodes.now at result whole }
{
    let sign = token_of(nodes, at, ACT_UNARY, 1);
    let inner = place_of(nodes, at, ACT_UNARY, 0);
    ExprNode::Unary { sign, inner }
}

fn binary_made(nodes: &[Node], at: usize) -> ExprNode
    requires formed { tree.IsFormed nodes.now }
    requires made { IsMadeBy nodes.now at ACT_BINARY }
    ensures { (whole : AnyExpr) → tree.IsPartAt nodes.now at (PExpr whole) → IsExprNode nodes.now at result whole }
{
    let left = place_of(nodes, at, ACT_BINARY, 2);
    let sign = token_of(nodes, at, ACT_BINARY, 1);
    let right = place_of(nodes, at, ACT_BINARY, 0);
    ExprNode::Binary { left, sign, right }
}

/// The node at a place where a part of the kind Expr stands.
pub fn expr_node(nodes: &[Node], at: usize) -> ExprNode
    requires formed { tree.IsFormed nodes.now }
    requires some { IsSomeExpr nodes.now at }
    ensures { (whole : AnyExpr) → tree.IsPartAt nodes.now at (PExpr whole) → IsExprNode nodes.now at result whole }
{
    match act_of(nodes, at) {
        ACT_CONSTANT => constant_made(nodes, at),
        ACT_OPERAND => operand_made(nodes, at),
        ACT_PAREN => paren_made(nodes, at),
        ACT_CONVERT => convert_made(nodes, at),
        ACT_SELECT => select_made(nodes, at),
        ACT_INDEX => index_made(nodes, at),
        ACT_SLICE_TO => slice_to_made(nodes, at),
        ACT_SLICE_FROM => slice_from_made(nodes, at),
        ACT_UNARY => unary_made(nodes, at),
        ACT_BINARY => binary_made(nodes, at),
        _ => unreachable!(),
    }
}
