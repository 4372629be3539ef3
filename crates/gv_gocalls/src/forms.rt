//! Operands as they are called and assigned.

ghost use Rattle.std.specs.Prelude.{◌≡◌};
ghost use Rattle.gv_gosyntax.specs.declared.generated.gosyntax_acts.Part.TheVariants.{Expr as PExpr};
ghost use Rattle.gv_gosyntax.specs.declared.tree.Expr.{Expr as AnyExpr};
ghost use Rattle.gv_gosyntax.specs.Nodes as tree;
ghost use Rattle.gv_gonodes.specs.Expr.{IsSomeExpr};
ghost use Rattle.gv_gocalls.specs.Forms.{form_by, IsForm};

use gv_gonodes::{ExprNode, expr_node};
use gv_gosyntax::{Lexeme, Node};

/// What an operand is that may be called or assigned: a name; a member, of the operand at this node; an item of the first operand
/// at the place of the second; or something else.
#[derive(Clone, Copy, Debug)]
pub enum Form {
    Name(Lexeme),
    Member(usize, Lexeme),
    Item(usize, usize),
    Other,
}

fn form_of(node: ExprNode) -> Form
    ensures { result ≡ form_by node }
{
    match node {
        ExprNode::Operand { name } => Form::Name(name),
        ExprNode::Select { inner, name } => Form::Member(inner, name),
        ExprNode::Index { inner, index } => Form::Item(inner, index),
        _ => Form::Other,
    }
}

/// The form of the operand whose node is at a place.
pub fn form_at(nodes: &[Node], at: usize) -> Form
    requires formed { tree.IsFormed nodes.now }
    requires some { IsSomeExpr nodes.now at }
    ensures { (e : AnyExpr) → tree.IsPartAt nodes.now at (PExpr e) → IsForm nodes.now at result e }
{
    let node = expr_node(nodes, at);
    form_of(node)
}
