//! The constants that an expression names.

ghost use Rattle.std.specs.Prelude.{◌≡◌, ◌++◌, Option as Maybe, option_map, OnOk};
ghost use Rattle.gv_gosyntax.specs.declared.generated.gosyntax_acts.Part.TheVariants.{Bound as PBound, Expr as PExpr};
ghost use Rattle.gv_gosyntax.specs.declared.tree.Expr.{Expr as AnyExpr};
ghost use Rattle.gv_gosyntax.specs.Nodes as tree;
ghost use Rattle.gv_gonodes.specs.Bound.{IsSomeBound};
ghost use Rattle.gv_gonodes.specs.Expr.{IsSomeExpr};
ghost use Rattle.gv_gotypes.specs.Scopes as scope;
ghost use Rattle.gv_gotypes.specs.Constants.{constant_number, named_by, named_by_bound};
ghost use Rattle.gv_gotypes.specs.Trees.{bound_of, expr_of};

use gv_base::NoMemory;
use gv_gonodes::{BoundNode, ExprNode, bound_node, expr_node};
use gv_gosyntax::{Lexeme, Node};
use gv_gotypes::Entity;
use gv_gowalk::{Names, entity_of};

// Appends the number of a constant, where a name stands for one.
fn push_name<N: Names>(names: &N, name: Lexeme, named: &mut Vec<u32>) -> Result<(), NoMemory>
    ensures { OnOk result (named.new.items ≡ named.old.items ++ constant_number (scope.entity_named (N.env names.now) (scope.name_in (N.env names.now).source name))) }
{
    match entity_of(names, name) {
        Some(Entity::ConstantOf(number)) => {
            named.push(number)?;
            Ok(())
        }
        _ => Ok(()),
    }
}

// Appends what a bound of a subslice names, where it isn't left out.
#[cycle(named)]
fn push_bound<N: Names>(
    names: &N,
    nodes: &[Node],
    at: usize,
    named: &mut Vec<u32>,
) -> Result<(), NoMemory>
    requires formed { tree.IsFormed nodes.now }
    requires some { IsSomeBound nodes.now at }
    ensures { OnOk result ((b : Maybe AnyExpr) → tree.IsPartAt nodes.now at (PBound b)
        → named.new.items ≡ named.old.items ++ named_by_bound (N.env names.now) (bound_of (option_map expr_of b))) }
{
    match bound_node(nodes, at) {
        BoundNode::NoBound => Ok(()),
        BoundNode::Bound { inner } => push_named(names, nodes, inner, named),
    }
}

/// Appends the numbers of the constants that an expression names, whose node is at a place, in order of text and each as often as
/// it is named.
#[cycle(named)]
pub fn push_named<N: Names>(
    names: &N,
    nodes: &[Node],
    at: usize,
    named: &mut Vec<u32>,
) -> Result<(), NoMemory>
    requires formed { tree.IsFormed nodes.now }
    requires some { IsSomeExpr nodes.now at }
    ensures { OnOk result ((e : AnyExpr) → tree.IsPartAt nodes.now at (PExpr e)
        → named.new.items ≡ named.old.items ++ named_by (N.env names.now) (expr_of e)) }
{
    match expr_node(nodes, at) {
        ExprNode::Constant { token: _ } => Ok(()),
        ExprNode::Operand { name } => push_name(names, name, named),
        ExprNode::Paren { start: _, inner } => push_named(names, nodes, inner, named),
        ExprNode::Convert { word: _, inner } => push_named(names, nodes, inner, named),
        ExprNode::Select { inner, name: _ } => push_named(names, nodes, inner, named),
        ExprNode::Index { inner, index } => {
            push_named(names, nodes, inner, named)?;
            push_named(names, nodes, index, named)
        }
        ExprNode::SliceTo { inner, high } => {
            push_named(names, nodes, inner, named)?;
            push_bound(names, nodes, high, named)
        }
        ExprNode::SliceFrom { inner, low, high } => {
            push_named(names, nodes, inner, named)?;
            push_named(names, nodes, low, named)?;
            push_bound(names, nodes, high, named)
        }
        ExprNode::Unary { sign: _, inner } => push_named(names, nodes, inner, named),
        ExprNode::Binary {
            left,
            sign: _,
            right,
        } => {
            push_named(names, nodes, left, named)?;
            push_named(names, nodes, right, named)
        }
    }
}
