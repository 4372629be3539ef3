//! Uses in operands.

ghost use Rattle.std.specs.Prelude.{◌≡◌, ◌++◌, [], ◌∷◌, Option as Maybe, option_map, OnOk};
ghost use Rattle.gv_gosyntax.specs.declared.generated.gosyntax_acts.Part.TheVariants.{Bound as PBound, Expr as PExpr};
ghost use Rattle.gv_gosyntax.specs.declared.tree.Expr.{Expr as AnyExpr};
ghost use Rattle.gv_gosyntax.specs.Nodes as tree;
ghost use Rattle.gv_gonodes.specs.Bound.{IsSomeBound};
ghost use Rattle.gv_gonodes.specs.Expr.{IsSomeExpr};
ghost use Rattle.gv_gotypes.specs.Expressions as expr;
ghost use Rattle.gv_gotypes.specs.Trees.{bound_of, expr_of};
ghost use Rattle.gv_gouses.specs.Uses.{Adds};

use crate::noted::Use;
use gv_base::NoMemory;
use gv_gonodes::{BoundNode, ExprNode, bound_node, expr_node};
use gv_gosyntax::{Lexeme, Node};
use gv_gotypes::{Entity, Found};
use gv_gowalk::Names;

/// Adds a use.
pub(crate) fn note(uses: &mut Vec<Use>, one: Use) -> Result<(), NoMemory>
    ensures { OnOk result (uses.new.items ≡ uses.old.items ++ one ∷ []) }
{
    uses.push(one)?;
    Ok(())
}

/// Adds that a literal behind `go` uses what a name stands for, where that is an outer variable.
pub fn note_found(uses: &mut Vec<Use>, at: u32, found: Found) -> Result<(), NoMemory>
    ensures { OnOk result (Adds uses.old.items uses.new.items (expr.outer_use found at)) }
{
    match found.entity {
        Entity::Variable(declared, _) => {
            if found.is_outer {
                note(uses, Use::Outer(at, declared))
            } else {
                Ok(())
            }
        }
        _ => Ok(()),
    }
}

/// Adds what is found of variables in a name as an operand.
pub fn note_name<N: Names>(names: &N, uses: &mut Vec<Use>, name: Lexeme) -> Result<(), NoMemory>
    ensures { OnOk result (Adds uses.old.items uses.new.items (expr.name_outcome (N.env names.now) name).findings) }
{
    match names.found(name) {
        Some(found) => note_found(uses, name.start, found),
        None => Ok(()),
    }
}

// The same in a bound of a subslice, where it isn't left out.
#[cycle(operands)]
fn note_bound<N: Names>(
    names: &N,
    uses: &mut Vec<Use>,
    nodes: &[Node],
    at: usize,
) -> Result<(), NoMemory>
    requires formed { tree.IsFormed nodes.now }
    requires some { IsSomeBound nodes.now at }
    ensures { OnOk result ((b : Maybe AnyExpr) → tree.IsPartAt nodes.now at (PBound b)
        → Adds uses.old.items uses.new.items (expr.bound_findings (N.env names.now) (bound_of (option_map expr_of b)))) }
{
    match bound_node(nodes, at) {
        BoundNode::NoBound => Ok(()),
        BoundNode::Bound { inner } => note_operand(names, uses, nodes, inner),
    }
}

/// The same in the operand whose node is at a place.
#[cycle(operands)]
pub fn note_operand<N: Names>(
    names: &N,
    uses: &mut Vec<Use>,
    nodes: &[Node],
    at: usize,
) -> Result<(), NoMemory>
    requires formed { tree.IsFormed nodes.now }
    requires some { IsSomeExpr nodes.now at }
    ensures { OnOk result ((e : AnyExpr) → tree.IsPartAt nodes.now at (PExpr e) → Adds uses.old.items uses.new.items (expr.operand (N.env names.now) (expr_of e)).findings) }
{
    match expr_node(nodes, at) {
        ExprNode::Constant { token: _ } => Ok(()),
        ExprNode::Operand { name } => note_name(names, uses, name),
        ExprNode::Paren { start: _, inner } => note_operand(names, uses, nodes, inner),
        ExprNode::Convert { word: _, inner } => note_operand(names, uses, nodes, inner),
        ExprNode::Select { inner, name: _ } => note_operand(names, uses, nodes, inner),
        ExprNode::Index { inner, index } => {
            note_operand(names, uses, nodes, inner)?;
            note_operand(names, uses, nodes, index)
        }
        ExprNode::SliceTo { inner, high } => {
            note_operand(names, uses, nodes, inner)?;
            note_bound(names, uses, nodes, high)
        }
        ExprNode::SliceFrom { inner, low, high } => {
            note_operand(names, uses, nodes, inner)?;
            note_operand(names, uses, nodes, low)?;
            note_bound(names, uses, nodes, high)
        }
        ExprNode::Unary { sign: _, inner } => note_operand(names, uses, nodes, inner),
        ExprNode::Binary {
            left,
            sign: _,
            right,
        } => {
            note_operand(names, uses, nodes, left)?;
            note_operand(names, uses, nodes, right)
        }
    }
}
