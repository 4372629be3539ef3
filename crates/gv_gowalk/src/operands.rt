//! Operands.

ghost use Rattle.std.specs.Prelude.{◌≡◌, Option as Maybe, option_map, Some, None};
ghost use Rattle.gv_gosyntax.specs.declared.generated.gosyntax_acts.Part.TheVariants.{Bound as PBound, Expr as PExpr};
ghost use Rattle.gv_gosyntax.specs.declared.tree.Expr.{Expr as AnyExpr};
ghost use Rattle.gv_gosyntax.specs.Nodes as tree;
ghost use Rattle.gv_gonodes.specs.Bound.{IsSomeBound};
ghost use Rattle.gv_gonodes.specs.Expr.{IsSomeExpr};
ghost use Rattle.gv_gotypes.specs.Expressions as expr;
ghost use Rattle.gv_gotypes.specs.Trees.{Expr as PlainExpr, Constant as ConstantTree, Name as NameTree, Select as SelectTree, bound_of, expr_of};
ghost use Rattle.gv_gotyped.specs.Operands.{IsOperand};
ghost use Rattle.gv_gotyped.specs.Parts.{IsBound, IsMemberOf};
ghost use Rattle.gv_gowalk.specs.Packages.{IsPackage, name_by};

use crate::names::Names;
use gv_gonodes::{BoundNode, ExprNode, bound_node, expr_node};
use gv_gosyntax::{Lexeme, Node};
use gv_gotyped::{
    Member, Operand, binary_operand, convert_operand, index_operand, library_operand,
    literal_operand, name_operand, paren_operand, select_operand, slice_operand, unary_operand,
};
use gv_gotypes::{Entity, Library};
use gv_operands::{Class, GoType};

// ---- names and literals

fn name_at<N: Names>(names: &N, name: Lexeme) -> Operand
    ensures { IsOperand (N.env names.now) (NameTree name) result }
{
    let found = names.found(name);
    let constant = names.constant(found);
    name_operand(name, found, constant)
}

fn literal_at<N: Names>(names: &N, token: Lexeme) -> Operand
    ensures { IsOperand (N.env names.now) (ConstantTree token) result }
{
    let value = names.value(token);
    literal_operand(token, value)
}

// ---- members

/// The package that a name stands for.
pub fn library_named<N: Names>(names: &N, name: Lexeme) -> Option<Library>
    ensures { result ≡ expr.library_of (N.env names.now) (NameTree name) }
{
    match names.found(name) {
        Some(found) => match found.entity {
            Entity::Imported(library) => Some(library),
            _ => None,
        },
        None => None,
    }
}

// The name that an operand is, without parentheses.
fn name_in(node: ExprNode) -> Option<Lexeme>
    ensures { result ≡ name_by node }
{
    match node {
        ExprNode::Operand { name } => Some(name),
        _ => None,
    }
}

/// The package that an operand names, and that name.
pub fn library_at<N: Names>(names: &N, nodes: &[Node], at: usize) -> Option<(Lexeme, Library)>
    requires formed { tree.IsFormed nodes.now }
    requires some { IsSomeExpr nodes.now at }
    ensures { (e : AnyExpr) → tree.IsPartAt nodes.now at (PExpr e) → IsPackage (N.env names.now) (expr_of e) result }
{
    let node = expr_node(nodes, at);
    match name_in(node) {
        Some(name) => match library_named(names, name) {
            Some(library) => Some((name, library)),
            None => None,
        },
        None => None,
    }
}

fn member_of<N: Names>(names: &N, class: Option<Class>, name: Lexeme) -> Option<Member>
    ensures { IsMemberOf (N.env names.now) class name result }
{
    match class {
        Some(Class::Run(GoType::Pointer(base))) => names.member(base, name),
        _ => None,
    }
}

// `e.NAME`, where e names no package.
fn select_at<N: Names>(names: &N, whole: Operand, name: Lexeme) -> Operand
    ensures { (e : PlainExpr) → IsOperand (N.env names.now) e whole → expr.library_of (N.env names.now) e ≡ None
        → IsOperand (N.env names.now) (SelectTree e name) result }
{
    let member = member_of(names, whole.part.class, name);
    select_operand(whole, name, member)
}

// `PACKAGE.NAME`
fn package_member_at<N: Names>(names: &N, word: Lexeme, library: Library, name: Lexeme) -> Operand
    ensures { expr.library_of (N.env names.now) (NameTree word) ≡ Some library → IsOperand (N.env names.now) (SelectTree (NameTree word) name) result }
{
    let member = names.library_member(library, name);
    library_operand(word, name, member)
}

// ---- every form

// A bound of a subslice, where it isn't left out.
#[cycle(operands)]
fn bound_at<N: Names>(names: &N, nodes: &[Node], at: usize) -> Option<Operand>
    requires formed { tree.IsFormed nodes.now }
    requires some { IsSomeBound nodes.now at }
    ensures { (b : Maybe AnyExpr) → tree.IsPartAt nodes.now at (PBound b) → IsBound (N.env names.now) (bound_of (option_map expr_of b)) result }
{
    match bound_node(nodes, at) {
        BoundNode::NoBound => None,
        BoundNode::Bound { inner } => Some(operand_at(names, nodes, inner)),
    }
}

/// The operand whose node is at a place, where these names are seen.
#[cycle(operands)]
pub fn operand_at<N: Names>(names: &N, nodes: &[Node], at: usize) -> Operand
    requires formed { tree.IsFormed nodes.now }
    requires some { IsSomeExpr nodes.now at }
    ensures { (e : AnyExpr) → tree.IsPartAt nodes.now at (PExpr e) → IsOperand (N.env names.now) (expr_of e) result }
{
    match expr_node(nodes, at) {
        ExprNode::Constant { token } => literal_at(names, token),
        ExprNode::Operand { name } => name_at(names, name),
        ExprNode::Paren { start, inner } => {
            let known = operand_at(names, nodes, inner);
            paren_operand(start, known)
        }
        ExprNode::Convert { word, inner } => {
            let known = operand_at(names, nodes, inner);
            convert_operand(word, known)
        }
        ExprNode::Select { inner, name } => match library_at(names, nodes, inner) {
            Some((word, library)) => package_member_at(names, word, library, name),
            None => {
                let known = operand_at(names, nodes, inner);
                select_at(names, known, name)
            }
        },
        ExprNode::Index { inner, index } => {
            let known = operand_at(names, nodes, inner);
            let place = operand_at(names, nodes, index);
            index_operand(known, place)
        }
        ExprNode::SliceTo { inner, high } => {
            let known = operand_at(names, nodes, inner);
            let above = bound_at(names, nodes, high);
            slice_operand(known, None, above)
        }
        ExprNode::SliceFrom { inner, low, high } => {
            let known = operand_at(names, nodes, inner);
            let below = operand_at(names, nodes, low);
            let above = bound_at(names, nodes, high);
            slice_operand(known, Some(below), above)
        }
        ExprNode::Unary { sign, inner } => {
            let known = operand_at(names, nodes, inner);
            unary_operand(sign, known)
        }
        ExprNode::Binary { left, sign, right } => {
            let first = operand_at(names, nodes, left);
            let second = operand_at(names, nodes, right);
            binary_operand(first, sign, second)
        }
    }
}
