//! Operands, by their nodes.

ghost use Rattle.std.specs.Prelude.{◌≡◌, Option as Maybe, option_map, Some, None, IfOk, length};
ghost use Rattle.gv_base.specs.declared.answers.Place.{Place as AnyPlace};
ghost use Rattle.gv_gosyntax.specs.declared.generated.gosyntax_acts.Part.TheVariants.{Bound as PBound, Expr as PExpr};
ghost use Rattle.gv_gosyntax.specs.declared.tree.Expr.{Expr as AnyExpr};
ghost use Rattle.gv_gosyntax.specs.Nodes as tree;
ghost use Rattle.gv_gonodes.specs.Bound.{IsSomeBound};
ghost use Rattle.gv_gonodes.specs.Expr.{IsSomeExpr};
ghost use Rattle.gv_gotypes.specs.Trees.{Expr as PlainExpr, Binary as BinaryTree, bound_of, expr_of};
ghost use Rattle.gv_gotyped.specs.Operands.{IsOperand};
ghost use Rattle.gv_lowering.specs.Operands as lower;
ghost use Rattle.gv_lowerops.specs.declared.draft.Draft.{Draft as AnyDraft};
ghost use Rattle.gv_lowerops.specs.Tails.{IsTail, IsRead, IsJoined, IsHigh};

use crate::copies::copied;
use crate::draft::{Draft, KnownBound, KnownRead, KnownTail, Read, Tail};
use crate::fields::Fields;
use crate::known::{
    constant_at, converted, indexed_at, name_at, or_constant, package_member_at, selected_at,
    sliced, unary_at,
};
use crate::last::{Last, Reading};
use crate::places::Places;
use crate::settling::settled;
use crate::short::{both, is_short, joined, set_aside};
use gv_base::{NoMemory, Place};
use gv_gonodes::{BoundNode, ExprNode, bound_node, expr_node};
use gv_gosyntax::{Lexeme, Node};
use gv_gotyped::{binary_operand, paren_operand};
use gv_gowalk::library_at;
use gv_lang::{LocalKind, Pure};
use gv_operands::GoType;
use std::alloc::Global;

// The right operand, behind the left one.
#[cycle(operands)]
fn right_at<N: Fields, P: Places>(
    alloc: Global,
    names: &N,
    places: &P,
    place: Place,
    nodes: &[Node],
    at: usize,
    sign: Lexeme,
    left: KnownRead,
) -> Result<KnownTail, NoMemory>
    requires formed { tree.IsFormed nodes.now }
    requires some { IsSomeExpr nodes.now at }
    ensures { (old : AnyDraft) (a : PlainExpr) (b : AnyExpr) → IsRead (P.context places.now) place (N.env names.now) old a None left
        → tree.IsPartAt nodes.now at (PExpr b)
        → IfOk result (λ made. IsJoined (P.context places.now) place (N.env names.now) old a sign (expr_of b) made) }
{
    let KnownRead { read, known } = left;
    let Read { draft, value } = read;
    if is_short(sign.class) {
        let aside = set_aside(alloc, draft)?;
        let right = read_at(alloc, names, places, place, nodes, at, None, aside.block)?;
        let known = binary_operand(known, sign, right.known);
        let tail = joined(
            alloc,
            places,
            place,
            sign.class,
            value,
            aside.before,
            aside.used,
            right.read,
        )?;
        Ok(KnownTail { tail, known })
    } else {
        let right = read_at(alloc, names, places, place, nodes, at, None, draft)?;
        let known = binary_operand(known, sign, right.known);
        let tail = both(alloc, sign.class, value, right.read)?;
        Ok(KnownTail { tail, known })
    }
}

// The end of a part of this slice, where it isn't left out; else its length is read.
#[cycle(operands)]
fn high_at<N: Fields, P: Places>(
    alloc: Global,
    names: &N,
    places: &P,
    place: Place,
    nodes: &[Node],
    at: usize,
    whole: &Pure,
    draft: Draft,
) -> Result<KnownBound, NoMemory>
    requires formed { tree.IsFormed nodes.now }
    requires some { IsSomeBound nodes.now at }
    ensures { (b : Maybe AnyExpr) → tree.IsPartAt nodes.now at (PBound b)
        → IfOk result (λ made. IsHigh (P.context places.now) place (N.env names.now) draft (bound_of (option_map expr_of b)) whole.now made) }
{
    match bound_node(nodes, at) {
        BoundNode::NoBound => {
            let s = copied(alloc, whole)?;
            let last = Last::Reads(LocalKind::Word, Reading::Len { s });
            let read = settled(places, place, Tail { draft, last })?;
            Ok(KnownBound { read, known: None })
        }
        BoundNode::Bound { inner } => {
            let made = read_at(alloc, names, places, place, nodes, inner, None, draft)?;
            Ok(KnownBound {
                read: made.read,
                known: Some(made.known),
            })
        }
    }
}

/// What is made of the operand whose node is at a place, where these names are seen, as an expression behind what reads: a read that ends
/// it sets a temporary. All commands stand at one place of the text.
#[cycle(operands)]
pub fn read_at<N: Fields, P: Places>(
    alloc: Global,
    names: &N,
    places: &P,
    place: Place,
    nodes: &[Node],
    at: usize,
    want: Option<GoType>,
    draft: Draft,
) -> Result<KnownRead, NoMemory>
    requires formed { tree.IsFormed nodes.now }
    requires some { IsSomeExpr nodes.now at }
    ensures { (e : AnyExpr) → tree.IsPartAt nodes.now at (PExpr e)
        → IfOk result (λ made. IsRead (P.context places.now) place (N.env names.now) draft (expr_of e) want made) }
{
    let made = tail_at(alloc, names, places, place, nodes, at, want, draft)?;
    let read = settled(places, place, made.tail)?;
    Ok(KnownRead {
        read,
        known: made.known,
    })
}

/// What is made of the operand whose node is at a place, where these names are seen, in a place that wants a type. All commands stand
/// at one place of the text.
#[cycle(operands)]
pub fn tail_at<N: Fields, P: Places>(
    alloc: Global,
    names: &N,
    places: &P,
    place: Place,
    nodes: &[Node],
    at: usize,
    want: Option<GoType>,
    draft: Draft,
) -> Result<KnownTail, NoMemory>
    requires formed { tree.IsFormed nodes.now }
    requires some { IsSomeExpr nodes.now at }
    ensures { (e : AnyExpr) → tree.IsPartAt nodes.now at (PExpr e)
        → IfOk result (λ made. IsTail (P.context places.now) place (N.env names.now) draft (expr_of e) want made) }
{
    let mark = draft.mark();
    match expr_node(nodes, at) {
        ExprNode::Constant { token } => Ok(constant_at(names, token, want, draft)),
        ExprNode::Operand { name } => name_at(names, places, name, draft),
        ExprNode::Paren { start, inner } => {
            let made = tail_at(alloc, names, places, place, nodes, inner, want, draft)?;
            Ok(KnownTail {
                tail: made.tail,
                known: paren_operand(start, made.known),
            })
        }
        ExprNode::Convert { word, inner } => {
            let made = tail_at(alloc, names, places, place, nodes, inner, None, draft)?;
            converted(places, place, word, made, mark)
        }
        ExprNode::Select { inner, name } => match library_at(names, nodes, inner) {
            Some((word, library)) => Ok(package_member_at(names, word, library, name, draft)),
            None => {
                let whole = read_at(alloc, names, places, place, nodes, inner, None, draft)?;
                Ok(selected_at(names, whole, name, mark))
            }
        },
        ExprNode::Index { inner, index } => {
            let whole = read_at(alloc, names, places, place, nodes, inner, None, draft)?;
            let KnownRead { read, known } = whole;
            let Read { draft, value } = read;
            let item = read_at(alloc, names, places, place, nodes, index, None, draft)?;
            Ok(indexed_at(value, known, item))
        }
        ExprNode::SliceTo { inner, high } => {
            let whole = read_at(alloc, names, places, place, nodes, inner, None, draft)?;
            let KnownRead { read, known } = whole;
            let Read { draft, value } = read;
            let above = high_at(alloc, names, places, place, nodes, high, &value, draft)?;
            Ok(sliced(value, known, Pure::Word(0), None, above))
        }
        ExprNode::SliceFrom { inner, low, high } => {
            let whole = read_at(alloc, names, places, place, nodes, inner, None, draft)?;
            let KnownRead { read, known } = whole;
            let Read { draft, value } = read;
            let below = read_at(alloc, names, places, place, nodes, low, None, draft)?;
            let bottom = below.read.value;
            let middle = below.read.draft;
            let above = high_at(alloc, names, places, place, nodes, high, &value, middle)?;
            Ok(sliced(value, known, bottom, Some(below.known), above))
        }
        ExprNode::Unary { sign, inner } => {
            let made = read_at(alloc, names, places, place, nodes, inner, None, draft)?;
            unary_at(alloc, sign, made, mark)
        }
        ExprNode::Binary { left, sign, right } => {
            let first = read_at(alloc, names, places, place, nodes, left, None, draft)?;
            let made = right_at(alloc, names, places, place, nodes, right, sign, first)?;
            Ok(or_constant(made, mark))
        }
    }
}
