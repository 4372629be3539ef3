//! What left sides of `:=` have against one another.

ghost use Rattle.std.specs.Prelude.{◌≡◌, ◌++◌, List as Seq, map, Some, [], ◌∷◌};
ghost use Rattle.gv_base.specs.declared.answers.Code.TheVariants as code;
ghost use Rattle.gv_gosyntax.specs.declared.generated.gosyntax_acts.Part.TheVariants.{Expr as PExpr};
ghost use Rattle.gv_gosyntax.specs.declared.tree.Expr.{Expr as AnyExpr};
ghost use Rattle.gv_gosyntax.specs.Nodes as tree;
ghost use Rattle.gv_gonodes.specs.Expr.{IsSomeExpr};
ghost use Rattle.gv_gotypes.specs.Assigning as spec;
ghost use Rattle.gv_gotypes.specs.Trees.{expr_of};
ghost use Rattle.gv_gotyped.specs.First.{first_of};
ghost use Rattle.gv_goassigns.specs.Targets.{is_blank_name};
ghost use Rattle.gv_gosimple.specs.Lefts.{AreExprs, AreSomeExprs, name_of};

use crate::sides::some_is_old;
use gv_base::Code;
use gv_goassigns::{is_new_at, start_at};
use gv_gocalls::{Form, form_at};
use gv_goscopes::Scopes;
use gv_gosyntax::{Lexeme, Node};
use gv_gotyped::{Fault, earliest};

fn twice(start: u32) -> Option<Fault>
    ensures { result ≡ Some (record { start = start; code = code.Twice }) }
{
    Some(Fault {
        start,
        code: Code::Twice,
    })
}

/// The name that an operand is, without parentheses.
pub(crate) fn name_at(nodes: &[Node], at: usize) -> Option<Lexeme>
    requires formed { tree.IsFormed nodes.now }
    requires some { IsSomeExpr nodes.now at }
    ensures { (e : AnyExpr) → tree.IsPartAt nodes.now at (PExpr e) → result ≡ name_of (expr_of e) }
{
    match form_at(nodes, at) {
        Form::Name(name) => Some(name),
        Form::Member(_, _) => None,
        Form::Item(_, _) => None,
        Form::Other => None,
    }
}

fn is_blank_at<N: Scopes>(names: &N, nodes: &[Node], at: usize) -> bool
    requires formed { tree.IsFormed nodes.now }
    requires some { IsSomeExpr nodes.now at }
    ensures { (e : AnyExpr) → tree.IsPartAt nodes.now at (PExpr e) → result ≡ is_blank_name (N.env names.now) (expr_of e) }
{
    match name_at(nodes, at) {
        Some(name) => names.is_blank(name),
        None => false,
    }
}

// The fault of the first `_`.
fn first_blank_at<N: Scopes>(names: &N, nodes: &[Node], places: &[usize]) -> Option<Fault>
    requires formed { tree.IsFormed nodes.now }
    requires some { AreSomeExprs nodes.now places.now }
    ensures { (es : Seq AnyExpr) → AreExprs nodes.now places.now es → result ≡ first_of (spec.first_blank (N.env names.now) (map expr_of es)) }
{
    let mut left = places;
    while let [place, rest @ ..] = left {
        if is_blank_at(names, nodes, *place) {
            return twice(start_at(names, nodes, *place));
        }
        left = rest;
    }
    None
}

fn same_name_at<N: Scopes>(names: &N, nodes: &[Node], first: usize, other: usize) -> bool
    requires formed { tree.IsFormed nodes.now }
    requires first { IsSomeExpr nodes.now first }
    requires other { IsSomeExpr nodes.now other }
    ensures { (a b : AnyExpr) → tree.IsPartAt nodes.now first (PExpr a) → tree.IsPartAt nodes.now other (PExpr b)
        → result ≡ spec.same_name (N.env names.now) (expr_of a) (expr_of b) }
{
    match (name_at(nodes, first), name_at(nodes, other)) {
        (Some(name), Some(second)) => !names.is_blank(name) && names.is_same(name, second),
        _ => false,
    }
}

fn pair_again_at<N: Scopes>(names: &N, nodes: &[Node], first: usize, second: usize) -> Option<Fault>
    requires formed { tree.IsFormed nodes.now }
    requires first { IsSomeExpr nodes.now first }
    requires second { IsSomeExpr nodes.now second }
    ensures { (a b : AnyExpr) → tree.IsPartAt nodes.now first (PExpr a) → tree.IsPartAt nodes.now second (PExpr b)
        → result ≡ first_of (spec.again (N.env names.now) (expr_of a ∷ expr_of b ∷ [])) }
{
    if is_new_at(names, nodes, first) && same_name_at(names, nodes, first, second) {
        twice(start_at(names, nodes, second))
    } else {
        None
    }
}

// Of two the second is the first one again.
fn again_at<N: Scopes>(names: &N, nodes: &[Node], places: &[usize]) -> Option<Fault>
    requires formed { tree.IsFormed nodes.now }
    requires some { AreSomeExprs nodes.now places.now }
    ensures { (es : Seq AnyExpr) → AreExprs nodes.now places.now es → result ≡ first_of (spec.again (N.env names.now) (map expr_of es)) }
{
    match places {
        [first, second] => pair_again_at(names, nodes, *first, *second),
        _ => None,
    }
}

fn nothing_new_at<N: Scopes>(
    names: &N,
    nodes: &[Node],
    places: &[usize],
    fresh: bool,
) -> Option<Fault>
    requires formed { tree.IsFormed nodes.now }
    requires some { AreSomeExprs nodes.now places.now }
    ensures { (es : Seq AnyExpr) → AreExprs nodes.now places.now es → fresh ≡ spec.some_is (spec.is_new (N.env names.now)) (map expr_of es)
        → result ≡ first_of (spec.nothing_new (N.env names.now) (map expr_of es)) }
{
    if fresh {
        return None;
    }
    if some_is_old(names, nodes, places) {
        return None;
    }
    first_blank_at(names, nodes, places)
}

/// The fault that is told of left sides of `:=` beside one another, where one of them is new or none is.
pub(crate) fn definition_fault<N: Scopes>(
    names: &N,
    nodes: &[Node],
    places: &[usize],
    fresh: bool,
) -> Option<Fault>
    requires formed { tree.IsFormed nodes.now }
    requires some { AreSomeExprs nodes.now places.now }
    ensures { (es : Seq AnyExpr) → AreExprs nodes.now places.now es → fresh ≡ spec.some_is (spec.is_new (N.env names.now)) (map expr_of es)
        → result ≡ first_of (spec.nothing_new (N.env names.now) (map expr_of es) ++ spec.again (N.env names.now) (map expr_of es)) }
{
    let nothing = nothing_new_at(names, nodes, places, fresh);
    let again = again_at(names, nodes, places);
    earliest(nothing, again)
}
