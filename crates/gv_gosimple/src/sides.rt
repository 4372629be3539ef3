//! How left sides stand.

ghost use Rattle.std.specs.Prelude.{◌≡◌, List as Seq, map};
ghost use Rattle.gv_gosyntax.specs.declared.tree.Expr.{Expr as AnyExpr};
ghost use Rattle.gv_gosyntax.specs.Nodes as tree;
ghost use Rattle.gv_gotypes.specs.Assigning as spec;
ghost use Rattle.gv_gotypes.specs.Trees.{expr_of};
ghost use Rattle.gv_gosimple.specs.Lefts.{AreExprs, AreSomeExprs, side_for};

use gv_goassigns::{is_new_at, is_old_at};
use gv_goscopes::Scopes;
use gv_gosyntax::Node;

/// How a left side stands: by itself; beside others, or where there is none; or left of `:=`, where one of its left sides is new or
/// none is.
#[derive(Clone, Copy, Debug)]
pub enum Side {
    Lone,
    Beside,
    Defined(bool),
}

/// One of the left sides at these places is a name that isn't declared in the scope that was opened last.
pub(crate) fn some_is_new<N: Scopes>(names: &N, nodes: &[Node], places: &[usize]) -> bool
    requires formed { tree.IsFormed nodes.now }
    requires some { AreSomeExprs nodes.now places.now }
    ensures { (es : Seq AnyExpr) → AreExprs nodes.now places.now es → result ≡ spec.some_is (spec.is_new (N.env names.now)) (map expr_of es) }
{
    let mut left = places;
    while let [place, rest @ ..] = left {
        if is_new_at(names, nodes, *place) {
            return true;
        }
        left = rest;
    }
    false
}

/// One of them is a name that is declared there.
pub(crate) fn some_is_old<N: Scopes>(names: &N, nodes: &[Node], places: &[usize]) -> bool
    requires formed { tree.IsFormed nodes.now }
    requires some { AreSomeExprs nodes.now places.now }
    ensures { (es : Seq AnyExpr) → AreExprs nodes.now places.now es → result ≡ spec.some_is (spec.is_old (N.env names.now)) (map expr_of es) }
{
    let mut left = places;
    while let [place, rest @ ..] = left {
        if is_old_at(names, nodes, *place) {
            return true;
        }
        left = rest;
    }
    false
}

/// How the left sides at these places stand.
pub fn side_at<N: Scopes>(names: &N, nodes: &[Node], places: &[usize], defines: bool) -> Side
    requires formed { tree.IsFormed nodes.now }
    requires some { AreSomeExprs nodes.now places.now }
    ensures { (es : Seq AnyExpr) → AreExprs nodes.now places.now es → result ≡ side_for (N.env names.now) defines (map expr_of es) }
{
    if defines {
        Side::Defined(some_is_new(names, nodes, places))
    } else if places.len() == 1 {
        Side::Lone
    } else {
        Side::Beside
    }
}
