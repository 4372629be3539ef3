//! What left sides want.

ghost use Rattle.std.specs.Prelude.{◌≡◌, List as Seq, map, IfOk};
ghost use Rattle.gv_gosyntax.specs.declared.generated.gosyntax_acts.Part.TheVariants.{Expr as PExpr};
ghost use Rattle.gv_gosyntax.specs.declared.tree.Expr.{Expr as AnyExpr};
ghost use Rattle.gv_gosyntax.specs.Nodes as tree;
ghost use Rattle.gv_gonodes.specs.Expr.{IsSomeExpr};
ghost use Rattle.gv_gotypes.specs.Assigning as spec;
ghost use Rattle.gv_gotypes.specs.Places as place;
ghost use Rattle.gv_gotypes.specs.Statements as statement;
ghost use Rattle.gv_gotypes.specs.Trees.{expr_of};
ghost use Rattle.gv_goassigns.specs.Targets.{IsTarget};
ghost use Rattle.gv_gosimple.specs.Lefts.{AreExprs, AreSomeExprs, AreTargets, by_side};

use crate::sides::Side;
use gv_base::NoMemory;
use gv_goassigns::{Target, defined_at, pair_target_at, start_at, target_at};
use gv_goscopes::Scopes;
use gv_gosyntax::Node;
use gv_gotyped::{Fault, earliest};
use gv_operands::Want;
use std::alloc::Global;

/// Left sides that were walked over: what each wants, in order, and the fault in them that is told.
#[derive(Debug, Drop)]
pub(crate) struct Targets {
    pub wants: Vec<Want>,
    pub first: Option<Fault>,
}

fn side_target_at<N: Scopes>(names: &N, nodes: &[Node], at: usize, side: Side) -> Target
    requires formed { tree.IsFormed nodes.now }
    requires some { IsSomeExpr nodes.now at }
    ensures { (e : AnyExpr) → tree.IsPartAt nodes.now at (PExpr e) → IsTarget result (by_side (N.env names.now) side (expr_of e)) }
{
    match side {
        Side::Lone => target_at(names, nodes, at),
        Side::Beside => pair_target_at(names, nodes, at),
        Side::Defined(fresh) => defined_at(names, nodes, at, fresh),
    }
}

/// The left sides at these places.
pub(crate) fn targets_at<N: Scopes>(
    alloc: Global,
    names: &N,
    nodes: &[Node],
    places: &[usize],
    side: Side,
) -> Result<Targets, NoMemory>
    requires formed { tree.IsFormed nodes.now }
    requires some { AreSomeExprs nodes.now places.now }
    ensures { (es : Seq AnyExpr) → AreExprs nodes.now places.now es
        → IfOk result (λ known. AreTargets known (spec.targets_by (by_side (N.env names.now) side) (map expr_of es))) }
{
    let mut wants = Vec::new(alloc);
    let mut first = None;
    let mut left = places;
    while let [place, rest @ ..] = left {
        let target = side_target_at(names, nodes, *place, side);
        wants.push(target.wants)?;
        first = earliest(first, target.first);
        left = rest;
    }
    Ok(Targets { wants, first })
}

/// Where the left sides begin.
pub(crate) fn first_start_at<N: Scopes>(names: &N, nodes: &[Node], places: &[usize]) -> u32
    requires formed { tree.IsFormed nodes.now }
    requires some { AreSomeExprs nodes.now places.now }
    ensures { (es : Seq AnyExpr) → AreExprs nodes.now places.now es → result ≡ statement.first_start (map expr_of es) }
{
    match places {
        [place, ..] => start_at(names, nodes, *place),
        [] => 0,
    }
}
