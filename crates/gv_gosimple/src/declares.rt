//! Variables that a definition declares.

ghost use Rattle.std.specs.Prelude.{◌≡◌, List as Seq, map, OnOk, ◌∷◌};
ghost use Rattle.gv_gosyntax.specs.declared.generated.gosyntax_acts.Part.TheVariants.{Expr as PExpr};
ghost use Rattle.gv_gosyntax.specs.declared.tree.Expr.{Expr as AnyExpr};
ghost use Rattle.gv_gosyntax.specs.Nodes as tree;
ghost use Rattle.gv_gonodes.specs.Expr.{IsSomeExpr};
ghost use Rattle.gv_gotypes.specs.Assigning as spec;
ghost use Rattle.gv_gotypes.specs.Trees.{Expr as PlainExpr, expr_of};
ghost use Rattle.gv_gosimple.specs.Lefts.{AreExprs, AreSomeExprs};
ghost use Rattle.gv_gosimple.specs.Given.{padded, with_left};

use crate::definitions::name_at;
use gv_base::NoMemory;
use gv_goscopes::Scopes;
use gv_gosyntax::Node;
use gv_operands::GoType;
use std::alloc::Global;

fn declare_left<N: Scopes>(
    alloc: Global,
    names: &mut N,
    nodes: &[Node],
    at: usize,
    kind: Option<GoType>,
) -> Result<(), NoMemory>
    requires formed { tree.IsFormed nodes.now }
    requires some { IsSomeExpr nodes.now at }
    ensures env { OnOk result ((e : AnyExpr) → tree.IsPartAt nodes.now at (PExpr e) → N.env names.new ≡ with_left (N.env names.old) (expr_of e) kind) }
    ensures outer { OnOk result (N.outer names.new ≡ N.outer names.old) }
{
    match name_at(nodes, at) {
        Some(name) => names.declare(alloc, name, kind),
        None => Ok(()),
    }
}

// The first type, and those behind it.
fn next_kind(given: &[Option<GoType>]) -> (Option<GoType>, &[Option<GoType>])
    ensures { (e : PlainExpr) (es : Seq PlainExpr) → padded (e ∷ es) given.now ≡ result.0 ∷ padded es result.1.now }
{
    match given {
        [kind, rest @ ..] => (*kind, rest),
        [] => (None, given),
    }
}

/// Declares the left sides at these places that are names, with these types.
pub(crate) fn declare_all<N: Scopes>(
    alloc: Global,
    names: &mut N,
    nodes: &[Node],
    places: &[usize],
    kinds: &[Option<GoType>],
) -> Result<(), NoMemory>
    requires formed { tree.IsFormed nodes.now }
    requires some { AreSomeExprs nodes.now places.now }
    ensures env { OnOk result ((es : Seq AnyExpr) → AreExprs nodes.now places.now es
        → N.env names.new ≡ spec.declaring (N.env names.old) (map expr_of es) (padded (map expr_of es) kinds.now)) }
    ensures outer { OnOk result (N.outer names.new ≡ N.outer names.old) }
{
    let mut left = places;
    let mut given = kinds;
    while let [place, rest @ ..] = left {
        let (kind, more) = next_kind(given);
        declare_left(alloc, names, nodes, *place, kind)?;
        left = rest;
        given = more;
    }
    Ok(())
}
