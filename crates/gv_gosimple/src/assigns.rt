//! Whole assignments and definitions.

ghost use Rattle.std.specs.Prelude.{◌≡◌, ◌==◌, ◌++◌, [], if◌then◌else◌, List as Seq, map, IfOk, OnOk};
ghost use Rattle.gv_gosyntax.specs.declared.generated.gosyntax_acts.Part.TheVariants.{Exprs as PExprs, Right as PRight};
ghost use Rattle.gv_gosyntax.specs.declared.generated.gosyntax_table.TheConstants.{CLASS_DEFINE};
ghost use Rattle.gv_gosyntax.specs.declared.tree.Expr.{Expr as AnyExpr};
ghost use Rattle.gv_gosyntax.specs.declared.tree.Right.{Right as AnyRight};
ghost use Rattle.gv_gosyntax.specs.Nodes as tree;
ghost use Rattle.gv_gonodes.specs.Exprs.{IsSomeExprs};
ghost use Rattle.gv_gonodes.specs.Right.{IsSomeRight};
ghost use Rattle.gv_gotypes.specs.Statements as spec;
ghost use Rattle.gv_gotypes.specs.Assigning as assigning;
ghost use Rattle.gv_gotypes.specs.Trees.{Assign as AssignTree, expr_of, right_of};
ghost use Rattle.gv_gotyped.specs.First.{first_of};
ghost use Rattle.gv_gosimple.specs.Lefts.{AreExprs, AreSomeExprs};

use crate::declares::declare_all;
use crate::definitions::definition_fault;
use crate::given::given_at;
use crate::places::places_at;
use crate::rights::right_fault;
use crate::sides::{side_at, some_is_new};
use crate::targets::{first_start_at, targets_at};
use gv_base::NoMemory;
use gv_goscopes::Scopes;
use gv_gosyntax::generated::gosyntax_table::CLASS_DEFINE;
use gv_gosyntax::{Lexeme, Node};
use gv_gotyped::{Fault, earliest};
use std::alloc::Global;

fn is_define(sign: Lexeme) -> bool
    ensures { result ≡ (sign.class == CLASS_DEFINE) }
{
    sign.class == CLASS_DEFINE
}

// What left sides of `:=` have against one another.
fn beside_fault<N: Scopes>(
    names: &N,
    nodes: &[Node],
    places: &[usize],
    defines: bool,
) -> Option<Fault>
    requires formed { tree.IsFormed nodes.now }
    requires some { AreSomeExprs nodes.now places.now }
    ensures { (es : Seq AnyExpr) → AreExprs nodes.now places.now es
        → result ≡ first_of (if defines then assigning.nothing_new (N.env names.now) (map expr_of es) ++ assigning.again (N.env names.now) (map expr_of es) else []) }
{
    if defines {
        let fresh = some_is_new(names, nodes, places);
        definition_fault(names, nodes, places, fresh)
    } else {
        None
    }
}

// An assignment or a definition whose left sides stand at these places.
fn placed_fault<N: Scopes>(
    alloc: Global,
    names: &N,
    nodes: &[Node],
    places: &[usize],
    sign: Lexeme,
    right: usize,
) -> Result<Option<Fault>, NoMemory>
    requires formed { tree.IsFormed nodes.now }
    requires lefts { AreSomeExprs nodes.now places.now }
    requires right { IsSomeRight nodes.now right }
    ensures { (es : Seq AnyExpr) (r : AnyRight) → AreExprs nodes.now places.now es → tree.IsPartAt nodes.now right (PRight r)
        → IfOk result (λ first. first ≡ first_of (spec.simple_findings (N.env names.now) (AssignTree (map expr_of es) sign (right_of r)))) }
{
    let defines = is_define(sign);
    let side = side_at(names, nodes, places, defines);
    let targets = targets_at(alloc, names, nodes, places, side)?;
    let beside = beside_fault(names, nodes, places, defines);
    let statement = first_start_at(names, nodes, places);
    let given = right_fault(
        alloc,
        names,
        nodes,
        right,
        targets.wants.as_slice(),
        statement,
    )?;
    let own = earliest(targets.first, beside);
    Ok(earliest(own, given))
}

/// The fault that is told of an assignment or a definition.
pub(crate) fn assign_fault<N: Scopes>(
    alloc: Global,
    names: &N,
    nodes: &[Node],
    lefts: usize,
    sign: Lexeme,
    right: usize,
) -> Result<Option<Fault>, NoMemory>
    requires formed { tree.IsFormed nodes.now }
    requires lefts { IsSomeExprs nodes.now lefts }
    requires right { IsSomeRight nodes.now right }
    ensures { (es : Seq AnyExpr) (r : AnyRight) → tree.IsPartAt nodes.now lefts (PExprs es) → tree.IsPartAt nodes.now right (PRight r)
        → IfOk result (λ first. first ≡ first_of (spec.simple_findings (N.env names.now) (AssignTree (map expr_of es) sign (right_of r)))) }
{
    let places = places_at(alloc, nodes, lefts)?;
    placed_fault(alloc, names, nodes, places.as_slice(), sign, right)
}

// Declares the left sides at these places.
fn declare_placed<N: Scopes>(
    alloc: Global,
    names: &mut N,
    nodes: &[Node],
    places: &[usize],
    right: usize,
) -> Result<(), NoMemory>
    requires formed { tree.IsFormed nodes.now }
    requires lefts { AreSomeExprs nodes.now places.now }
    requires right { IsSomeRight nodes.now right }
    ensures env { OnOk result ((es : Seq AnyExpr) (r : AnyRight) → AreExprs nodes.now places.now es → tree.IsPartAt nodes.now right (PRight r)
        → N.env names.new ≡ assigning.declaring (N.env names.old) (map expr_of es) (assigning.given_types (N.env names.old) (map expr_of es) (right_of r))) }
    ensures outer { OnOk result (N.outer names.new ≡ N.outer names.old) }
{
    let kinds = given_at(alloc, names, nodes, right, places.len())?;
    declare_all(alloc, names, nodes, places, kinds.as_slice())?;
    Ok(())
}

/// Declares what an assignment or a definition declares.
pub(crate) fn declare_assigned<N: Scopes>(
    alloc: Global,
    names: &mut N,
    nodes: &[Node],
    lefts: usize,
    sign: Lexeme,
    right: usize,
) -> Result<(), NoMemory>
    requires formed { tree.IsFormed nodes.now }
    requires lefts { IsSomeExprs nodes.now lefts }
    requires right { IsSomeRight nodes.now right }
    ensures env { OnOk result ((es : Seq AnyExpr) (r : AnyRight) → tree.IsPartAt nodes.now lefts (PExprs es) → tree.IsPartAt nodes.now right (PRight r)
        → N.env names.new ≡ spec.simple_after (N.env names.old) (AssignTree (map expr_of es) sign (right_of r))) }
    ensures outer { OnOk result (N.outer names.new ≡ N.outer names.old) }
{
    if !is_define(sign) {
        return Ok(());
    }
    let places = places_at(alloc, nodes, lefts)?;
    declare_placed(alloc, names, nodes, places.as_slice(), right)?;
    Ok(())
}
