//! Uses in left sides, and what they assign.

ghost use Rattle.std.specs.Prelude.{◌≡◌, List as Seq, map, Some, OnOk};
ghost use Rattle.gv_gosyntax.specs.declared.generated.gosyntax_acts.Part.TheVariants.{Expr as PExpr};
ghost use Rattle.gv_gosyntax.specs.declared.tree.Expr.{Expr as AnyExpr};
ghost use Rattle.gv_gosyntax.specs.Nodes as tree;
ghost use Rattle.gv_gonodes.specs.Expr.{IsSomeExpr};
ghost use Rattle.gv_gotypes.specs.Assigning as spec;
ghost use Rattle.gv_gotypes.specs.Trees.{Name as NameTree, expr_of};
ghost use Rattle.gv_gosimple.specs.Lefts.{AreExprs, AreSomeExprs, by_side};
ghost use Rattle.gv_gouses.specs.Uses.{Adds};

use crate::noted::Use;
use crate::operands::{note, note_found, note_operand};
use gv_base::NoMemory;
use gv_goassigns::is_old_at;
use gv_gocalls::{Form, form_at};
use gv_goscopes::Scopes;
use gv_gosimple::Side;
use gv_gosyntax::{Lexeme, Node};
use gv_gotypes::{Entity, Found};

// Adds that a variable is assigned, and its use where it is an outer one.
fn note_variable(uses: &mut Vec<Use>, at: u32, found: Found) -> Result<(), NoMemory>
    ensures { OnOk result (Adds uses.old.items uses.new.items (spec.entity_target at (Some found)).findings) }
{
    match found.entity {
        Entity::Variable(declared, _) => {
            note(uses, Use::Assigned(declared))?;
            note_found(uses, at, found)
        }
        _ => Ok(()),
    }
}

/// Adds that what a name stands for is assigned, where that is a variable.
pub(crate) fn note_assigned<N: Scopes>(
    names: &N,
    uses: &mut Vec<Use>,
    name: Lexeme,
) -> Result<(), NoMemory>
    ensures { OnOk result (Adds uses.old.items uses.new.items (spec.name_target (N.env names.now) name).findings) }
{
    match names.found(name) {
        Some(found) => note_variable(uses, name.start, found),
        None => Ok(()),
    }
}

// Adds what stands so on the left and is a name: left of `:=` it is assigned only where it is declared here already and another one is
// new.
fn note_named<N: Scopes>(
    names: &N,
    uses: &mut Vec<Use>,
    nodes: &[Node],
    at: usize,
    name: Lexeme,
    side: Side,
) -> Result<(), NoMemory>
    requires formed { tree.IsFormed nodes.now }
    requires some { IsSomeExpr nodes.now at }
    ensures { OnOk result ((e : AnyExpr) → tree.IsPartAt nodes.now at (PExpr e) → expr_of e ≡ NameTree name
        → Adds uses.old.items uses.new.items (by_side (N.env names.now) side (NameTree name)).findings) }
{
    match side {
        Side::Lone => note_assigned(names, uses, name),
        Side::Beside => note_assigned(names, uses, name),
        Side::Defined(fresh) => {
            if fresh && is_old_at(names, nodes, at) {
                note_assigned(names, uses, name)
            } else {
                Ok(())
            }
        }
    }
}

/// Adds the uses in the left side whose node is at a place, and what it assigns, where it stands so.
pub(crate) fn note_side<N: Scopes>(
    names: &N,
    uses: &mut Vec<Use>,
    nodes: &[Node],
    at: usize,
    side: Side,
) -> Result<(), NoMemory>
    requires formed { tree.IsFormed nodes.now }
    requires some { IsSomeExpr nodes.now at }
    ensures { OnOk result ((e : AnyExpr) → tree.IsPartAt nodes.now at (PExpr e)
        → Adds uses.old.items uses.new.items (by_side (N.env names.now) side (expr_of e)).findings) }
{
    match form_at(nodes, at) {
        Form::Name(name) => note_named(names, uses, nodes, at, name, side),
        Form::Member(inner, _) => note_operand(names, uses, nodes, inner),
        Form::Item(inner, index) => {
            note_operand(names, uses, nodes, inner)?;
            note_operand(names, uses, nodes, index)
        }
        Form::Other => Ok(()),
    }
}

/// The same in the left sides at these places.
pub(crate) fn note_sides<N: Scopes>(
    names: &N,
    uses: &mut Vec<Use>,
    nodes: &[Node],
    places: &[usize],
    side: Side,
) -> Result<(), NoMemory>
    requires formed { tree.IsFormed nodes.now }
    requires some { AreSomeExprs nodes.now places.now }
    ensures { OnOk result ((es : Seq AnyExpr) → AreExprs nodes.now places.now es
        → Adds uses.old.items uses.new.items (spec.target_findings (spec.targets_by (by_side (N.env names.now) side) (map expr_of es)))) }
{
    let mut left = places;
    while let [place, rest @ ..] = left {
        note_side(names, uses, nodes, *place, side)?;
        left = rest;
    }
    Ok(())
}
