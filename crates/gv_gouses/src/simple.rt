//! Uses in simple statements, and what they assign.

ghost use Rattle.std.specs.Prelude.{List as Seq, map, OnOk};
ghost use Rattle.gv_gosyntax.specs.declared.generated.gosyntax_acts.Part.TheVariants.{Exprs as PExprs, Right as PRight, Simple as PSimple};
ghost use Rattle.gv_gosyntax.specs.declared.tree.Expr.{Expr as AnyExpr};
ghost use Rattle.gv_gosyntax.specs.declared.tree.Right.{Right as AnyRight};
ghost use Rattle.gv_gosyntax.specs.declared.tree.Simple.{Simple as AnySimple};
ghost use Rattle.gv_gosyntax.specs.Nodes as tree;
ghost use Rattle.gv_gonodes.specs.Exprs.{IsSomeExprs};
ghost use Rattle.gv_gonodes.specs.Right.{IsSomeRight};
ghost use Rattle.gv_gonodes.specs.Simple.{IsSomeSimple};
ghost use Rattle.gv_gotypes.specs.Statements as spec;
ghost use Rattle.gv_gotypes.specs.Trees.{Assign as AssignTree, expr_of, right_of, simple_of};
ghost use Rattle.gv_gosimple.specs.Lefts.{AreExprs, AreSomeExprs};
ghost use Rattle.gv_gouses.specs.Uses.{Adds};

use crate::calls::{note_call, note_right};
use crate::noted::Use;
use crate::operands::note_operand;
use crate::sides::{note_side, note_sides};
use gv_base::NoMemory;
use gv_gonodes::{SimpleNode, simple_node};
use gv_goscopes::Scopes;
use gv_gosimple::{Side, places_at, side_at};
use gv_gosyntax::generated::gosyntax_table::CLASS_DEFINE;
use gv_gosyntax::{Lexeme, Node};
use std::alloc::Global;

// Adds the uses in an assignment or a definition whose left sides stand at these places: those on the left before those on the right.
fn note_placed<N: Scopes>(
    alloc: Global,
    names: &N,
    uses: &mut Vec<Use>,
    nodes: &[Node],
    places: &[usize],
    sign: Lexeme,
    right: usize,
) -> Result<(), NoMemory>
    requires formed { tree.IsFormed nodes.now }
    requires lefts { AreSomeExprs nodes.now places.now }
    requires right { IsSomeRight nodes.now right }
    ensures { OnOk result ((es : Seq AnyExpr) (r : AnyRight) → AreExprs nodes.now places.now es → tree.IsPartAt nodes.now right (PRight r)
        → Adds uses.old.items uses.new.items (spec.simple_findings (N.env names.now) (AssignTree (map expr_of es) sign (right_of r)))) }
{
    let side = side_at(names, nodes, places, sign.class == CLASS_DEFINE);
    note_sides(names, uses, nodes, places, side)?;
    note_right(alloc, names, uses, nodes, right)
}

// Adds the uses in an assignment or a definition.
fn note_assign<N: Scopes>(
    alloc: Global,
    names: &N,
    uses: &mut Vec<Use>,
    nodes: &[Node],
    lefts: usize,
    sign: Lexeme,
    right: usize,
) -> Result<(), NoMemory>
    requires formed { tree.IsFormed nodes.now }
    requires lefts { IsSomeExprs nodes.now lefts }
    requires right { IsSomeRight nodes.now right }
    ensures { OnOk result ((es : Seq AnyExpr) (r : AnyRight) → tree.IsPartAt nodes.now lefts (PExprs es) → tree.IsPartAt nodes.now right (PRight r)
        → Adds uses.old.items uses.new.items (spec.simple_findings (N.env names.now) (AssignTree (map expr_of es) sign (right_of r)))) }
{
    let places = places_at(alloc, nodes, lefts)?;
    note_placed(alloc, names, uses, nodes, places.as_slice(), sign, right)
}

/// Adds the uses in the simple statement whose node is at a place, and what it assigns.
pub fn note_simple<N: Scopes>(
    alloc: Global,
    names: &N,
    uses: &mut Vec<Use>,
    nodes: &[Node],
    at: usize,
) -> Result<(), NoMemory>
    requires formed { tree.IsFormed nodes.now }
    requires some { IsSomeSimple nodes.now at }
    ensures { OnOk result ((s : AnySimple) → tree.IsPartAt nodes.now at (PSimple s)
        → Adds uses.old.items uses.new.items (spec.simple_findings (N.env names.now) (simple_of s))) }
{
    match simple_node(nodes, at) {
        SimpleNode::Assign { lefts, sign, right } => {
            note_assign(alloc, names, uses, nodes, lefts, sign, right)
        }
        SimpleNode::Count { name, sign: _ } => note_side(names, uses, nodes, name, Side::Lone),
        SimpleNode::Update {
            name,
            sign: _,
            value,
        } => {
            note_side(names, uses, nodes, name, Side::Lone)?;
            note_operand(names, uses, nodes, value)
        }
        SimpleNode::Do { done } => note_call(alloc, names, uses, nodes, done),
    }
}
