//! Uses in lists of operands.

ghost use Rattle.std.specs.Prelude.{List as Seq, map, OnOk, IfOk};
ghost use Rattle.gv_gosyntax.specs.declared.generated.gosyntax_acts.Part.TheVariants.{Exprs as PExprs, Keyed as PKeyed};
ghost use Rattle.gv_gosyntax.specs.declared.tree.Expr.{Expr as AnyExpr};
ghost use Rattle.gv_gosyntax.specs.declared.tree.KeyedExpr.{KeyedExpr as AnyKeyed};
ghost use Rattle.gv_gosyntax.specs.Nodes as tree;
ghost use Rattle.gv_gonodes.specs.Exprs.{IsSomeExprs};
ghost use Rattle.gv_gonodes.specs.Keyed.{IsSomeKeyed};
ghost use Rattle.gv_gotypes.specs.Trees.{expr_of};
ghost use Rattle.gv_gosimple.specs.Lefts.{AreExprs, AreSomeExprs};
ghost use Rattle.gv_gouses.specs.Uses.{Adds};
ghost use Rattle.gv_gouses.specs.Parts.{operands_findings};

use crate::noted::Use;
use crate::operands::note_operand;
use gv_base::NoMemory;
use gv_gonodes::{KeyedNode, keyed_node};
use gv_gosimple::places_at;
use gv_gosyntax::Node;
use gv_gowalk::Names;
use std::alloc::Global;

// Adds the uses in the operands at these places.
fn note_placed<N: Names>(
    names: &N,
    uses: &mut Vec<Use>,
    nodes: &[Node],
    places: &[usize],
) -> Result<(), NoMemory>
    requires formed { tree.IsFormed nodes.now }
    requires some { AreSomeExprs nodes.now places.now }
    ensures { OnOk result ((es : Seq AnyExpr) → AreExprs nodes.now places.now es
        → Adds uses.old.items uses.new.items (operands_findings (N.env names.now) (map expr_of es))) }
{
    let mut left = places;
    while let [place, rest @ ..] = left {
        note_operand(names, uses, nodes, *place)?;
        left = rest;
    }
    Ok(())
}

/// Adds the uses in the operands whose node is at a place.
pub(crate) fn note_operands<N: Names>(
    alloc: Global,
    names: &N,
    uses: &mut Vec<Use>,
    nodes: &[Node],
    at: usize,
) -> Result<(), NoMemory>
    requires formed { tree.IsFormed nodes.now }
    requires some { IsSomeExprs nodes.now at }
    ensures { OnOk result ((es : Seq AnyExpr) → tree.IsPartAt nodes.now at (PExprs es)
        → Adds uses.old.items uses.new.items (operands_findings (N.env names.now) (map expr_of es))) }
{
    let places = places_at(alloc, nodes, at)?;
    note_placed(names, uses, nodes, places.as_slice())
}

// Where the values of a literal stand, in order of text.
fn values_at(alloc: Global, nodes: &[Node], at: usize) -> Result<Vec<usize>, NoMemory>
    requires formed { tree.IsFormed nodes.now }
    requires some { IsSomeKeyed nodes.now at }
    ensures { IfOk result (λ places. (ks : Seq AnyKeyed) → tree.IsPartAt nodes.now at (PKeyed ks) → AreExprs nodes.now places.items (map (λ k. k.value) ks)) }
{
    let mut places = Vec::new(alloc);
    let mut place = at;
    loop {
        match keyed_node(nodes, place) {
            KeyedNode::NoKeyed => {
                places.reverse();
                return Ok(places);
            }
            KeyedNode::Keyed {
                fields,
                key: _,
                value,
            } => {
                places.push(value)?;
                place = fields;
            }
            KeyedNode::PastKeyed { fields } => place = fields,
        }
    }
}

/// Adds the uses in the values of a literal, whose node is at a place.
pub(crate) fn note_values<N: Names>(
    alloc: Global,
    names: &N,
    uses: &mut Vec<Use>,
    nodes: &[Node],
    at: usize,
) -> Result<(), NoMemory>
    requires formed { tree.IsFormed nodes.now }
    requires some { IsSomeKeyed nodes.now at }
    ensures { OnOk result ((ks : Seq AnyKeyed) → tree.IsPartAt nodes.now at (PKeyed ks)
        → Adds uses.old.items uses.new.items (operands_findings (N.env names.now) (map expr_of (map (λ k. k.value) ks)))) }
{
    let places = values_at(alloc, nodes, at)?;
    note_placed(names, uses, nodes, places.as_slice())
}
