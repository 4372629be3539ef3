//! Where the operands of a list stand.

ghost use Rattle.std.specs.Prelude.{List as Seq, IfOk};
ghost use Rattle.gv_gosyntax.specs.declared.generated.gosyntax_acts.Part.TheVariants.{Exprs as PExprs};
ghost use Rattle.gv_gosyntax.specs.declared.tree.Expr.{Expr as AnyExpr};
ghost use Rattle.gv_gosyntax.specs.Nodes as tree;
ghost use Rattle.gv_gonodes.specs.Exprs.{IsSomeExprs};
ghost use Rattle.gv_gosimple.specs.Lefts.{AreExprs};

use gv_base::NoMemory;
use gv_gonodes::{ExprsNode, exprs_node};
use gv_gosyntax::Node;
use std::alloc::Global;

/// The places of the nodes of operands, in order of text, where the node of all of them is at a place.
pub fn places_at(alloc: Global, nodes: &[Node], at: usize) -> Result<Vec<usize>, NoMemory>
    requires formed { tree.IsFormed nodes.now }
    requires some { IsSomeExprs nodes.now at }
    ensures { IfOk result (λ places. (es : Seq AnyExpr) → tree.IsPartAt nodes.now at (PExprs es) → AreExprs nodes.now places.items es) }
{
    let mut places = Vec::new(alloc);
    let mut place = at;
    loop {
        match exprs_node(nodes, place) {
            ExprsNode::NoExprs => {
                places.reverse();
                return Ok(places);
            }
            ExprsNode::Expr { exprs, last } => {
                places.push(last)?;
                place = exprs;
            }
            ExprsNode::PastExprs { exprs } => place = exprs,
            ExprsNode::Left { left } => {
                places.push(left)?;
                places.reverse();
                return Ok(places);
            }
        }
    }
}
