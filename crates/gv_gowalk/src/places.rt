//! Operands in their places.

ghost use Rattle.std.specs.Prelude.{◌≡◌};
ghost use Rattle.gv_gosyntax.specs.declared.generated.gosyntax_acts.Part.TheVariants.{Expr as PExpr};
ghost use Rattle.gv_gosyntax.specs.declared.tree.Expr.{Expr as AnyExpr};
ghost use Rattle.gv_gosyntax.specs.Nodes as tree;
ghost use Rattle.gv_gonodes.specs.Expr.{IsSomeExpr};
ghost use Rattle.gv_gotypes.specs.Calls.{placed};
ghost use Rattle.gv_gotypes.specs.Trees.{expr_of};
ghost use Rattle.gv_gotyped.specs.First.{first_of};

use crate::names::Names;
use crate::operands::operand_at;
use gv_gosyntax::Node;
use gv_gotyped::{Fault, earliest, in_place};
use gv_operands::Want;

/// The fault that is told of an operand in a place that wants this.
pub fn placed_at<N: Names>(names: &N, nodes: &[Node], at: usize, want: Want) -> Option<Fault>
    requires formed { tree.IsFormed nodes.now }
    requires some { IsSomeExpr nodes.now at }
    ensures { (e : AnyExpr) → tree.IsPartAt nodes.now at (PExpr e) → result ≡ first_of (placed (N.env names.now) want (expr_of e)) }
{
    let known = operand_at(names, nodes, at);
    let misfit = in_place(known.part, want);
    earliest(known.first, misfit)
}
