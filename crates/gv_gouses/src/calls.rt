//! Uses in calls and right sides.

ghost use Rattle.std.specs.Prelude.{OnOk};
ghost use Rattle.gv_gosyntax.specs.declared.generated.gosyntax_acts.Part.TheVariants.{Call as PCall, Expr as PExpr, Right as PRight};
ghost use Rattle.gv_gosyntax.specs.declared.tree.Call.{Call as AnyCall};
ghost use Rattle.gv_gosyntax.specs.declared.tree.Expr.{Expr as AnyExpr};
ghost use Rattle.gv_gosyntax.specs.declared.tree.Right.{Right as AnyRight};
ghost use Rattle.gv_gosyntax.specs.Nodes as tree;
ghost use Rattle.gv_gonodes.specs.Call.{IsSomeCall};
ghost use Rattle.gv_gonodes.specs.Expr.{IsSomeExpr};
ghost use Rattle.gv_gonodes.specs.Right.{IsSomeRight};
ghost use Rattle.gv_gotypes.specs.Calls as spec;
ghost use Rattle.gv_gotypes.specs.Trees.{call_of, expr_of, right_of};
ghost use Rattle.gv_gouses.specs.Uses.{Adds};
ghost use Rattle.gv_gouses.specs.Parts.{right_findings};

use crate::lists::{note_operands, note_values};
use crate::noted::Use;
use crate::operands::note_operand;
use gv_base::NoMemory;
use gv_gocalls::{Form, form_at};
use gv_gonodes::{CallNode, RightNode, call_node, right_node};
use gv_gosyntax::Node;
use gv_gowalk::Names;
use std::alloc::Global;

// Adds the uses in what is called: a function's name is none.
fn note_callee<N: Names>(
    names: &N,
    uses: &mut Vec<Use>,
    nodes: &[Node],
    at: usize,
) -> Result<(), NoMemory>
    requires formed { tree.IsFormed nodes.now }
    requires some { IsSomeExpr nodes.now at }
    ensures { OnOk result ((e : AnyExpr) → tree.IsPartAt nodes.now at (PExpr e)
        → Adds uses.old.items uses.new.items (spec.callee (N.env names.now) (expr_of e)).findings) }
{
    match form_at(nodes, at) {
        Form::Member(inner, _) => note_operand(names, uses, nodes, inner),
        Form::Name(_) => Ok(()),
        Form::Item(_, _) => Ok(()),
        Form::Other => Ok(()),
    }
}

/// Adds the uses in the call whose node is at a place. It takes memory for the places of arguments too.
pub fn note_call<N: Names>(
    alloc: Global,
    names: &N,
    uses: &mut Vec<Use>,
    nodes: &[Node],
    at: usize,
) -> Result<(), NoMemory>
    requires formed { tree.IsFormed nodes.now }
    requires some { IsSomeCall nodes.now at }
    ensures { OnOk result ((c : AnyCall) → tree.IsPartAt nodes.now at (PCall c)
        → Adds uses.old.items uses.new.items (spec.answer (N.env names.now) (call_of c)).findings) }
{
    match call_node(nodes, at) {
        CallNode::Call {
            function,
            arguments,
        } => {
            note_callee(names, uses, nodes, function)?;
            note_operands(alloc, names, uses, nodes, arguments)
        }
        CallNode::Pair {
            word: _,
            first,
            second,
        } => {
            note_operand(names, uses, nodes, first)?;
            note_operand(names, uses, nodes, second)
        }
        CallNode::Make { word: _, kind: _ } => Ok(()),
        CallNode::MakeLength {
            word: _,
            kind: _,
            length,
        } => note_operand(names, uses, nodes, length),
        CallNode::New { word: _ } => Ok(()),
        CallNode::Literal {
            start: _,
            name: _,
            fields,
        } => note_values(alloc, names, uses, nodes, fields),
    }
}

/// Adds the uses in the right side whose node is at a place, whatever its place wants.
pub fn note_right<N: Names>(
    alloc: Global,
    names: &N,
    uses: &mut Vec<Use>,
    nodes: &[Node],
    at: usize,
) -> Result<(), NoMemory>
    requires formed { tree.IsFormed nodes.now }
    requires some { IsSomeRight nodes.now at }
    ensures { OnOk result ((r : AnyRight) → tree.IsPartAt nodes.now at (PRight r)
        → Adds uses.old.items uses.new.items (right_findings (N.env names.now) (right_of r))) }
{
    match right_node(nodes, at) {
        RightNode::Value { value } => note_operand(names, uses, nodes, value),
        RightNode::Result { result } => note_call(alloc, names, uses, nodes, result),
    }
}
