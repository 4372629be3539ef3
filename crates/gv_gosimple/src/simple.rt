//! Every simple statement.

ghost use Rattle.std.specs.Prelude.{◌≡◌, IfOk, OnOk};
ghost use Rattle.gv_gosyntax.specs.declared.generated.gosyntax_acts.Part.TheVariants.{Simple as PSimple};
ghost use Rattle.gv_gosyntax.specs.declared.tree.Simple.{Simple as AnySimple};
ghost use Rattle.gv_gosyntax.specs.Nodes as tree;
ghost use Rattle.gv_gonodes.specs.Simple.{IsSomeSimple};
ghost use Rattle.gv_gotypes.specs.Statements as spec;
ghost use Rattle.gv_gotypes.specs.Trees.{simple_of};
ghost use Rattle.gv_gotyped.specs.First.{first_of};

use crate::assigns::{assign_fault, declare_assigned};
use gv_base::NoMemory;
use gv_goassigns::{counted_at, update_at};
use gv_gocalls::answer_at;
use gv_gonodes::{SimpleNode, simple_node};
use gv_goscopes::Scopes;
use gv_gosyntax::Node;
use gv_gotyped::Fault;
use std::alloc::Global;

/// The fault that is told of the simple statement whose node is at a place, where these names are seen.
pub fn simple_fault<N: Scopes>(
    alloc: Global,
    names: &N,
    nodes: &[Node],
    at: usize,
) -> Result<Option<Fault>, NoMemory>
    requires formed { tree.IsFormed nodes.now }
    requires some { IsSomeSimple nodes.now at }
    ensures { (s : AnySimple) → tree.IsPartAt nodes.now at (PSimple s)
        → IfOk result (λ first. first ≡ first_of (spec.simple_findings (N.env names.now) (simple_of s))) }
{
    match simple_node(nodes, at) {
        SimpleNode::Assign { lefts, sign, right } => {
            assign_fault(alloc, names, nodes, lefts, sign, right)
        }
        SimpleNode::Count { name, sign: _ } => Ok(counted_at(names, nodes, name)),
        SimpleNode::Update { name, sign, value } => {
            Ok(update_at(names, nodes, name, sign, value))
        }
        SimpleNode::Do { done } => {
            let answer = answer_at(alloc, names, nodes, done)?;
            Ok(answer.first)
        }
    }
}

/// Declares the variables of the simple statement whose node is at a place, where it is a definition. After `NoMemory` some may be
/// declared and others not.
pub fn declare_simple<N: Scopes>(
    alloc: Global,
    names: &mut N,
    nodes: &[Node],
    at: usize,
) -> Result<(), NoMemory>
    requires formed { tree.IsFormed nodes.now }
    requires some { IsSomeSimple nodes.now at }
    ensures env { OnOk result ((s : AnySimple) → tree.IsPartAt nodes.now at (PSimple s) → N.env names.new ≡ spec.simple_after (N.env names.old) (simple_of s)) }
    ensures outer { OnOk result (N.outer names.new ≡ N.outer names.old) }
{
    match simple_node(nodes, at) {
        SimpleNode::Assign { lefts, sign, right } => {
            declare_assigned(alloc, names, nodes, lefts, sign, right)?;
            Ok(())
        }
        SimpleNode::Count { name: _, sign: _ } => Ok(()),
        SimpleNode::Update {
            name: _,
            sign: _,
            value: _,
        } => Ok(()),
        SimpleNode::Do { done: _ } => Ok(()),
    }
}
