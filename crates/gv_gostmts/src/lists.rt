//! Where statements and right sides stand.

ghost use Rattle.std.specs.Prelude.{List as Seq, IfOk};
ghost use Rattle.gv_gosyntax.specs.declared.generated.gosyntax_acts.Part.TheVariants.{Rights as PRights, Stmts as PStmts};
ghost use Rattle.gv_gosyntax.specs.declared.tree.Right.{Right as AnyRight};
ghost use Rattle.gv_gosyntax.specs.declared.tree.Stmt.{Stmt as AnyStmt};
ghost use Rattle.gv_gosyntax.specs.Nodes as tree;
ghost use Rattle.gv_gonodes.specs.Rights.{IsSomeRights};
ghost use Rattle.gv_gonodes.specs.Stmts.{IsSomeStmts};
ghost use Rattle.gv_gostmts.specs.Lists.{AreRights, AreWithin};

use gv_base::NoMemory;
use gv_gonodes::{RightsNode, StmtsNode, rights_node, stmts_node};
use gv_gosyntax::Node;
use std::alloc::Global;

/// The places of the nodes of statements that aren't empty, in order of text, where the node of all of them is at a place.
pub fn statements_at(alloc: Global, nodes: &[Node], at: usize) -> Result<Vec<usize>, NoMemory>
    requires formed { tree.IsFormed nodes.now }
    requires some { IsSomeStmts nodes.now at }
    ensures { IfOk result (λ places. (ss : Seq AnyStmt) → tree.IsPartAt nodes.now at (PStmts ss) → AreWithin nodes.now at places.items ss) }
{
    let mut places = Vec::new(alloc);
    let mut place = at;
    loop {
        match stmts_node(nodes, place) {
            StmtsNode::NoStmts => {
                places.reverse();
                return Ok(places);
            }
            StmtsNode::Stmt { stmts, stmt } => {
                places.push(stmt)?;
                place = stmts;
            }
            StmtsNode::Empty { stmts } => place = stmts,
            StmtsNode::PastStmts { stmts } => place = stmts,
        }
    }
}

/// The places of the nodes of right sides, in order of text, where the node of all of them is at a place.
pub fn rights_at(alloc: Global, nodes: &[Node], at: usize) -> Result<Vec<usize>, NoMemory>
    requires formed { tree.IsFormed nodes.now }
    requires some { IsSomeRights nodes.now at }
    ensures { IfOk result (λ places. (rs : Seq AnyRight) → tree.IsPartAt nodes.now at (PRights rs) → AreRights nodes.now places.items rs) }
{
    let mut places = Vec::new(alloc);
    let mut place = at;
    loop {
        match rights_node(nodes, place) {
            RightsNode::NoRights => {
                places.reverse();
                return Ok(places);
            }
            RightsNode::Right { rights, last } => {
                places.push(last)?;
                place = rights;
            }
            RightsNode::PastRights { rights } => place = rights,
        }
    }
}
