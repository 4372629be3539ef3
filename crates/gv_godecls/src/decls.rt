//! The nodes of declarations.

ghost use Rattle.std.specs.Prelude.{List as Seq, IfOk};
ghost use Rattle.gv_gosyntax.specs.declared.generated.gosyntax_acts.Part.TheVariants.{Decls as PDecls};
ghost use Rattle.gv_gosyntax.specs.declared.tree.Decl.{Decl as AnyDecl};
ghost use Rattle.gv_gosyntax.specs.Nodes as tree;
ghost use Rattle.gv_gonodes.specs.Decls.{IsSomeDecls};
ghost use Rattle.gv_godecls.specs.Placed.{AreDecls};

use gv_base::NoMemory;
use gv_gonodes::{DeclsNode, decls_node};
use gv_gosyntax::Node;
use std::alloc::Global;

/// The places of the nodes of declarations, in order of text, where the node of all of them is at a place.
pub fn decls_at(alloc: Global, nodes: &[Node], at: usize) -> Result<Vec<usize>, NoMemory>
    requires formed { tree.IsFormed nodes.now }
    requires some { IsSomeDecls nodes.now at }
    ensures { IfOk result (λ places. (ds : Seq AnyDecl) → tree.IsPartAt nodes.now at (PDecls ds) → AreDecls nodes.now at places.items ds) }
{
    let mut places = Vec::new(alloc);
    let mut place = at;
    loop {
        match decls_node(nodes, place) {
            DeclsNode::NoDecls => break,
            DeclsNode::Decl { decls, decl } => {
                places.push(decl)?;
                place = decls;
            }
        }
    }
    places.reverse();
    Ok(places)
}
