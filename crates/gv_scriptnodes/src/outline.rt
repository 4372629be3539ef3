//! The outline of a script from its nodes.
#![tactic(auto, unfolding(gv_scriptsyntax::specs::Nodes::arity))]

ghost use Rattle.std.specs.Prelude.{◌≡◌, IfOk};
ghost use Rattle.gv_scriptsyntax.specs.declared.tree.Script.{Script as AnyScript};
ghost use Rattle.gv_scriptsyntax.specs.Nodes as tree;
ghost use Rattle.gv_scriptnames.specs.Outlines.{outline_of as outline};
ghost use Rattle.gv_scriptnodes.specs.Places.{IsSomeScript};

use crate::blocks::{body_of, ops_of, procs_of};
use crate::books::books_of;
use crate::mentions::mentions_of;
use crate::parts::{place_of, token_of};
use crate::preds::preds_of;
use gv_base::List;
use gv_scriptnames::Outline;
use gv_scriptsyntax::Node;
use gv_scriptsyntax::generated::script_table::ACT_SCRIPT;
use std::alloc::{AllocError, Global};

/// The outline of the script whose tree the nodes are, in time and room linear in their number.
pub fn outline_of(alloc: Global, text: &[u8], nodes: &[Node]) -> Result<Outline, AllocError>
    requires { IsSomeScript text.now nodes.now }
    ensures { IfOk result (λ found. (script : AnyScript) → tree.IsTreeOf text.now nodes.now script → found ≡ outline script) }
{
    let at = nodes.len() - 1;
    let books_at = place_of(text, nodes, at, ACT_SCRIPT, 14);
    let books = books_of(alloc, text, nodes, books_at)?;
    let preds_at = place_of(text, nodes, at, ACT_SCRIPT, 13);
    let preds = preds_of(alloc, text, nodes, preds_at)?;
    let crash = token_of(text, nodes, at, ACT_SCRIPT, 11);
    let root = token_of(text, nodes, at, ACT_SCRIPT, 8);
    let init_at = place_of(text, nodes, at, ACT_SCRIPT, 5);
    let init = mentions_of(alloc, text, nodes, init_at)?;
    let recover_at = place_of(text, nodes, at, ACT_SCRIPT, 3);
    let cuts_at = place_of(text, nodes, at, ACT_SCRIPT, 2);
    let recover = body_of(alloc, text, nodes, recover_at, cuts_at)?;
    let ops_at = place_of(text, nodes, at, ACT_SCRIPT, 1);
    let ops = ops_of(alloc, text, nodes, ops_at)?;
    let procs_at = place_of(text, nodes, at, ACT_SCRIPT, 0);
    let procs = procs_of(alloc, text, nodes, procs_at)?;
    Ok(Outline {
        books: List::from_vec(books),
        preds: List::from_vec(preds),
        crash,
        root,
        init: List::from_vec(init),
        recover,
        ops: List::from_vec(ops),
        procs: List::from_vec(procs),
    })
}
