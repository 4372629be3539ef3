//! Blocks with their cuts.
#![tactic(auto, unfolding(gv_scriptsyntax::specs::Nodes::arity))]

ghost use Rattle.std.specs.Prelude.{◌≡◌, ℕ, ◌<◌, List as Seq, length, map, option_map, IfOk, Option as Maybe};
ghost use Rattle.gv_termread.specs.declared.generated.term_acts.Part.TheVariants.{Other as POther};
ghost use Rattle.gv_scriptsyntax.specs.declared.generated.script_acts.ScriptPart.TheVariants.{Block as PBlock, Cuts as PCuts, MaybeInst as PMaybeInst, Ops as POps, Procs as PProcs};
ghost use Rattle.gv_scriptsyntax.specs.declared.tree.Block.{Block as AnyBlock};
ghost use Rattle.gv_scriptsyntax.specs.declared.tree.Cut.{Cut as AnyCut};
ghost use Rattle.gv_scriptsyntax.specs.declared.tree.Inst.{Inst as AnyInst};
ghost use Rattle.gv_scriptsyntax.specs.declared.tree.Op.{Op as AnyOp};
ghost use Rattle.gv_scriptsyntax.specs.declared.tree.Proc.{Proc as AnyProc};
ghost use Rattle.gv_scriptnames.specs.Mentions.{of_inst};
ghost use Rattle.gv_scriptsyntax.specs.Nodes as tree;
ghost use Rattle.gv_scriptnames.specs.Outlines.{of_body, of_cut, of_op, of_proc};
ghost use Rattle.gv_scriptnodes.specs.Lasts.{IsEnd};
ghost use Rattle.gv_scriptnodes.specs.Places.{act_at};

use crate::mentions::mentions_of;
use crate::names::{names_of, pars_of};
use crate::parts::{act_of, place_of, token_of};
use gv_base::List;
use gv_scriptnames::{BodyOutline, CutOutline, Mention, OpOutline, ProcOutline};
use gv_scriptsyntax::Node;
use gv_scriptsyntax::generated::script_table::{ACT_CUT, ACT_OP, ACT_PROC};
use std::alloc::{AllocError, Global};

// The last one of a list of cuts that isn't empty.
fn cut_at(alloc: Global, text: &[u8], nodes: &[Node], at: usize) -> Result<CutOutline, AllocError>
    requires formed { tree.IsFormed text.now nodes.now }
    requires within { at < length nodes.now }
    requires made { act_at nodes.now at ≡ ACT_CUT }
    ensures { IfOk result (λ cut. (whole : Seq AnyCut) → tree.IsPartAt text.now nodes.now at (POther (PCuts whole))
        → IsEnd (λ place cuts. tree.IsPartAt text.now nodes.now place (POther (PCuts cuts))) of_cut text.now nodes.now at 11 cut whole) }
{
    let name = token_of(text, nodes, at, ACT_CUT, 9);
    let number = token_of(text, nodes, at, ACT_CUT, 7);
    let locals_at = place_of(text, nodes, at, ACT_CUT, 4);
    let locals = names_of(alloc, text, nodes, locals_at)?;
    let vars_at = place_of(text, nodes, at, ACT_CUT, 2);
    let vars = pars_of(alloc, text, nodes, vars_at)?;
    let items_at = place_of(text, nodes, at, ACT_CUT, 1);
    let items = mentions_of(alloc, text, nodes, items_at)?;
    let block_at = place_of(text, nodes, at, ACT_CUT, 0);
    let block = mentions_of(alloc, text, nodes, block_at)?;
    Ok(CutOutline {
        name,
        number,
        locals: List::from_vec(locals),
        vars: List::from_vec(vars),
        items: List::from_vec(items),
        block: List::from_vec(block),
    })
}

/// The cuts of a list as outlines, in order.
pub fn cuts_of(
    alloc: Global,
    text: &[u8],
    nodes: &[Node],
    at: usize,
) -> Result<Vec<CutOutline>, AllocError>
    requires formed { tree.IsFormed text.now nodes.now }
    requires within { at < length nodes.now }
    ensures { IfOk result (λ cuts. (whole : Seq AnyCut) → tree.IsPartAt text.now nodes.now at (POther (PCuts whole)) → cuts.items ≡ map of_cut whole) }
{
    let mut cuts = Vec::new(alloc);
    let mut place = at;
    while act_of(nodes, place) == ACT_CUT {
        let cut = cut_at(alloc, text, nodes, place)?;
        cuts.push(cut)?;
        place = place_of(text, nodes, place, ACT_CUT, 11);
    }
    cuts.reverse();
    Ok(cuts)
}

/// A block and the list of its cuts, at their places, as an outline.
pub fn body_of(
    alloc: Global,
    text: &[u8],
    nodes: &[Node],
    block_at: usize,
    cuts_at: usize,
) -> Result<BodyOutline, AllocError>
    requires formed { tree.IsFormed text.now nodes.now }
    requires block { block_at < length nodes.now }
    requires cuts { cuts_at < length nodes.now }
    ensures { IfOk result (λ body. (block : AnyBlock) (cuts : Seq AnyCut) → tree.IsPartAt text.now nodes.now block_at (POther (PBlock block))
        → tree.IsPartAt text.now nodes.now cuts_at (POther (PCuts cuts)) → body ≡ of_body block cuts) }
{
    let block = mentions_of(alloc, text, nodes, block_at)?;
    let cuts = cuts_of(alloc, text, nodes, cuts_at)?;
    Ok(BodyOutline {
        block: List::from_vec(block),
        cuts: List::from_vec(cuts),
    })
}

// The own instance of a procedure, where it has one.
fn own_of(
    alloc: Global,
    text: &[u8],
    nodes: &[Node],
    at: usize,
) -> Result<Option<Mention>, AllocError>
    requires formed { tree.IsFormed text.now nodes.now }
    requires within { at < length nodes.now }
    ensures { IfOk result (λ found. (own : Maybe AnyInst) → tree.IsPartAt text.now nodes.now at (POther (PMaybeInst own)) → found ≡ option_map of_inst own) }
{
    let mentions = mentions_of(alloc, text, nodes, at)?;
    Ok(mentions.first().copied())
}

// The last one of a list of ops that isn't empty.
fn op_at(alloc: Global, text: &[u8], nodes: &[Node], at: usize) -> Result<OpOutline, AllocError>
    requires formed { tree.IsFormed text.now nodes.now }
    requires within { at < length nodes.now }
    requires made { act_at nodes.now at ≡ ACT_OP }
    ensures { IfOk result (λ op. (whole : Seq AnyOp) → tree.IsPartAt text.now nodes.now at (POther (POps whole))
        → IsEnd (λ place ops. tree.IsPartAt text.now nodes.now place (POther (POps ops))) of_op text.now nodes.now at 4 op whole) }
{
    let name = token_of(text, nodes, at, ACT_OP, 2);
    let block_at = place_of(text, nodes, at, ACT_OP, 1);
    let cuts_at = place_of(text, nodes, at, ACT_OP, 0);
    let body = body_of(alloc, text, nodes, block_at, cuts_at)?;
    Ok(OpOutline { name, body })
}

/// The ops of a list as outlines, in order.
pub fn ops_of(
    alloc: Global,
    text: &[u8],
    nodes: &[Node],
    at: usize,
) -> Result<Vec<OpOutline>, AllocError>
    requires formed { tree.IsFormed text.now nodes.now }
    requires within { at < length nodes.now }
    ensures { IfOk result (λ ops. (whole : Seq AnyOp) → tree.IsPartAt text.now nodes.now at (POther (POps whole)) → ops.items ≡ map of_op whole) }
{
    let mut ops = Vec::new(alloc);
    let mut place = at;
    while act_of(nodes, place) == ACT_OP {
        let op = op_at(alloc, text, nodes, place)?;
        ops.push(op)?;
        place = place_of(text, nodes, place, ACT_OP, 4);
    }
    ops.reverse();
    Ok(ops)
}

// The last one of a list of procs that isn't empty.
fn proc_at(alloc: Global, text: &[u8], nodes: &[Node], at: usize) -> Result<ProcOutline, AllocError>
    requires formed { tree.IsFormed text.now nodes.now }
    requires within { at < length nodes.now }
    requires made { act_at nodes.now at ≡ ACT_PROC }
    ensures { IfOk result (λ proc. (whole : Seq AnyProc) → tree.IsPartAt text.now nodes.now at (POther (PProcs whole))
        → IsEnd (λ place procs. tree.IsPartAt text.now nodes.now place (POther (PProcs procs))) of_proc text.now nodes.now at 12 proc whole) }
{
    let name = token_of(text, nodes, at, ACT_PROC, 10);
    let own_at = place_of(text, nodes, at, ACT_PROC, 9);
    let own = own_of(alloc, text, nodes, own_at)?;
    let vars_at = place_of(text, nodes, at, ACT_PROC, 7);
    let vars = pars_of(alloc, text, nodes, vars_at)?;
    let pre_at = place_of(text, nodes, at, ACT_PROC, 5);
    let pre = mentions_of(alloc, text, nodes, pre_at)?;
    let results_at = place_of(text, nodes, at, ACT_PROC, 3);
    let results = names_of(alloc, text, nodes, results_at)?;
    let post_at = place_of(text, nodes, at, ACT_PROC, 2);
    let post = mentions_of(alloc, text, nodes, post_at)?;
    let block_at = place_of(text, nodes, at, ACT_PROC, 1);
    let cuts_at = place_of(text, nodes, at, ACT_PROC, 0);
    let body = body_of(alloc, text, nodes, block_at, cuts_at)?;
    Ok(ProcOutline {
        name,
        own,
        vars: List::from_vec(vars),
        results: List::from_vec(results),
        pre: List::from_vec(pre),
        post: List::from_vec(post),
        body,
    })
}

/// The procs of a list as outlines, in order.
pub fn procs_of(
    alloc: Global,
    text: &[u8],
    nodes: &[Node],
    at: usize,
) -> Result<Vec<ProcOutline>, AllocError>
    requires formed { tree.IsFormed text.now nodes.now }
    requires within { at < length nodes.now }
    ensures { IfOk result (λ procs. (whole : Seq AnyProc) → tree.IsPartAt text.now nodes.now at (POther (PProcs whole)) → procs.items ≡ map of_proc whole) }
{
    let mut procs = Vec::new(alloc);
    let mut place = at;
    while act_of(nodes, place) == ACT_PROC {
        let proc = proc_at(alloc, text, nodes, place)?;
        procs.push(proc)?;
        place = place_of(text, nodes, place, ACT_PROC, 12);
    }
    procs.reverse();
    Ok(procs)
}
