//! Predicates.
#![tactic(auto, unfolding(gv_scriptsyntax::specs::Nodes::arity))]

ghost use Rattle.std.specs.Prelude.{◌≡◌, ℕ, ◌<◌, List as Seq, length, map, IfOk};
ghost use Rattle.gv_termread.specs.declared.generated.term_acts.Part.TheVariants.{Other as POther};
ghost use Rattle.gv_scriptsyntax.specs.declared.generated.script_acts.ScriptPart.TheVariants.{Case as PCase, Cases as PCases, Preds as PPreds};
ghost use Rattle.gv_scriptsyntax.specs.declared.tree.Case.{Case as AnyCase};
ghost use Rattle.gv_scriptsyntax.specs.declared.tree.Pred.{Pred as AnyPred};
ghost use Rattle.gv_scriptsyntax.specs.Nodes as tree;
ghost use Rattle.gv_scriptnames.specs.Outlines.{of_case, of_pred};
ghost use Rattle.gv_scriptnodes.specs.Lasts.{IsEnd};
ghost use Rattle.gv_scriptnodes.specs.Places.{act_at};

use crate::mentions::mentions_of;
use crate::names::pars_of;
use crate::parts::{act_of, place_of, token_of};
use gv_base::List;
use gv_scriptnames::{CaseOutline, PredOutline};
use gv_scriptsyntax::Node;
use gv_scriptsyntax::generated::script_table::{ACT_CASE, ACT_NEXT_CASE, ACT_PRED};
use std::alloc::{AllocError, Global};

// A case as an outline; a node that is none has the empty one.
fn case_of(alloc: Global, text: &[u8], nodes: &[Node], at: usize) -> Result<CaseOutline, AllocError>
    requires formed { tree.IsFormed text.now nodes.now }
    requires within { at < length nodes.now }
    ensures { IfOk result (λ found. (case : AnyCase) → tree.IsPartAt text.now nodes.now at (POther (PCase case)) → found ≡ of_case case) }
{
    if act_of(nodes, at) != ACT_CASE {
        return Ok(CaseOutline {
            vars: List::new(alloc),
            items: List::new(alloc),
        });
    }
    let vars_at = place_of(text, nodes, at, ACT_CASE, 1);
    let vars = pars_of(alloc, text, nodes, vars_at)?;
    let items_at = place_of(text, nodes, at, ACT_CASE, 0);
    let items = mentions_of(alloc, text, nodes, items_at)?;
    Ok(CaseOutline {
        vars: List::from_vec(vars),
        items: List::from_vec(items),
    })
}

/// The cases of a predicate as outlines, in order.
pub fn cases_of(
    alloc: Global,
    text: &[u8],
    nodes: &[Node],
    at: usize,
) -> Result<Vec<CaseOutline>, AllocError>
    requires formed { tree.IsFormed text.now nodes.now }
    requires within { at < length nodes.now }
    ensures { IfOk result (λ cases. (whole : Seq AnyCase) → tree.IsPartAt text.now nodes.now at (POther (PCases whole)) → cases.items ≡ map of_case whole) }
{
    let mut cases = Vec::new(alloc);
    let mut place = at;
    while act_of(nodes, place) == ACT_NEXT_CASE {
        let case_at = place_of(text, nodes, place, ACT_NEXT_CASE, 0);
        let case = case_of(alloc, text, nodes, case_at)?;
        cases.push(case)?;
        place = place_of(text, nodes, place, ACT_NEXT_CASE, 1);
    }
    cases.reverse();
    Ok(cases)
}

// The last one of a list of preds that isn't empty.
fn pred_at(alloc: Global, text: &[u8], nodes: &[Node], at: usize) -> Result<PredOutline, AllocError>
    requires formed { tree.IsFormed text.now nodes.now }
    requires within { at < length nodes.now }
    requires made { act_at nodes.now at ≡ ACT_PRED }
    ensures { IfOk result (λ pred. (whole : Seq AnyPred) → tree.IsPartAt text.now nodes.now at (POther (PPreds whole))
        → IsEnd (λ place preds. tree.IsPartAt text.now nodes.now place (POther (PPreds preds))) of_pred text.now nodes.now at 6 pred whole) }
{
    let name = token_of(text, nodes, at, ACT_PRED, 4);
    let params_at = place_of(text, nodes, at, ACT_PRED, 3);
    let params = pars_of(alloc, text, nodes, params_at)?;
    let cases_at = place_of(text, nodes, at, ACT_PRED, 1);
    let cases = cases_of(alloc, text, nodes, cases_at)?;
    Ok(PredOutline {
        name,
        params: List::from_vec(params),
        cases: List::from_vec(cases),
    })
}

/// The preds of a list as outlines, in order.
pub fn preds_of(
    alloc: Global,
    text: &[u8],
    nodes: &[Node],
    at: usize,
) -> Result<Vec<PredOutline>, AllocError>
    requires formed { tree.IsFormed text.now nodes.now }
    requires within { at < length nodes.now }
    ensures { IfOk result (λ preds. (whole : Seq AnyPred) → tree.IsPartAt text.now nodes.now at (POther (PPreds whole)) → preds.items ≡ map of_pred whole) }
{
    let mut preds = Vec::new(alloc);
    let mut place = at;
    while act_of(nodes, place) == ACT_PRED {
        let pred = pred_at(alloc, text, nodes, place)?;
        preds.push(pred)?;
        place = place_of(text, nodes, place, ACT_PRED, 6);
    }
    preds.reverse();
    Ok(preds)
}
