//! Lists of names, of parameters and of terms.
#![tactic(auto, unfolding(gv_scriptsyntax::specs::Nodes::arity))]

ghost use Rattle.std.specs.Prelude.{◌≡◌, ℕ, ◌<◌, List as Seq, length, IfOk};
ghost use Rattle.gv_termread.specs.declared.generated.term_acts.Part.TheVariants.{Other as POther};
ghost use Rattle.gv_termread.specs.declared.placed.PlacedTerm.{PlacedTerm as AnyTerm};
ghost use Rattle.gv_termread.specs.declared.token.SeenToken.{SeenToken as AnyToken};
ghost use Rattle.gv_scriptsyntax.specs.declared.generated.script_acts.ScriptPart.TheVariants.{Names as PNames, Pars as PPars, Terms as PTerms};
ghost use Rattle.gv_scriptsyntax.specs.declared.tree.Par.{Par as AnyPar};
ghost use Rattle.gv_scriptsyntax.specs.Nodes as tree;
ghost use Rattle.gv_scriptnodes.specs.Lasts.{IsBelow, IsLast};

use crate::last::Last;
use crate::parts::{act_of, place_of, token_of};
use gv_scriptsyntax::generated::script_table::{
    ACT_IN_NAMES, ACT_IN_PARS, ACT_IN_TERMS, ACT_NAME, ACT_NEXT_NAME, ACT_NEXT_PAR, ACT_NEXT_TERM,
    ACT_PAR, ACT_TERM, ACT_WORD_NAMES, ACT_WORD_TERMS,
};
use gv_scriptsyntax::{Node, Par};
use gv_termread::SeenToken;
use std::alloc::{AllocError, Global};

// The last one of a list of names.
fn last_name(text: &[u8], nodes: &[Node], at: usize) -> Last<SeenToken>
    requires formed { tree.IsFormed text.now nodes.now }
    requires within { at < length nodes.now }
    ensures below { IsBelow at result }
    ensures is { (whole : Seq AnyToken) → tree.IsPartAt text.now nodes.now at (POther (PNames whole))
        → IsLast (λ place names. tree.IsPartAt text.now nodes.now place (POther (PNames names))) (λ item name. item ≡ name) result whole }
{
    let act = act_of(nodes, at);
    if act == ACT_NAME {
        let name = token_of(text, nodes, at, ACT_NAME, 0);
        let before = place_of(text, nodes, at, ACT_NAME, 1);
        return Last::Item { item: name, before };
    }
    if act == ACT_NEXT_NAME {
        let name = token_of(text, nodes, at, ACT_NEXT_NAME, 0);
        let before = place_of(text, nodes, at, ACT_NEXT_NAME, 2);
        return Last::Item { item: name, before };
    }
    if act == ACT_IN_NAMES {
        let same = place_of(text, nodes, at, ACT_IN_NAMES, 1);
        return Last::Same { at: same };
    }
    if act == ACT_WORD_NAMES {
        let same = place_of(text, nodes, at, ACT_WORD_NAMES, 0);
        return Last::Same { at: same };
    }
    Last::Empty
}

/// The names of a list, in order, in time linear in their number.
pub fn names_of(
    alloc: Global,
    text: &[u8],
    nodes: &[Node],
    at: usize,
) -> Result<Vec<SeenToken>, AllocError>
    requires formed { tree.IsFormed text.now nodes.now }
    requires within { at < length nodes.now }
    ensures { IfOk result (λ names. (whole : Seq AnyToken) → tree.IsPartAt text.now nodes.now at (POther (PNames whole)) → names.items ≡ whole) }
{
    let mut names = Vec::new(alloc);
    let mut place = at;
    loop {
        match last_name(text, nodes, place) {
            Last::Empty => break,
            Last::Item { item, before } => {
                names.push(item)?;
                place = before;
            }
            Last::Same { at: same } => place = same,
        }
    }
    names.reverse();
    Ok(names)
}

// The last one of a list of pars.
fn last_par(text: &[u8], nodes: &[Node], at: usize) -> Last<Par>
    requires formed { tree.IsFormed text.now nodes.now }
    requires within { at < length nodes.now }
    ensures below { IsBelow at result }
    ensures is { (whole : Seq AnyPar) → tree.IsPartAt text.now nodes.now at (POther (PPars whole))
        → IsLast (λ place pars. tree.IsPartAt text.now nodes.now place (POther (PPars pars))) (λ item par. item ≡ par) result whole }
{
    let act = act_of(nodes, at);
    if act == ACT_PAR {
        let name = token_of(text, nodes, at, ACT_PAR, 2);
        let sort = token_of(text, nodes, at, ACT_PAR, 0);
        let before = place_of(text, nodes, at, ACT_PAR, 3);
        return Last::Item {
            item: Par { name, sort },
            before,
        };
    }
    if act == ACT_NEXT_PAR {
        let name = token_of(text, nodes, at, ACT_NEXT_PAR, 2);
        let sort = token_of(text, nodes, at, ACT_NEXT_PAR, 0);
        let before = place_of(text, nodes, at, ACT_NEXT_PAR, 4);
        return Last::Item {
            item: Par { name, sort },
            before,
        };
    }
    if act == ACT_IN_PARS {
        let same = place_of(text, nodes, at, ACT_IN_PARS, 1);
        return Last::Same { at: same };
    }
    Last::Empty
}

/// The parameters or variables of a list, in order, in time linear in their number.
pub fn pars_of(
    alloc: Global,
    text: &[u8],
    nodes: &[Node],
    at: usize,
) -> Result<Vec<Par>, AllocError>
    requires formed { tree.IsFormed text.now nodes.now }
    requires within { at < length nodes.now }
    ensures { IfOk result (λ pars. (whole : Seq AnyPar) → tree.IsPartAt text.now nodes.now at (POther (PPars whole)) → pars.items ≡ whole) }
{
    let mut pars = Vec::new(alloc);
    let mut place = at;
    loop {
        match last_par(text, nodes, place) {
            Last::Empty => break,
            Last::Item { item, before } => {
                pars.push(item)?;
                place = before;
            }
            Last::Same { at: same } => place = same,
        }
    }
    pars.reverse();
    Ok(pars)
}

// The last one of a list of terms.
fn last_term(text: &[u8], nodes: &[Node], at: usize) -> Last<()>
    requires formed { tree.IsFormed text.now nodes.now }
    requires within { at < length nodes.now }
    ensures below { IsBelow at result }
    ensures is { (whole : Seq AnyTerm) → tree.IsPartAt text.now nodes.now at (POther (PTerms whole))
        → IsLast (λ place terms. tree.IsPartAt text.now nodes.now place (POther (PTerms terms))) (λ item term. item ≡ item) result whole }
{
    let act = act_of(nodes, at);
    if act == ACT_TERM {
        let before = place_of(text, nodes, at, ACT_TERM, 1);
        return Last::Item { item: (), before };
    }
    if act == ACT_NEXT_TERM {
        let before = place_of(text, nodes, at, ACT_NEXT_TERM, 2);
        return Last::Item { item: (), before };
    }
    if act == ACT_IN_TERMS {
        let same = place_of(text, nodes, at, ACT_IN_TERMS, 1);
        return Last::Same { at: same };
    }
    if act == ACT_WORD_TERMS {
        let same = place_of(text, nodes, at, ACT_WORD_TERMS, 0);
        return Last::Same { at: same };
    }
    Last::Empty
}

/// How many terms a list has, in time linear in their number.
pub fn count_terms(text: &[u8], nodes: &[Node], at: usize) -> u64
    requires formed { tree.IsFormed text.now nodes.now }
    requires within { at < length nodes.now }
    ensures { (whole : Seq AnyTerm) → tree.IsPartAt text.now nodes.now at (POther (PTerms whole)) → result ≡ length whole }
{
    let mut count = 0u64;
    let mut place = at;
    loop {
        match last_term(text, nodes, place) {
            Last::Empty => break,
            Last::Item { item: (), before } => {
                count += 1;
                place = before;
            }
            Last::Same { at: same } => place = same,
        }
    }
    count
}
