//! Predicates.

ghost use Rattle.std.specs.Prelude.{◌≡◌, ◌∷◌, ◌++◌, ℕ, List, [], Option as Maybe, option_map, is_none, map, OnOk};
ghost use Rattle.gv_lang.specs.declared.program.Program.{Program};
ghost use Rattle.gv_atomic.specs.declared.spec.Spec.{Spec};
ghost use Rattle.gv_scriptnames.specs.declared.outline.BookOutline.{BookOutline as Book};
ghost use Rattle.gv_scriptnames.specs.declared.outline.PredOutline.{PredOutline as Pred};
ghost use Rattle.gv_scriptnames.specs.Scopes.{Shape, outside as scope_of, sort_of};
ghost use Rattle.gv_scriptnames.specs.Found.{again, of_crash, of_root};
ghost use Rattle.gv_scriptfaults.specs.Least.{after};
ghost use Rattle.gv_scriptfaults.specs.Noted.{AreCaseItems, AreCaseVars, ArePreds, IsPred};
ghost use Rattle.gv_scriptfaults.specs.Scoped.{IsOutside, params_of};

use crate::declared::declare_pars;
use crate::least::{note, want};
use crate::mentions::note_mentions;
use crate::names::{NameSet, name_of};
use crate::scoped::{Known, Outside, Params};
use crate::words::is_word;
use gv_base::{Code, NoMemory};
use gv_scriptnames::{CaseOutline, PredOutline};
use gv_scriptsyntax::Par;
use gv_termread::SeenToken;
use gv_typing::Fault;
use std::alloc::Global;

// The number of the word `Ref` among those of sorts.
const REF: u64 = 8;

// What those see of a predicate who name it.
fn params(ps: &[Par]) -> Params
    ensures { (name : List ℕ) → result ≡ params_of (record { name = name; params = map (λ p. sort_of p.sort) ps.now }) }
{
    Params {
        count: ps.len() as u64,
        is_one_ref: ps.len() == 1 && ps[0].sort.value == REF,
    }
}

// Notes the faults of the variables of cases, behind the names of parameters.
fn note_vars(
    alloc: Global,
    text: &[u8],
    params: &NameSet,
    cases: &[CaseOutline],
    first: &mut Option<Fault>,
) -> Result<(), NoMemory>
    ensures { OnOk result (AreCaseVars text.now params.now cases.now first.old first.new) }
{
    for case in cases {
        let mut own = NameSet::new(alloc);
        declare_pars(alloc, text, params, &mut own, case.vars.as_slice(), first)?;
    }
    Ok(())
}

// Notes the faults of what stands in cases.
fn note_items(
    alloc: Global,
    text: &[u8],
    known: &Known,
    outside: &Outside,
    cuts: &NameSet,
    cases: &[CaseOutline],
    first: &mut Option<Fault>,
) -> Result<(), NoMemory>
    ensures { OnOk result (AreCaseItems text.now known.now outside.now cuts.now cases.now first.old first.new) }
{
    for case in cases {
        let items = case.items.as_slice();
        note_mentions(alloc, text, known, outside, cuts, items, first)?;
    }
    Ok(())
}

// Notes that a predicate's name is one of an earlier one's.
fn note_again(found: Option<Params>, t: SeenToken, first: &mut Option<Fault>)
    ensures { (text : List ℕ) (spec : Spec) (program : Program) (earlier : Maybe Shape) → found ≡ option_map params_of earlier
        → first.new ≡ after first.old (again text spec program earlier t) }
{
    if found.is_some() {
        note(first, t.start, Code::Twice);
    }
}

// Notes the faults of a predicate behind those that may be named.
fn note_pred(
    alloc: Global,
    text: &[u8],
    known: &Known,
    outside: &Outside,
    pred: &PredOutline,
    first: &mut Option<Fault>,
) -> Result<(), NoMemory>
    ensures { OnOk result (IsPred text.now known.now outside.now pred.now first.old first.new) }
{
    let t = pred.name;
    want(!is_word(t), first, t.start, Code::Twice);
    let name = name_of(alloc, text, t)?;
    note_again(outside.preds.get(&name), t, first);
    let none = NameSet::new(alloc);
    let mut params = NameSet::new(alloc);
    let pars = pred.params.as_slice();
    declare_pars(alloc, text, &none, &mut params, pars, first)?;
    let cases = pred.cases.as_slice();
    note_vars(alloc, text, &params, cases, first)?;
    note_items(alloc, text, known, outside, &none, cases, first)
}

// Adds a predicate to those that may be named.
fn add_pred(
    alloc: Global,
    text: &[u8],
    outside: &mut Outside,
    pred: &PredOutline,
) -> Result<(), NoMemory>
    ensures { OnOk result ((books : List Book) (before : List Pred) → IsOutside (scope_of text.now books before) outside.old
        → IsOutside (scope_of text.now books (before ++ pred.now ∷ [])) outside.new) }
{
    let name = name_of(alloc, text, pred.name)?;
    outside.preds.keep(name, params(pred.params.as_slice()))
}

/// Notes the faults of predicates, each behind those before it, and adds them to those that may be named.
pub fn note_preds(
    alloc: Global,
    text: &[u8],
    known: &Known,
    outside: &mut Outside,
    preds: &[PredOutline],
    first: &mut Option<Fault>,
) -> Result<(), NoMemory>
    ensures noted { OnOk result (ArePreds text.now known.now outside.old preds.now first.old first.new) }
    ensures outside { OnOk result ((books : List Book) → IsOutside (scope_of text.now books []) outside.old
        → IsOutside (scope_of text.now books preds.now) outside.new) }
{
    for pred in preds {
        note_pred(alloc, text, known, outside, pred, first)?;
        add_pred(alloc, text, outside, pred)?;
    }
    Ok(())
}

/// Notes the fault of the name behind `crash`.
pub fn note_crash(params: Option<Params>, t: SeenToken, first: &mut Option<Fault>)
    ensures { (text : List ℕ) (spec : Spec) (program : Program) (found : Maybe Shape) → params ≡ option_map params_of found
        → first.new ≡ after first.old (of_crash text spec program t found) }
{
    match params {
        None => note(first, t.start, Code::Undeclared),
        Some(params) => want(params.count == 0, first, t.start, Code::WrongCount),
    }
}

/// Notes the fault of the name behind `root`.
pub fn note_root(params: Option<Params>, t: SeenToken, first: &mut Option<Fault>)
    ensures { (text : List ℕ) (spec : Spec) (program : Program) (found : Maybe Shape) → params ≡ option_map params_of found
        → first.new ≡ after first.old (of_root text spec program t found) }
{
    match params {
        None => note(first, t.start, Code::Undeclared),
        Some(params) => {
            if params.count == 1 {
                want(params.is_one_ref, first, t.start, Code::WrongType);
            } else {
                note(first, t.start, Code::WrongCount);
            }
        }
    }
}
