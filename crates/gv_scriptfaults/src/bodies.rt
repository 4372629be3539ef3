//! Blocks with their cuts.

ghost use Rattle.std.specs.Prelude.{◌≡◌, ◌∷◌, ℕ, List, [], map, Option as Maybe, Some, IfOk, OnOk};
ghost use Rattle.std.specs.Option.{option_copied};
ghost use Rattle.gv_lang.specs.declared.program.Proc.{Proc};
ghost use Rattle.gv_lang.specs.declared.program.Program.{Program};
ghost use Rattle.gv_atomic.specs.declared.spec.Spec.{Spec};
ghost use Rattle.gv_scriptnames.specs.Names.{names_in};
ghost use Rattle.gv_scriptnames.specs.Found.{of_point};
ghost use Rattle.gv_scriptfaults.specs.Least.{after};
ghost use Rattle.gv_scriptfaults.specs.Noted.{AreAdded, AreCuts, AreLocals, IsBody, IsCut};
ghost use Rattle.gv_scriptfaults.specs.Procs.{AreFacts};
ghost use Rattle.gv_scriptfaults.specs.Tables.{Holds};

use crate::declared::{declare, declare_all, declare_pars};
use crate::least::want;
use crate::mentions::note_mentions;
use crate::names::{NameSet, name_of};
use crate::scoped::{Known, Outside, ProcFacts};
use gv_base::{Code, NoMemory};
use gv_scriptnames::{BodyOutline, CutOutline};
use gv_termread::SeenToken;
use gv_typing::Fault;
use std::alloc::Global;

// Notes a cut's number that is no point of its procedure.
fn note_point(facts: Option<&ProcFacts>, t: SeenToken, first: &mut Option<Fault>)
    ensures { (text : List ℕ) (spec : Spec) (program : Program) (proc : Maybe Proc) → AreFacts proc (option_copied facts.entry)
        → first.new ≡ after first.old (of_point text spec program t proc) }
{
    if let Some(facts) = facts {
        let right = 0 < t.value && t.value <= facts.points;
        want(right, first, t.start, Code::TooMany);
    }
}

// Notes the locals of a cut that are none of its procedure.
fn note_known_locals(
    alloc: Global,
    text: &[u8],
    facts: &ProcFacts,
    ts: &[SeenToken],
    first: &mut Option<Fault>,
) -> Result<(), NoMemory>
    ensures { OnOk result (AreLocals text.now (Some facts.now) ts.now first.old first.new) }
{
    for t in ts {
        let name = name_of(alloc, text, *t)?;
        want(facts.locals.has(&name), first, t.start, Code::Undeclared);
    }
    Ok(())
}

fn note_locals(
    alloc: Global,
    text: &[u8],
    facts: Option<&ProcFacts>,
    ts: &[SeenToken],
    first: &mut Option<Fault>,
) -> Result<(), NoMemory>
    ensures { OnOk result (AreLocals text.now (option_copied facts.entry) ts.now first.old first.new) }
{
    match facts {
        None => Ok(()),
        Some(facts) => note_known_locals(alloc, text, facts, ts, first),
    }
}

// Notes the faults of a cut behind those whose names are in a set, and adds its name.
fn note_cut(
    alloc: Global,
    text: &[u8],
    known: &Known,
    outside: &Outside,
    cuts: &NameSet,
    facts: Option<&ProcFacts>,
    names: &mut NameSet,
    cut: &CutOutline,
    first: &mut Option<Fault>,
) -> Result<(), NoMemory>
    ensures noted { OnOk result (IsCut text.now known.now outside.now cuts.now (option_copied facts.entry) names.old cut.now first.old first.new) }
    ensures added { OnOk result (AreAdded text.now names.old (cut.now.name ∷ []) names.new) }
{
    let none = NameSet::new(alloc);
    declare(alloc, text, &none, names, cut.name, first)?;
    note_point(facts, cut.number, first);
    let locals = cut.locals.as_slice();
    let mut own = NameSet::new(alloc);
    declare_all(alloc, text, &none, &mut own, locals, first)?;
    note_locals(alloc, text, facts, locals, first)?;
    declare_pars(alloc, text, &none, &mut own, cut.vars.as_slice(), first)?;
    let items = cut.items.as_slice();
    note_mentions(alloc, text, known, outside, cuts, items, first)?;
    let block = cut.block.as_slice();
    note_mentions(alloc, text, known, outside, cuts, block, first)
}

// Notes the faults of cuts.
fn note_cuts(
    alloc: Global,
    text: &[u8],
    known: &Known,
    outside: &Outside,
    cuts: &NameSet,
    facts: Option<&ProcFacts>,
    all: &[CutOutline],
    first: &mut Option<Fault>,
) -> Result<(), NoMemory>
    ensures { OnOk result (AreCuts text.now known.now outside.now cuts.now (option_copied facts.entry) all.now first.old first.new) }
{
    let mut names = NameSet::new(alloc);
    for cut in all {
        note_cut(
            alloc, text, known, outside, cuts, facts, &mut names, cut, first,
        )?;
    }
    Ok(())
}

// The names of cuts.
fn names_of_cuts(alloc: Global, text: &[u8], all: &[CutOutline]) -> Result<NameSet, NoMemory>
    ensures { IfOk result (Holds (names_in text.now (map (λ d. d.name) all.now))) }
{
    let mut names = NameSet::new(alloc);
    for cut in all {
        names.add(name_of(alloc, text, cut.name)?)?;
    }
    Ok(names)
}

/// Notes the faults of a block with its cuts.
pub fn note_body(
    alloc: Global,
    text: &[u8],
    known: &Known,
    outside: &Outside,
    facts: Option<&ProcFacts>,
    body: &BodyOutline,
    first: &mut Option<Fault>,
) -> Result<(), NoMemory>
    ensures { OnOk result (IsBody text.now known.now outside.now (option_copied facts.entry) body.now first.old first.new) }
{
    let all = body.cuts.as_slice();
    let cuts = names_of_cuts(alloc, text, all)?;
    let block = body.block.as_slice();
    note_mentions(alloc, text, known, outside, &cuts, block, first)?;
    note_cuts(alloc, text, known, outside, &cuts, facts, all, first)
}
