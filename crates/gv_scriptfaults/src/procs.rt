//! Procedures.

ghost use Rattle.std.specs.Prelude.{◌≡◌, ◌∷◌, ◌++◌, ℕ, List, [], Option as Maybe, OnOk};
ghost use Rattle.std.specs.Option.{option_copied};
ghost use Rattle.gv_lang.specs.declared.program.Proc.{Proc};
ghost use Rattle.gv_lang.specs.declared.program.Program.{Program};
ghost use Rattle.gv_atomic.specs.declared.spec.Spec.{Spec};
ghost use Rattle.gv_termread.specs.declared.token.SeenToken.{SeenToken as Seen};
ghost use Rattle.gv_scriptnames.specs.Found.{of_results};
ghost use Rattle.gv_scriptnames.specs.Scopes.{param_names};
ghost use Rattle.gv_scriptfaults.specs.Least.{after};
ghost use Rattle.gv_scriptfaults.specs.Noted.{AreAdded, AreProcs, IsOwn, IsProc};
ghost use Rattle.gv_scriptfaults.specs.Procs.{AreFacts};
ghost use Rattle.gv_scriptfaults.specs.Tables.{Holds};

use crate::bodies::note_body;
use crate::declared::{declare_all, declare_pars};
use crate::least::{note, want};
use crate::mentions::{note_mention, note_mentions};
use crate::names::{NameSet, name_of};
use crate::ops::facts_at;
use crate::scoped::{Known, Outside, ProcFacts};
use gv_base::{Code, NoMemory};
use gv_scriptnames::{Mention, ProcOutline};
use gv_termread::SeenToken;
use gv_typing::Fault;
use std::alloc::Global;

// Notes a procedure that the program lacks, or that has another number of results.
fn note_results(
    facts: Option<&ProcFacts>,
    t: SeenToken,
    results: &[SeenToken],
    first: &mut Option<Fault>,
)
    ensures { (text : List ℕ) (spec : Spec) (program : Program) (proc : Maybe Proc) → AreFacts proc (option_copied facts.entry)
        → first.new ≡ after first.old (of_results text spec program t results.now proc) }
{
    match facts {
        None => note(first, t.start, Code::Undeclared),
        Some(facts) => {
            let same = results.len() as u64 == facts.results;
            want(same, first, t.start, Code::WrongCount);
        }
    }
}

// Notes the fault of the instance that a procedure owns.
fn note_own(
    alloc: Global,
    text: &[u8],
    known: &Known,
    outside: &Outside,
    cuts: &NameSet,
    own: Option<Mention>,
    first: &mut Option<Fault>,
) -> Result<(), NoMemory>
    ensures { OnOk result (IsOwn text.now known.now outside.now cuts.now own first.old first.new) }
{
    match own {
        None => Ok(()),
        Some(mention) => note_mention(alloc, text, known, outside, cuts, mention, first),
    }
}

// The names of a procedure's parameters.
fn params_of<'a>(facts: Option<&'a ProcFacts>, none: &'a NameSet) -> &'a NameSet
    requires { Holds [] none.now }
    ensures { (proc : Maybe Proc) → AreFacts proc (option_copied facts.entry) → Holds (param_names proc) result.now }
{
    match facts {
        None => none,
        Some(facts) => &facts.params,
    }
}

// Notes the faults of a procedure behind those whose names are in a set, and adds its name.
fn note_proc(
    alloc: Global,
    text: &[u8],
    known: &Known,
    outside: &Outside,
    names: &mut NameSet,
    proc: &ProcOutline,
    first: &mut Option<Fault>,
) -> Result<(), NoMemory>
    ensures noted { OnOk result (IsProc text.now known.now outside.now names.old proc.now first.old first.new) }
    ensures added { OnOk result (AreAdded text.now names.old (proc.now.name ∷ []) names.new) }
{
    let t = proc.name;
    let name = name_of(alloc, text, t)?;
    let facts = facts_at(known, known.procs.get(&name));
    let results = proc.results.as_slice();
    note_results(facts, t, results, first);
    want(!names.has(&name), first, t.start, Code::Twice);
    names.add(name)?;
    let none = NameSet::new(alloc);
    note_own(alloc, text, known, outside, &none, proc.own, first)?;
    let params = params_of(facts, &none);
    let mut own = NameSet::new(alloc);
    declare_pars(alloc, text, params, &mut own, proc.vars.as_slice(), first)?;
    declare_all(alloc, text, params, &mut own, results, first)?;
    let pre = proc.pre.as_slice();
    note_mentions(alloc, text, known, outside, &none, pre, first)?;
    let post = proc.post.as_slice();
    note_mentions(alloc, text, known, outside, &none, post, first)?;
    note_body(alloc, text, known, outside, facts, &proc.body, first)
}

/// Notes the faults of procedures.
pub fn note_procs(
    alloc: Global,
    text: &[u8],
    known: &Known,
    outside: &Outside,
    procs: &[ProcOutline],
    first: &mut Option<Fault>,
) -> Result<(), NoMemory>
    ensures { OnOk result (AreProcs text.now known.now outside.now procs.now first.old first.new) }
{
    let mut names = NameSet::new(alloc);
    for proc in procs {
        note_proc(alloc, text, known, outside, &mut names, proc, first)?;
    }
    Ok(())
}
