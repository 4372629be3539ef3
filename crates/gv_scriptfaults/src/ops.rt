//! Operations.

ghost use Rattle.std.specs.Prelude.{◌≡◌, ◌∷◌, ℕ, List, [], Option as Maybe, OnOk};
ghost use Rattle.std.specs.Option.{option_copied, option_and_then};
ghost use Rattle.gv_lang.specs.declared.program.Program.{Program};
ghost use Rattle.gv_atomic.specs.declared.spec.Spec.{Spec};
ghost use Rattle.gv_scriptfaults.specs.Noted.{AreAdded, AreOps, IsOp};
ghost use Rattle.std.specs.Prelude.{slice_get};
ghost use Rattle.gv_scriptfaults.specs.Tables.{has};

use crate::bodies::note_body;
use crate::least::want;
use crate::names::{NameSet, name_of};
use crate::scoped::{Known, Outside, ProcFacts};
use gv_base::{Code, NoMemory};
use gv_scriptnames::OpOutline;
use gv_typing::Fault;
use std::alloc::Global;

/// The facts of a procedure by its place.
pub fn facts_at(known: &Known, place: Option<usize>) -> Option<&ProcFacts>
    ensures { option_copied result ≡ option_and_then (slice_get known.now.facts) place }
{
    match place {
        None => None,
        Some(at) => known.facts.get(at),
    }
}

// Notes the faults of an operation behind those whose names are in a set, and adds its name.
fn note_op(
    alloc: Global,
    text: &[u8],
    known: &Known,
    outside: &Outside,
    names: &mut NameSet,
    op: &OpOutline,
    first: &mut Option<Fault>,
) -> Result<(), NoMemory>
    ensures noted { OnOk result (IsOp text.now known.now outside.now names.old op.now first.old first.new) }
    ensures added { OnOk result (AreAdded text.now names.old (op.now.name ∷ []) names.new) }
{
    let start = op.name.start;
    let name = name_of(alloc, text, op.name)?;
    want(
        known.ops.get(&name).is_some(),
        first,
        start,
        Code::Undeclared,
    );
    let facts = facts_at(known, known.methods.get(&name));
    want(facts.is_some(), first, start, Code::Undeclared);
    want(!names.has(&name), first, start, Code::Twice);
    names.add(name)?;
    note_body(alloc, text, known, outside, facts, &op.body, first)
}

/// Notes the faults of operations.
pub fn note_ops(
    alloc: Global,
    text: &[u8],
    known: &Known,
    outside: &Outside,
    ops: &[OpOutline],
    first: &mut Option<Fault>,
) -> Result<(), NoMemory>
    ensures { OnOk result (AreOps text.now known.now outside.now ops.now first.old first.new) }
{
    let mut names = NameSet::new(alloc);
    for op in ops {
        note_op(alloc, text, known, outside, &mut names, op, first)?;
    }
    Ok(())
}
