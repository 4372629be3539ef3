//! The first fault of an outline.

ghost use Rattle.std.specs.Prelude.{◌≡◌, IfOk, OnOk};
ghost use Rattle.gv_scriptnames.specs.Found.{found};
ghost use Rattle.gv_scriptnames.specs.Scopes.{outside as scope_of};
ghost use Rattle.gv_scriptfaults.specs.First.{IsFirstFault};
ghost use Rattle.gv_scriptfaults.specs.Least.{after};
ghost use Rattle.gv_scriptfaults.specs.Noted.{AreBlocks, AreDeclarations};
ghost use Rattle.gv_scriptfaults.specs.Scoped.{IsKnown, IsOutside};

use crate::bodies::note_body;
use crate::books::note_books;
use crate::known::known_of;
use crate::mentions::note_mentions;
use crate::names::{NameSet, name_of};
use crate::ops::{facts_at, note_ops};
use crate::outside::outside_of;
use crate::preds::{note_crash, note_preds, note_root};
use crate::procs::note_procs;
use crate::scoped::{Known, Outside};
use gv_atomic::Spec;
use gv_base::NoMemory;
use gv_lang::Program;
use gv_scriptnames::Outline;
use gv_typing::Fault;
use std::alloc::Global;

// Notes the faults of what is declared before the blocks, and gives what may be named in these.
fn note_declarations(
    alloc: Global,
    text: &[u8],
    known: &Known,
    outline: &Outline,
    first: &mut Option<Fault>,
) -> Result<Outside, NoMemory>
    ensures noted { OnOk result (AreDeclarations text.now known.now outline.now first.old first.new) }
    ensures outside { IfOk result (IsOutside (scope_of text.now outline.now.books outline.now.preds)) }
{
    let books = outline.books.as_slice();
    let names = note_books(alloc, text, books, first)?;
    let mut outside = outside_of(alloc, text, books, names)?;
    let preds = outline.preds.as_slice();
    note_preds(alloc, text, known, &mut outside, preds, first)?;
    let crash = name_of(alloc, text, outline.crash)?;
    note_crash(outside.preds.get(&crash), outline.crash, first);
    let root = name_of(alloc, text, outline.root)?;
    note_root(outside.preds.get(&root), outline.root, first);
    Ok(outside)
}

// Notes the faults of the blocks, and of what stands with them.
fn note_blocks(
    alloc: Global,
    text: &[u8],
    program: &Program,
    known: &Known,
    outside: &Outside,
    outline: &Outline,
    first: &mut Option<Fault>,
) -> Result<(), NoMemory>
    ensures { OnOk result (AreBlocks text.now program.now known.now outside.now outline.now first.old first.new) }
{
    let none = NameSet::new(alloc);
    let init = outline.init.as_slice();
    note_mentions(alloc, text, known, outside, &none, init, first)?;
    let recovery = facts_at(known, Some(program.recover as usize));
    let recover = &outline.recover;
    note_body(alloc, text, known, outside, recovery, recover, first)?;
    let ops = outline.ops.as_slice();
    note_ops(alloc, text, known, outside, ops, first)?;
    let procs = outline.procs.as_slice();
    note_procs(alloc, text, known, outside, procs, first)
}

// Notes all faults of an outline.
fn note_outline(
    alloc: Global,
    text: &[u8],
    spec: &Spec,
    program: &Program,
    outline: &Outline,
    first: &mut Option<Fault>,
) -> Result<(), NoMemory>
    ensures { OnOk result (first.new ≡ after first.old (found text.now spec.now program.now outline.now)) }
{
    let known = known_of(alloc, spec, program)?;
    let outside = note_declarations(alloc, text, &known, outline, first)?;
    note_blocks(alloc, text, program, &known, &outside, outline, first)
}

/// The first fault of a script's names, types and counts, by its outline, for a specification and a program: of those at the
/// first place the one with the lower number. None where all rules hold. `NoMemory` comes where memory runs out.
/// It takes time and room linear in the text, the specification and the program. This project's own.
pub fn first_fault(
    alloc: Global,
    text: &[u8],
    spec: &Spec,
    program: &Program,
    outline: &Outline,
) -> Result<Option<Fault>, NoMemory>
    ensures { IfOk result (IsFirstFault text.now spec.now program.now outline.now) }
{
    let mut first = None;
    note_outline(alloc, text, spec, program, outline, &mut first)?;
    Ok(first)
}
