//! Whether the next step of a thread ends it.

ghost use Rattle.std.specs.Prelude.{◌≡◌, IfOk, option_map};
ghost use Rattle.gv_lang.specs.Plain.{exprs_of, tree_of};
ghost use Rattle.gv_thread.specs.Frames.{thread_of};
ghost use Rattle.gv_machine.specs.Returning as defined;
ghost use Rattle.gv_machine.specs.Ending.{ComesTo};
ghost use Rattle.gv_machine.specs.Seen.{slot_of};

use crate::running::{Role, Running};
use gv_base::{NoMemory, Val};
use gv_lang::{Cmd, Pure};
use gv_thread::{Thread, values};
use std::alloc::Global;

/// What the next step of the thread under a number comes to, as far as its next command tells: there is no
/// such thread; it goes on; or it ends with these values, where they have any. This project's own.
#[derive(Drop)]
pub enum Ending {
    Gone,
    GoesOn,
    Ends(Role, Option<Vec<Val>>),
}

// What a command returns, where it is a Return.
#[tactic(auto, using(gv_lang::proofs::Trees::commands))]
fn returned_by(c: &Cmd) -> Option<&[Pure]>
    ensures { option_map (λ es. exprs_of es.now) result ≡ defined.returned_by (tree_of c.now) }
{
    match c {
        Cmd::Return { es, .. } => Some(es.as_slice()),
        Cmd::If { .. } | Cmd::Loop { .. } | Cmd::Break { .. } | Cmd::Continue { .. } => None,
        Cmd::Let { .. } | Cmd::Div { .. } | Cmd::Rem { .. } | Cmd::New { .. } => None,
        Cmd::Load { .. } | Cmd::Store { .. } | Cmd::MakeSlice { .. } => None,
        Cmd::At { .. } | Cmd::Put { .. } | Cmd::Len { .. } | Cmd::NewMap { .. } => None,
        Cmd::MapGet { .. } | Cmd::MapPut { .. } | Cmd::MapDelete { .. } => None,
        Cmd::NewMutex { .. } | Cmd::Lock { .. } | Cmd::Unlock { .. } => None,
        Cmd::DiskRead { .. } | Cmd::DiskRead2 { .. } => None,
        Cmd::DiskWrite { .. } | Cmd::DiskSize { .. } => None,
        Cmd::Get64 { .. } | Cmd::Put64 { .. } | Cmd::Sub { .. } => None,
        Cmd::Append { .. } | Cmd::Call { .. } | Cmd::Spawn { .. } => None,
    }
}

// What a thread's next step returns, where that step ends the thread.
#[tactic(auto, using(crate::proofs::EndingLemmas::alone))]
fn returned_next<'p>(thread: &Thread<'p>) -> Option<&'p [Pure]>
    ensures { option_map (λ es. exprs_of es.now) result ≡ defined.returned_next (thread_of thread.now) }
{
    if !thread.below.is_empty() {
        return None;
    }
    match thread.top.todo.head() {
        Some(c) => returned_by(c),
        None => None,
    }
}

/// What the next step of the thread in a slot comes to.
#[tactic(auto, using(crate::proofs::EndingLemmas::ends))]
pub fn next_ending(alloc: Global, slot: &Option<Running<'_>>) -> Result<Ending, NoMemory>
    ensures { IfOk result (λ e. ComesTo (slot_of slot.now) e) }
{
    let Some(running) = slot else {
        return Ok(Ending::Gone);
    };
    let Some(es) = returned_next(&running.thread) else {
        return Ok(Ending::GoesOn);
    };
    match values(alloc, running.thread.top.locals.as_slice(), es)? {
        Some(found) => Ok(Ending::Ends(running.role, Some(found.into_vec()))),
        None => Ok(Ending::Ends(running.role, None)),
    }
}
