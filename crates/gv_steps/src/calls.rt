//! Commands that enter procedures and leave them.

ghost use Rattle.std.specs.Prelude.{◌≡◌, ℕ, IfOk, OnErr};
ghost use Rattle.gv_world.specs.Store.{Store as World};
ghost use Rattle.gv_lang.specs.Plain.{exprs_of, program_of};
ghost use Rattle.gv_lang.specs.Tree as tree;
ghost use Rattle.gv_steps.specs.Acting.{ActsIn};
ghost use Rattle.gv_steps.specs.Calling.{Starts, GivesBack};
ghost use Rattle.gv_thread.specs.Frames.{thread_of};

use crate::operands::all;
use gv_base::{Answer, NoMemory, Reason, Val};
use gv_lang::{Program, Pure};
use gv_thread::{Frame, Thread};
use std::alloc::Global;

/// The step of `xs = f(e, ..)`: the caller goes on past the call when the new frame begins.
/// This project's own.
#[tactic(auto, using(crate::proofs::Calling::procs))]
pub fn call<'p>(
    thread: &mut Thread<'p>,
    alloc: Global,
    g: &'p Program,
    xs: &'p [u32],
    f: u32,
    es: &[Pure],
) -> Result<Answer<()>, NoMemory>
    ensures ok { let action = tree.Call xs.now f (exprs_of es.now) in (w : World) (extra : ℕ) →
        IfOk result (λ answer. ActsIn (program_of g.now) extra action (thread_of thread.old) w answer (thread_of thread.new) w) }
    ensures kept { OnErr result (thread_of thread.new ≡ thread_of thread.old) }
{
    let Some(args) = all(alloc, thread, es)? else {
        return Ok(Answer::Undefined(Reason::Kind));
    };
    let Some(proc) = g.procs.get(f as usize) else {
        return Ok(Answer::Undefined(Reason::Kind));
    };
    let frame = Frame::new(alloc, f, proc, args.into_vec(), xs)?;
    thread.push(frame)?;
    Ok(Answer::Next(()))
}

/// The step of `go f(e, ..)`, which hands out the thread that it starts. This project's own.
#[tactic(auto, using(crate::proofs::Calling::procs))]
pub fn spawn<'p>(
    thread: &mut Thread<'p>,
    alloc: Global,
    g: &'p Program,
    f: u32,
    es: &[Pure],
) -> Result<Answer<Thread<'p>>, NoMemory>
    ensures ok { let action = tree.Spawn f (exprs_of es.now) in (w : World) (extra : ℕ) →
        IfOk result (λ answer. Starts (program_of g.now) extra action (thread_of thread.old) w answer (thread_of thread.new)) }
    ensures kept { OnErr result (thread_of thread.new ≡ thread_of thread.old) }
{
    let Some(args) = all(alloc, thread, es)? else {
        return Ok(Answer::Undefined(Reason::Kind));
    };
    let Some(proc) = g.procs.get(f as usize) else {
        return Ok(Answer::Undefined(Reason::Kind));
    };
    let frame = Frame::new(alloc, f, proc, args.into_vec(), &[])?;
    thread.finish();
    Ok(Answer::Next(Thread::of(alloc, frame)))
}

/// The step of `return e, ..`: the frame below takes the values; without one the thread has ended, and they
/// are handed out. This project's own.
#[tactic(auto, using(crate::proofs::Calling::takings))]
pub fn give_back(
    thread: &mut Thread<'_>,
    alloc: Global,
    es: &[Pure],
) -> Result<Answer<Option<Vec<Val>>>, NoMemory>
    ensures ok { (w : World) → IfOk result (λ answer. GivesBack (exprs_of es.now) (thread_of thread.old) w answer (thread_of thread.new)) }
    ensures kept { OnErr result (thread_of thread.new ≡ thread_of thread.old) }
{
    let Some(values) = all(alloc, thread, es)? else {
        return Ok(Answer::Undefined(Reason::Kind));
    };
    Ok(Answer::Next(thread.pop(values.into_vec())))
}
