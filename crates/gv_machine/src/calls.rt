//! The threads of recovery and of calls.

ghost use Rattle.std.specs.Prelude.{◌≡◌, true, IfOk};
ghost use Rattle.gv_lang.specs.Calls as given;
ghost use Rattle.gv_lang.specs.Plain.{program_of};
ghost use Rattle.gv_lang.specs.WellShaped as shape;
ghost use Rattle.gv_runs.specs.Machine as defined;
ghost use Rattle.gv_runs.specs.Machine.{setting_of, call_of};
ghost use Rattle.gv_world.specs.Store.{is_within_limit};
ghost use Rattle.gv_thread.specs.Frames.{thread_of};
ghost use Rattle.gv_machine.specs.Outcomes.{Starts};
ghost use Rattle.gv_machine.specs.Placing.{IsGrown};

use crate::arguments::{are_arguments, place_all};
use gv_atomic::Spec;
use gv_base::{NoMemory, Val};
use gv_lang::{Proc, Program};
use gv_store::{Grow, Store};
use gv_terms::Value;
use gv_thread::{Frame, Thread, Todo};
use std::alloc::Global;

// A thread without anything to do.
fn idle<'p>(alloc: Global) -> Thread<'p>
    ensures { thread_of result ≡ given.idle }
{
    let frame = Frame {
        proc: 0,
        locals: Vec::new(alloc),
        todo: Todo {
            parts: Vec::new(alloc),
        },
        results: &[],
    };
    Thread::of(alloc, frame)
}

/// A thread that is about to run recovery. This project's own.
pub fn recovery<'p>(alloc: Global, program: &'p Program) -> Result<Thread<'p>, NoMemory>
    ensures { IfOk result (λ th. thread_of th ≡ given.recovery (program_of program.now)) }
{
    let place = program.recover;
    match program.procs.get(place as usize) {
        Some(proc) => {
            let frame = Frame::new(alloc, place, proc, Vec::new(alloc), &[])?;
            Ok(Thread::of(alloc, frame))
        }
        None => Ok(idle(alloc)),
    }
}

// The name of a procedure's method: what follows the first dot, or all of it where there is none.
fn method_of(name: &[u8]) -> &[u8]
    ensures { result.now ≡ shape.method_of name.now }
{
    let mut rest = name;
    while let [first, tail @ ..] = rest {
        if *first == b'.' {
            return tail;
        }
        rest = tail;
    }
    name
}

fn method_at(program: &Program, op: u32) -> &[u8]
    ensures { result.now ≡ shape.method_at (program_of program.now) op }
{
    match program.procs.get(op as usize) {
        None => &[],
        Some(p) => method_of(p.name.as_slice()),
    }
}

// The procedure of the operation with this method's name.
fn operation(program: &Program, name: &[u8]) -> Option<u32>
    ensures { result ≡ given.operation (program_of program.now) name.now }
{
    let mut rest = program.ops.as_slice();
    while let [first, tail @ ..] = rest {
        if method_at(program, *first) == name {
            return Some(*first);
        }
        rest = tail;
    }
    None
}

// The procedure of the operation that a specification numbers so.
fn procedure(program: &Program, spec: &Spec, op: u32) -> Option<u32>
    ensures { result ≡ defined.procedure (program_of program.now) (setting_of spec.now) op }
{
    match spec.ops.get(op as usize) {
        None => None,
        Some(o) => operation(program, o.name.as_slice()),
    }
}

/// The thread of a call of an operation on what recovery returned, and in the store the buffers of its arguments;
/// none where the program has no such operation, or an argument is no word, truth value or byte string.
/// This project's own.
pub fn called<'p>(
    alloc: Global,
    program: &'p Program,
    spec: &Spec,
    store: &mut Store,
    receiver: &[Val],
    op: u32,
    args: &[Value],
) -> Result<Option<Thread<'p>>, Grow>
    requires { is_within_limit store.old ≡ true }
    ensures thread { let wanted = call_of (program_of program.now) (setting_of spec.now) receiver.now op args.now store.old in
        Starts wanted store.old result store.new }
    ensures grown { IfOk result (λ _. IsGrown store.old store.new) }
{
    let Some(place) = procedure(program, spec, op) else {
        return Ok(None);
    };
    let Some(proc) = program.procs.get(place as usize) else {
        return Ok(None);
    };
    if !are_arguments(args) {
        return Ok(None);
    }
    let first = store.fresh();
    let values = match place_all(alloc, store, receiver, args) {
        Ok(values) => values,
        Err(grow) => return Err(grow),
    };
    match Frame::new(alloc, place, proc, values, &[]) {
        Ok(frame) => Ok(Some(Thread::of(alloc, frame))),
        Err(_) => {
            store.forget_from(first);
            Err(Grow::NoMemory)
        }
    }
}
