//! Calls.

ghost use Rattle.std.specs.Prelude.{◌≡◌, ◌+◌, ◌-◌, ◌^◌, ◌<◌, ◌++◌, ◌∷◌, [], true, map, IsTrue, OnOk, OnErr, Some};
ghost use Rattle.gv_lang.specs.Plain.{program_of};
ghost use Rattle.gv_spec.specs.Atomic.{atomic_of, are_args};
ghost use Rattle.gv_spec.specs.Entry as entry;
ghost use Rattle.gv_spec.specs.History.{entry_of};
ghost use Rattle.gv_spec.specs.Runs.{Answers, call_made};
ghost use Rattle.gv_runs.specs.Machine.{machine_of, setting_of};
ghost use Rattle.gv_world.specs.Store.{is_within_limit};
ghost use Rattle.gv_thread.specs.Frames.{thread_of};
ghost use Rattle.gv_machine.specs.Outcomes.{Makes};
ghost use Rattle.gv_machine.specs.Seen.{state_of, threads_of};

use crate::calls::called;
use crate::run::Run;
use crate::running::Role;
use crate::threads::Threads;
use gv_atomic::Spec;
use gv_base::{Answer, List, NoMemory};
use gv_lang::Program;
use gv_spec::{Entry, meets_where};
use gv_store::Grow;
use gv_terms::{Value, copy_list};
use gv_thread::Thread;
use std::alloc::Global;

// A call's thread and its entry, or neither.
fn add_call<'p>(
    threads: &mut Threads<'p>,
    history: &mut Vec<Entry>,
    number: u32,
    thread: Thread<'p>,
    entry: Entry,
) -> Result<(), NoMemory>
    ensures threads { OnOk result (threads_of threads.new ≡ threads_of threads.old ++ Some (Answers number, thread_of thread.entry) ∷ []) }
    ensures history { OnOk result (map entry_of history.new.items ≡ map entry_of history.old.items ++ entry_of entry ∷ []) }
    ensures threads_kept { OnErr result (threads_of threads.new ≡ threads_of threads.old) }
    ensures history_kept { OnErr result (map entry_of history.new.items ≡ map entry_of history.old.items) }
{
    history.push(entry)?;
    if threads.start(Role::Answers(number), thread).is_err() {
        let _ = history.pop();
        return Err(NoMemory);
    }
    Ok(())
}

impl<'p> Run<'p> {
    /// A call of an operation, which is possible while the run is booted and where the arguments may be its own.
    pub fn call(
        &mut self,
        alloc: Global,
        program: &'p Program,
        spec: &Spec,
        op: u32,
        args: &List<Value>,
    ) -> Result<Answer<()>, Grow>
        requires of_spec { IsTrue (are_args spec.now op args.now) }
        requires calls { (state_of self.old).calls < 2 ^ 32 - 1 }
        requires within { is_within_limit (state_of self.old).world ≡ true }
        ensures { let machine = machine_of (program_of program.now) (setting_of spec.now) in let old = state_of self.old in
            Makes (call_made machine old op args.now old.receiver ((atomic_of spec.now).allows op args.now)) old result (state_of self.new) }
    {
        let Some(receiver) = &self.receiver else {
            return Ok(Answer::Blocked);
        };
        if !meets_where(alloc, spec, op, args.as_slice())? {
            return Ok(Answer::Blocked);
        }
        let number = self.calls + 1;
        let entry = Entry::Call {
            number,
            op,
            args: copy_list(alloc, args)?,
        };
        let first = self.store.fresh();
        let found = called(
            alloc,
            program,
            spec,
            &mut self.store,
            receiver.as_slice(),
            op,
            args.as_slice(),
        )?;
        let Some(thread) = found else {
            return Ok(Answer::Blocked);
        };
        match add_call(&mut self.threads, &mut self.history, number, thread, entry) {
            Ok(()) => {
                self.calls = number;
                Ok(Answer::Next(()))
            }
            Err(_) => {
                self.store.forget_from(first);
                Err(Grow::NoMemory)
            }
        }
    }
}
