//! The threads of a run under their numbers.

ghost use Rattle.std.specs.Prelude.{◌≡◌, ◌+◌, ◌<◌, ◌^◌, List, Option, [], ◌∷◌, ◌++◌, suc, length, map, Some, None};
ghost use Rattle.std.specs.Prelude.{IfOk, OnOk, OnErr, IfSome, IsNone, IsSome};
ghost use Rattle.gv_spec.specs.Runs.{Role as Defined, living, replaced, Recovers};
ghost use Rattle.gv_thread.specs.Frames.{thread_of};
ghost use Rattle.gv_machine.specs.Ending.{ComesTo};
ghost use Rattle.gv_machine.specs.Seen.{slot_of, role_of, threads_of, spawned, IsPlace};
ghost use Rattle.gv_lang.specs.Threads as plain;

use crate::ending::{Ending, next_ending};
use crate::running::{Role, Running};
use gv_base::NoMemory;
use gv_thread::Thread;
use std::alloc::Global;

/// The threads under their numbers from 1 on. Those that crashes dropped come first, and nothing but their
/// count is kept; the others are reached in constant time. This project's own.
#[derive(Drop)]
pub struct Threads<'p> {
    pub dropped: u64,
    // a thread, or none where it has ended
    pub slots: Vec<Option<Running<'p>>>,
}

impl<'p> Threads<'p> {
    /// A thread on recovery alone.
    pub fn first(alloc: Global, thread: Thread<'p>) -> Result<Threads<'p>, NoMemory>
        ensures { IfOk result (λ ts. threads_of ts ≡ Some (Recovers, thread_of thread.entry) ∷ []) }
    {
        let mut slots = Vec::new(alloc);
        slots.push(Some(Running {
            role: Role::Recovers,
            thread,
        }))?;
        Ok(Threads { dropped: 0, slots })
    }

    // The slot of a number, where it is behind those of dropped threads.
    fn place(&self, number: u32) -> Option<usize>
        ensures within { IfSome result (λ at. at < length self.now.slots.items) }
        ensures number { IfSome result (λ at. number ≡ suc (self.now.dropped + at)) }
        ensures none { IsNone result → living (threads_of self.now) number ≡ None }
    {
        let number = number as u64;
        if number <= self.dropped {
            return None;
        }
        let at = (number - self.dropped - 1) as usize;
        if at < self.slots.len() {
            Some(at)
        } else {
            None
        }
    }

    /// What the next step of the thread under a number comes to.
    pub fn ending(&self, alloc: Global, number: u32) -> Result<Ending, NoMemory>
        ensures { IfOk result (ComesTo (living (threads_of self.now) number)) }
    {
        let Some(at) = self.place(number) else {
            return Ok(Ending::Gone);
        };
        next_ending(alloc, &self.slots[at])
    }

    /// The thread under a number has ended.
    pub fn end(&mut self, number: u32)
        requires { IsSome (living (threads_of self.old) number) }
        ensures { threads_of self.new ≡ replaced (threads_of self.old) number None }
    {
        let Some(at) = self.place(number) else {
            return;
        };
        self.slots[at] = None;
    }

    /// A new thread, under the next number.
    pub fn start(&mut self, role: Role, thread: Thread<'p>) -> Result<(), NoMemory>
        ensures ok { OnOk result (threads_of self.new ≡ threads_of self.old ++ Some (role_of role, thread_of thread.entry) ∷ []) }
        ensures kept { OnErr result (threads_of self.new ≡ threads_of self.old) }
    {
        self.slots.push(Some(Running { role, thread }))?;
        Ok(())
    }

    /// A slot for a thread that may start.
    pub fn make_room(&mut self) -> Result<(), NoMemory>
        ensures ok { OnOk result (threads_of self.new ≡ threads_of self.old ++ None ∷ []) }
        ensures kept { OnErr result (threads_of self.new ≡ threads_of self.old) }
    {
        self.slots.push(None)?;
        Ok(())
    }

    /// Takes the thread under a number, whose slot is then empty.
    pub fn take(&mut self, number: u32) -> Option<Running<'p>>
        requires { IsSome (living (threads_of self.old) number) }
        ensures thread { slot_of result ≡ living (threads_of self.old) number }
        ensures rest { threads_of self.new ≡ replaced (threads_of self.old) number None }
        ensures place { IsPlace self.new number }
    {
        let Some(at) = self.place(number) else {
            return None;
        };
        std::mem::replace(&mut self.slots[at], None)
    }

    /// Puts a thread back under its number.
    pub fn put(&mut self, number: u32, running: Running<'p>)
        requires { IsPlace self.old number }
        ensures threads { threads_of self.new ≡ replaced (threads_of self.old) number (slot_of (Some running.entry)) }
        ensures place { IsPlace self.new number }
    {
        let at = (number as u64 - self.dropped - 1) as usize;
        self.slots[at] = Some(running);
    }

    /// A thread that started gets the last slot, which is empty, and without one the slot goes.
    pub fn fill(&mut self, started: Option<Thread<'p>>)
        requires { 0 < length self.old.slots.items }
        ensures { (front : List (Option (Defined × plain.Thread)))
            → threads_of self.old ≡ front ++ None ∷ [] → threads_of self.new ≡ front ++ spawned started.entry }
    {
        let last = self.slots.len() - 1;
        match started {
            Some(thread) => {
                self.slots[last] = Some(Running {
                    role: Role::Spawned,
                    thread,
                });
            }
            None => self.slots.truncate(last),
        }
    }

    /// Each thread is dropped, and a new one is on recovery.
    pub fn crash(&mut self, alloc: Global, thread: Thread<'p>) -> Result<(), NoMemory>
        requires { length (threads_of self.old) < 2 ^ 32 }
        ensures ok { OnOk result (threads_of self.new ≡ map (λ _. None) (threads_of self.old) ++ Some (Recovers, thread_of thread.entry) ∷ []) }
        ensures kept { OnErr result (threads_of self.new ≡ threads_of self.old) }
    {
        let mut slots = Vec::new(alloc);
        slots.push(Some(Running {
            role: Role::Recovers,
            thread,
        }))?;
        self.dropped += self.slots.len() as u64;
        self.slots = slots;
        Ok(())
    }
}
