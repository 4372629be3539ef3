//! A run as it stands.

ghost use Rattle.std.specs.Prelude.{◌≡◌, ◌-◌, ◌<◌, ◌^◌, true, length, Ok, IfOk};
ghost use Rattle.gv_lang.specs.Plain.{program_of};
ghost use Rattle.gv_spec.specs.Atomic.{atomic_of};
ghost use Rattle.gv_spec.specs.History.{IsEventOf, event_of};
ghost use Rattle.gv_spec.specs.Runs.{living, first_state, crash_made, call_made, disk_failed, step_made, event_made, outcome_of};
ghost use Rattle.gv_base.specs.declared.answer.Answer.TheVariants.{Next};
ghost use Rattle.gv_runs.specs.Machine.{Setting, machine_of, setting_of, possible};
ghost use Rattle.gv_world.specs.Disks.{fail_disk};
ghost use Rattle.gv_world.specs.Store.{is_within_limit};
ghost use Rattle.gv_machine.specs.Bounded.{is_bounded};
ghost use Rattle.gv_machine.specs.Outcomes.{Comes, Makes};
ghost use Rattle.gv_machine.specs.Seen.{state_of};

mod calling;
mod going;
mod returning;

use crate::calls::recovery;
use crate::ending::Ending;
use crate::outcome::Outcome;
use crate::threads::Threads;
use gv_atomic::Spec;
use gv_base::{Answer, NoMemory, Reason, Val};
use gv_lang::Program;
use gv_spec::{Entry, Event};
use gv_store::{Grow, Store};
use std::alloc::Global;

/// A run as it stands, which contracts see as a state of the definitions. This project's own.
#[derive(Drop)]
pub struct Run<'p> {
    pub store: Store,
    // what the last recovery returned
    pub receiver: Option<Vec<Val>>,
    pub threads: Threads<'p>,
    pub calls: u32,
    pub history: Vec<Entry>,
    pub fault: Option<Reason>,
}

impl<'p> Run<'p> {
    /// The first state of a run.
    pub fn start(alloc: Global, program: &'p Program, spec: &Spec) -> Result<Run<'p>, NoMemory>
        ensures { IfOk result (λ run. state_of run ≡ first_state (machine_of (program_of program.now) (setting_of spec.now))) }
    {
        let thread = recovery(alloc, program)?;
        Ok(Run {
            store: Store::new(alloc, spec.disks, spec.blocks)?,
            receiver: None,
            threads: Threads::first(alloc, thread)?,
            calls: 0,
            history: Vec::new(alloc),
            fault: None,
        })
    }

    /// An event. Where it is undefined, the reason is kept, and nothing is possible from then on.
    pub fn event(&mut self, alloc: Global, program: &'p Program, spec: &Spec, e: &Event) -> Outcome
        requires of_spec { IsEventOf spec.now e.now }
        requires bounded { is_bounded (state_of self.old) ≡ true }
        requires calls { (state_of self.old).calls < 2 ^ 32 - 1 }
        requires threads { length (state_of self.old).threads < 2 ^ 32 }
        ensures event { let wanted = outcome_of (machine_of (program_of program.now) (setting_of spec.now)) (atomic_of spec.now).allows in
            Comes (wanted (state_of self.old) (event_of e.now)) (state_of self.old) result (state_of self.new) }
    {
        if self.fault.is_some() {
            return Outcome::Blocked;
        }
        match self.make(alloc, program, spec, e) {
            Ok(Answer::Next(())) => Outcome::Done,
            Ok(Answer::Blocked) => Outcome::Blocked,
            Ok(Answer::Undefined(reason)) => {
                self.fault = Some(reason);
                Outcome::Undefined(reason)
            }
            Err(Grow::TooMany) => Outcome::TooMany,
            Err(Grow::NoMemory) => Outcome::NoMemory,
        }
    }

    // An event of a run without an undefined step.
    fn make(
        &mut self,
        alloc: Global,
        program: &'p Program,
        spec: &Spec,
        e: &Event,
    ) -> Result<Answer<()>, Grow>
        requires of_spec { IsEventOf spec.now e.now }
        requires bounded { is_bounded (state_of self.old) ≡ true }
        requires calls { (state_of self.old).calls < 2 ^ 32 - 1 }
        requires threads { length (state_of self.old).threads < 2 ^ 32 }
        ensures { let wanted = event_made (machine_of (program_of program.now) (setting_of spec.now)) (atomic_of spec.now).allows in
            Makes (wanted (state_of self.old) (event_of e.now)) (state_of self.old) result (state_of self.new) }
    {
        match e {
            Event::Call { op, args } => self.call(alloc, program, spec, *op, args),
            Event::Step { thread, extra } => self.step(alloc, program, *thread, *extra),
            Event::Crash => self.crash(alloc, program),
            Event::Fail { disk } => Ok(self.fail(*disk)),
        }
    }

    // A crash: the store drops its objects, and each thread is dropped, before a new one is on recovery.
    fn crash(&mut self, alloc: Global, program: &'p Program) -> Result<Answer<()>, Grow>
        requires { length (state_of self.old).threads < 2 ^ 32 }
        ensures { (setting : Setting) → let machine = machine_of (program_of program.now) setting in
            Makes (Next (crash_made machine (state_of self.old))) (state_of self.old) result (state_of self.new) }
    {
        let thread = recovery(alloc, program)?;
        self.history.push(Entry::Crash)?;
        match self.threads.crash(alloc, thread) {
            Ok(()) => {
                self.store.crash();
                self.receiver = None;
                Ok(Answer::Next(()))
            }
            Err(_) => {
                let _ = self.history.pop();
                Err(Grow::NoMemory)
            }
        }
    }

    // The failure of a disk.
    fn fail(&mut self, disk: u32) -> Answer<()>
        requires { is_within_limit (state_of self.old).world ≡ true }
        ensures { let old = state_of self.old in
            Makes (disk_failed old (possible (fail_disk old.world disk))) old (Ok result) (state_of self.new) }
    {
        match self.store.fail_disk(disk) {
            Answer::Next(()) => Answer::Next(()),
            Answer::Blocked | Answer::Undefined(_) => Answer::Blocked,
        }
    }

    // A step of the thread under a number.
    fn step(
        &mut self,
        alloc: Global,
        program: &'p Program,
        number: u32,
        extra: u64,
    ) -> Result<Answer<()>, Grow>
        requires { is_bounded (state_of self.old) ≡ true }
        ensures { (setting : Setting) → let machine = machine_of (program_of program.now) setting in let old = state_of self.old in
            Makes (step_made machine old number extra (living old.threads number)) old result (state_of self.new) }
    {
        match self.threads.ending(alloc, number)? {
            Ending::Gone => Ok(Answer::Blocked),
            Ending::GoesOn => self.go_on(alloc, program, number, extra),
            Ending::Ends(role, found) => match found {
                Some(values) => self.end(alloc, number, role, values),
                None => Ok(Answer::Undefined(Reason::Kind)),
            },
        }
    }
}
