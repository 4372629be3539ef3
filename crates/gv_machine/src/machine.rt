//! The machine of a package.

ghost use Rattle.std.specs.Prelude.{◌≡◌, true};
ghost use Rattle.gv_machine.specs.Bounded.{is_bounded, IsNumbered};
ghost use Rattle.gv_machine.specs.Seen.{state_of};

use crate::outcome::Outcome;
use crate::run::Run;
use gv_atomic::Spec;
use gv_base::{List, NoMemory};
use gv_lang::Program;
use gv_spec::{Entry, Event};
use gv_steps::bounds;
use std::alloc::Global;

/// The machine of a program in the setting of a specification, as it stands after some events. It borrows both.
/// Contracts see it as a state of the definition's run. This project's own.
#[derive(Drop)]
pub struct Machine<'p> {
    program: &'p Program,
    spec: &'p Spec,
    run: Run<'p>,
    ghost bounded: { is_bounded (state_of run) ≡ true },
    ghost numbered: { IsNumbered (state_of run) },
}

impl<'p> Machine<'p> {
    ghost use Rattle.std.specs.Prelude.{◌+◌, ◌≤◌, ◌<◌, ◌^◌, IfOk, length, map};
    ghost use Rattle.gv_spec.specs.History.{IsEventOf, entry_of};
    ghost use Rattle.gv_spec.specs.Runs.{first_state};
    ghost use Rattle.gv_machine.specs.Machines.{program_in, spec_in, state_in, machine_in, wanted};
    ghost use Rattle.gv_machine.specs.Outcomes.{Comes};

    /// The machine before any event: its disks are zero, and a thread is about to run recovery. Whatever the
    /// program and the specification are, it runs as the definition says; where their interfaces disagree some
    /// calls are never possible.
    pub fn start(
        alloc: Global,
        program: &'p Program,
        spec: &'p Spec,
    ) -> Result<Machine<'p>, NoMemory>
        ensures program { IfOk result (λ m. program_in m ≡ program.now) }
        ensures spec { IfOk result (λ m. spec_in m ≡ spec.now) }
        ensures state { IfOk result (λ m. state_in m ≡ first_state (machine_in m)) }
    {
        bounds();
        let run = Run::start(alloc, program, spec)?;
        Ok(Machine { program, spec, run })
    }

    /// One event. Where it isn't possible, would leave too many live cells or memory is refused, nothing changes.
    /// After an undefined one every event is blocked. A call's operation and arguments are those of the
    /// specification. An event starts one thread at most.
    pub fn event(&mut self, alloc: Global, e: &Event) -> Outcome
        requires of_spec { IsEventOf (spec_in self.old) e.now }
        requires few { length (state_in self.old).threads < 2 ^ 32 }
        ensures event { Comes (wanted self.old e.now) (state_in self.old) result (state_in self.new) }
        ensures threads { length (state_in self.new).threads ≤ length (state_in self.old).threads + 1 }
        ensures program { program_in self.new ≡ program_in self.old }
        ensures spec { spec_in self.new ≡ spec_in self.old }
    {
        bounds();
        self.run.event(alloc, self.program, self.spec, e)
    }

    /// The history so far.
    pub fn history(&self) -> &Vec<Entry>
        ensures { map entry_of result.now.items ≡ (state_in self.now).history }
    {
        &self.run.history
    }

    /// The history so far, handed on.
    pub fn into_history(self) -> List<Entry>
        ensures { map entry_of result ≡ (state_in self.entry).history }
    {
        let Machine {
            program: _,
            spec: _,
            run,
        } = self;
        let Run {
            store: _,
            receiver: _,
            threads: _,
            calls: _,
            history,
            fault: _,
        } = run;
        List::from_vec(history)
    }
}
