//! Steps after which their threads go on.

ghost use Rattle.std.specs.Prelude.{◌≡◌, true};
ghost use Rattle.gv_lang.specs.Plain.{program_of};
ghost use Rattle.gv_spec.specs.Runs.{living, step_made};
ghost use Rattle.gv_runs.specs.Machine.{Setting, machine_of};
ghost use Rattle.gv_machine.specs.Bounded.{is_bounded};
ghost use Rattle.gv_machine.specs.Ending.{GoesOn};
ghost use Rattle.gv_machine.specs.Going.{answer_of, started_by};
ghost use Rattle.gv_machine.specs.Outcomes.{Makes};
ghost use Rattle.gv_machine.specs.Seen.{state_of};

use crate::run::Run;
use gv_base::{Answer, Reason};
use gv_lang::Program;
use gv_steps::{After, step};
use gv_store::Grow;
use gv_thread::Thread;
use std::alloc::Global;

// A step's answer, and the thread that it started, if it did.
fn parted<'p>(
    stepped: Result<Answer<After<'p>>, Grow>,
) -> (Result<Answer<()>, Grow>, Option<Thread<'p>>)
    ensures answer { result.0 ≡ answer_of stepped.entry }
    ensures started { result.1 ≡ started_by stepped.entry }
{
    match stepped {
        Ok(Answer::Next(After::GoesOn(started))) => (Ok(Answer::Next(())), started),
        Ok(Answer::Next(After::Returns(_))) => (Ok(Answer::Next(())), None),
        Ok(Answer::Blocked) => (Ok(Answer::Blocked), None),
        Ok(Answer::Undefined(reason)) => (Ok(Answer::Undefined(reason)), None),
        Err(grow) => (Err(grow), None),
    }
}

impl<'p> Run<'p> {
    /// A step of the thread under a number, which doesn't end with it.
    pub fn go_on(
        &mut self,
        alloc: Global,
        program: &'p Program,
        number: u32,
        extra: u64,
    ) -> Result<Answer<()>, Grow>
        requires goes { GoesOn (living (state_of self.old).threads number) }
        requires bounded { is_bounded (state_of self.old) ≡ true }
        ensures { (setting : Setting) → let machine = machine_of (program_of program.now) setting in let old = state_of self.old in
            Makes (step_made machine old number extra (living old.threads number)) old result (state_of self.new) }
    {
        self.threads.make_room()?;
        let Some(mut running) = self.threads.take(number) else {
            return Ok(Answer::Undefined(Reason::Kind));
        };
        let stepped = step(&mut running.thread, &mut self.store, alloc, program, extra);
        self.threads.put(number, running);
        let (answer, started) = parted(stepped);
        self.threads.fill(started);
        answer
    }
}
