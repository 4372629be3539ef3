//! Steps that end their threads.

ghost use Rattle.std.specs.Prelude.{◌≡◌, true, IsSome};
ghost use Rattle.gv_spec.specs.Runs.{living, thread_ended, frame_returned};
ghost use Rattle.gv_runs.specs.Machine.{Setting, machine_of};
ghost use Rattle.gv_world.specs.Store.{is_within_limit};
ghost use Rattle.gv_lang.specs.Tree.{Program as Plain};
ghost use Rattle.gv_machine.specs.Outcomes.{Makes};
ghost use Rattle.gv_machine.specs.Seen.{role_of, state_of};

use crate::replies::reply;
use crate::run::Run;
use crate::running::Role;
use gv_base::{Answer, Val};
use gv_spec::Entry;
use gv_store::Grow;
use std::alloc::Global;

impl Run<'_> {
    /// The thread under a number has returned these values from its first frame, and ends: recovery boots the run,
    /// and a call is answered.
    pub fn end(
        &mut self,
        alloc: Global,
        number: u32,
        role: Role,
        values: Vec<Val>,
    ) -> Result<Answer<()>, Grow>
        requires there { IsSome (living (state_of self.old).threads number) }
        requires within { is_within_limit (state_of self.old).world ≡ true }
        ensures { (g : Plain) (setting : Setting) → let old = state_of self.old in
            Makes (frame_returned (machine_of g setting) (thread_ended old number old.world) (role_of role) values.items) old result (state_of self.new) }
    {
        match role {
            Role::Recovers => {
                self.history.push(Entry::Boot)?;
                self.receiver = Some(values);
            }
            Role::Answers(call) => match reply(alloc, &self.store, values.as_slice())? {
                Ok(value) => self.history.push(Entry::Answer {
                    number: call,
                    reply: value,
                })?,
                Err(reason) => return Ok(Answer::Undefined(reason)),
            },
            Role::Spawned => {}
        }
        self.threads.end(number);
        Ok(Answer::Next(()))
    }
}
