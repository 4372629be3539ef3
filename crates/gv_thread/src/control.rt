//! Steps of control.

ghost use Rattle.std.specs.Prelude.{◌≡◌, Some, true, IfOk, OnErr, cond};
ghost use Rattle.gv_lang.specs.Plain.{tree_of, expr_of};
ghost use Rattle.gv_lang.specs.Todo.{head};
ghost use Rattle.gv_lang.specs.Values.{value};
ghost use Rattle.gv_thread.specs.Parts.{todo_of};
ghost use Rattle.gv_thread.specs.Frames.{thread_of};
ghost use Rattle.gv_thread.specs.Control.{is_control, truth_in, Turns};

use crate::evaluation::value;
use crate::frame::Thread;
use gv_base::{Answer, NoMemory, Reason, Val};
use gv_lang::{Cmd, Pure};

// The value of a condition, where it is a truth value.
fn truth(locals: &[Val], e: &Pure) -> Option<bool>
    ensures { result ≡ truth_in (value locals.now (expr_of e.now)) }
{
    match value(locals, e) {
        Some(Val::Bool(b)) => Some(b),
        _ => None,
    }
}

fn chosen<'p>(b: bool, then: &'p [Cmd], other: &'p [Cmd]) -> &'p [Cmd]
    ensures { result.now ≡ cond b then.now other.now }
{
    if b { then } else { other }
}

impl<'p> Thread<'p> {
    /// The step of a thread whose next command is this one, an If, a Loop, a Break or a Continue.
    #[tactic(auto, using(gv_lang::proofs::Trees::commands))]
    pub fn turn(&mut self, c: &'p Cmd) -> Result<Answer<()>, NoMemory>
        requires next { head (todo_of self.old.top.todo) ≡ Some (tree_of c.now) }
        requires control { is_control (tree_of c.now) ≡ true }
        ensures ok { IfOk result (λ answer. Turns (thread_of self.old) answer (thread_of self.new)) }
        ensures kept { OnErr result (thread_of self.new ≡ thread_of self.old) }
    {
        match c {
            Cmd::If { e, then, other, .. } => {
                let Some(b) = truth(self.top.locals.as_slice(), e) else {
                    return Ok(Answer::Undefined(Reason::Kind));
                };
                let block = chosen(b, then.as_slice(), other.as_slice());
                self.top.todo.take(block)?;
                self.begun = false;
                Ok(Answer::Next(()))
            }
            Cmd::Loop { body, .. } => {
                self.top.todo.enter(body.as_slice())?;
                self.begun = false;
                Ok(Answer::Next(()))
            }
            Cmd::Break { .. } => {
                if !self.top.todo.leave() {
                    return Ok(Answer::Undefined(Reason::Kind));
                }
                self.begun = false;
                Ok(Answer::Next(()))
            }
            Cmd::Continue { .. } => {
                if !self.top.todo.repeat()? {
                    return Ok(Answer::Undefined(Reason::Kind));
                }
                self.begun = false;
                Ok(Answer::Next(()))
            }
            Cmd::Let { .. } | Cmd::Div { .. } | Cmd::Rem { .. } | Cmd::New { .. } => Ok(
                Answer::Undefined(Reason::Kind),
            ),
            Cmd::Load { .. } | Cmd::Store { .. } | Cmd::MakeSlice { .. } => Ok(Answer::Undefined(
                Reason::Kind,
            )),
            Cmd::At { .. } | Cmd::Put { .. } | Cmd::Len { .. } | Cmd::NewMap { .. } => Ok(
                Answer::Undefined(Reason::Kind),
            ),
            Cmd::MapGet { .. } | Cmd::MapPut { .. } | Cmd::MapDelete { .. } => Ok(Answer::Undefined(
                Reason::Kind,
            )),
            Cmd::NewMutex { .. } | Cmd::Lock { .. } | Cmd::Unlock { .. } => Ok(Answer::Undefined(
                Reason::Kind,
            )),
            Cmd::DiskRead { .. } | Cmd::DiskRead2 { .. } => Ok(Answer::Undefined(Reason::Kind)),
            Cmd::DiskWrite { .. } | Cmd::DiskSize { .. } => Ok(Answer::Undefined(Reason::Kind)),
            Cmd::Get64 { .. } | Cmd::Put64 { .. } | Cmd::Sub { .. } => Ok(Answer::Undefined(
                Reason::Kind,
            )),
            Cmd::Append { .. } | Cmd::Call { .. } | Cmd::Spawn { .. } => Ok(Answer::Undefined(
                Reason::Kind,
            )),
            Cmd::Return { .. } => Ok(Answer::Undefined(Reason::Kind)),
        }
    }
}
