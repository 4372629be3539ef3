//! What came of a command, as what comes after a step.

ghost use Rattle.std.specs.Prelude.{◌≡◌, Ok};
ghost use Rattle.gv_steps.specs.Outcomes as outcomes;

use crate::after::After;
use gv_base::{Answer, NoMemory, Val};
use gv_store::Grow;
use gv_thread::Thread;

/// The thread goes on, and no other one starts, where the command's step was a next one.
/// This project's own.
pub fn gone<'p>(answer: Answer<()>) -> Result<Answer<After<'p>>, Grow>
    ensures { result ≡ Ok (outcomes.gone answer) }
{
    match answer {
        Answer::Next(()) => Ok(Answer::Next(After::GoesOn(None))),
        Answer::Blocked => Ok(Answer::Blocked),
        Answer::Undefined(reason) => Ok(Answer::Undefined(reason)),
    }
}

/// The same of a command that the store may refuse. This project's own.
pub fn gone_within<'p>(got: Result<Answer<()>, Grow>) -> Result<Answer<After<'p>>, Grow>
    ensures { result ≡ outcomes.gone_within got }
{
    match got {
        Ok(answer) => gone(answer),
        Err(grow) => Err(grow),
    }
}

/// The same of a command that wants memory. This project's own.
pub fn gone_in_memory<'p>(got: Result<Answer<()>, NoMemory>) -> Result<Answer<After<'p>>, Grow>
    ensures { result ≡ outcomes.gone_in_memory got }
{
    match got {
        Ok(answer) => gone(answer),
        Err(NoMemory) => Err(Grow::NoMemory),
    }
}

/// The thread goes on, and another one starts. This project's own.
pub fn begun_in_memory<'p>(
    got: Result<Answer<Thread<'p>>, NoMemory>,
) -> Result<Answer<After<'p>>, Grow>
    ensures { result ≡ outcomes.begun_in_memory got.entry }
{
    match got {
        Ok(Answer::Next(started)) => Ok(Answer::Next(After::GoesOn(Some(started)))),
        Ok(Answer::Blocked) => Ok(Answer::Blocked),
        Ok(Answer::Undefined(reason)) => Ok(Answer::Undefined(reason)),
        Err(NoMemory) => Err(Grow::NoMemory),
    }
}

/// The thread goes on in the frame below, or it has ended with these. This project's own.
pub fn given_back_in_memory<'p>(
    got: Result<Answer<Option<Vec<Val>>>, NoMemory>,
) -> Result<Answer<After<'p>>, Grow>
    ensures { result ≡ outcomes.given_back_in_memory got }
{
    match got {
        Ok(Answer::Next(None)) => Ok(Answer::Next(After::GoesOn(None))),
        Ok(Answer::Next(Some(values))) => Ok(Answer::Next(After::Returns(values))),
        Ok(Answer::Blocked) => Ok(Answer::Blocked),
        Ok(Answer::Undefined(reason)) => Ok(Answer::Undefined(reason)),
        Err(NoMemory) => Err(Grow::NoMemory),
    }
}
