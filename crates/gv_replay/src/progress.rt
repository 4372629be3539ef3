//! How far the pass over a text has come.

ghost use Rattle.std.specs.Prelude.{◌≡◌, Ok, IfOk, IfErr};
ghost use Rattle.gv_text.specs.Stops.{StopsAs};
ghost use Rattle.gv_replay.specs.OperationTable.{IsTableOf};
ghost use Rattle.gv_replay.specs.Progress as pass;

use crate::account::{Account, tell, tell_done};
use crate::line::TextKind;
use crate::lines::{Step, stepped};
use crate::operations::Operations;
use crate::part::{Part, line_of};
use crate::sight::{Sight, code_of};
use gv_atomic::Spec;
use gv_base::Code;
use gv_text::Stop;
use std::alloc::Global;

/// The prefix of the line that is being read, if one has been begun, and what the lines before it have come to, or their
/// first fault of names, sorts and numbers. This project's own.
#[derive(Debug, Drop)]
pub struct Progress<A> {
    pub current: Option<Part>,
    pub told: Result<A, (u32, Code)>,
}

/// No token has been read.
pub fn beginning<A: Account>(start: A) -> Progress<A>
    ensures { result ≡ pass.beginning start }
{
    Progress {
        current: None,
        told: Ok(start),
    }
}

/// One more token.
pub fn take<A: Account>(
    alloc: Global,
    spec: &Spec,
    table: &Operations,
    kind: TextKind,
    progress: Progress<A>,
    sight: Sight,
) -> Result<Progress<A>, Stop>
    requires { IsTableOf spec.now.ops table.now }
    ensures ok { IfOk result (λ p. pass.taken (A.with_line spec.now) kind progress sight ≡ Ok p) }
    ensures err { IfErr result (StopsAs (pass.taken (A.with_line spec.now) kind progress sight)) }
{
    let Progress { current, told } = progress;
    let at = sight.at;
    let code = code_of(&sight.what);
    match stepped(alloc, kind, current, sight)? {
        Some(Step { done, part }) => Ok(Progress {
            current: Some(part),
            told: tell_done(alloc, spec, table, told, &done)?,
        }),
        None => Err(Stop::At(at, code)),
    }
}

/// The end of the text, which is at this byte.
pub fn finish<A: Account>(
    alloc: Global,
    spec: &Spec,
    table: &Operations,
    progress: Progress<A>,
    end: u32,
) -> Result<Result<A, (u32, Code)>, Stop>
    requires { IsTableOf spec.now.ops table.now }
    ensures ok { IfOk result (λ t. pass.finished (A.with_line spec.now) end progress ≡ Ok t) }
    ensures err { IfErr result (StopsAs (pass.finished (A.with_line spec.now) end progress)) }
{
    let Progress { current, told } = progress;
    let Some(part) = current else {
        return Ok(told);
    };
    match line_of(alloc, part)? {
        Some(line) => Ok(tell(alloc, spec, table, told, &line)?),
        None => Err(Stop::At(end, Code::EndOfText)),
    }
}
