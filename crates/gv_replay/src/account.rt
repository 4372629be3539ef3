//! What the lines of a text come to, for any kind of text.

ghost use Rattle.std.specs.Prelude.{◌≡◌, Ok, Result as Answer, IfOk, IfErr};
ghost use Rattle.gv_atomic.specs.declared.spec.Spec.{Spec as Written};
ghost use Rattle.gv_text.specs.Stops.{Fault, StopsAs};
ghost use Rattle.gv_replay.specs.declared.line.Line.{Line as Spelled};
ghost use Rattle.gv_replay.specs.OperationTable.{IsTableOf};
ghost use Rattle.gv_replay.specs.Told as telling;

use crate::line::Line;
use crate::operations::Operations;
use gv_atomic::Spec;
use gv_base::{Code, NoMemory};
use gv_text::Stop;
use std::alloc::Global;

/// An account of the lines of a text, as moves are and the events of a schedule: what a line adds to it, or why the line is
/// refused. This project's own.
pub trait Account: Drop {
    /// The account with one more line, or the line's fault.
    ghost with_line: { Written → Self → Spelled → Answer Self Fault };

    /// The account with one more line.
    fn add(self, alloc: Global, spec: &Spec, table: &Operations, line: &Line) -> Result<Self, Stop>
        requires { IsTableOf spec.now.ops table.now }
        ensures ok { IfOk result (λ t. with_line spec.now self line.now ≡ Ok t) }
        ensures err { IfErr result (StopsAs (with_line spec.now self line.now)) };
}

/// One more line. What comes behind a fault of names, sorts and numbers counts for nothing, but the text may yet be refused
/// for its grammar.
pub fn tell<A: Account>(
    alloc: Global,
    spec: &Spec,
    table: &Operations,
    told: Result<A, (u32, Code)>,
    line: &Line,
) -> Result<Result<A, (u32, Code)>, NoMemory>
    requires { IsTableOf spec.now.ops table.now }
    ensures { IfOk result (λ t. t ≡ telling.tell (A.with_line spec.now) told line.now) }
{
    let account = match told {
        Ok(account) => account,
        Err(fault) => return Ok(Err(fault)),
    };
    match account.add(alloc, spec, table, line) {
        Ok(account) => Ok(Ok(account)),
        Err(Stop::At(at, code)) => Ok(Err((at, code))),
        Err(Stop::NoMemory) => Err(NoMemory),
    }
}

/// A line, where one is done.
pub fn tell_done<A: Account>(
    alloc: Global,
    spec: &Spec,
    table: &Operations,
    told: Result<A, (u32, Code)>,
    done: &Option<Line>,
) -> Result<Result<A, (u32, Code)>, NoMemory>
    requires { IsTableOf spec.now.ops table.now }
    ensures { IfOk result (λ t. t ≡ telling.tell_done (A.with_line spec.now) told done.now) }
{
    match done {
        Some(line) => tell(alloc, spec, table, told, line),
        None => Ok(told),
    }
}
