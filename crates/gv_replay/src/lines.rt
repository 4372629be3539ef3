//! The lines of a text, one after another.

ghost use Rattle.std.specs.Prelude.{◌≡◌, IfOk};
ghost use Rattle.gv_replay.specs.Lines as spec;

use crate::line::{Line, TextKind};
use crate::part::{Part, first, line_of, next};
use crate::sight::Sight;
use gv_base::NoMemory;
use std::alloc::Global;

/// What one more token comes to: the line before it, where it begins a line behind another, and the front of the line
/// up to it. This project's own.
#[derive(Debug, Drop)]
pub struct Step {
    pub done: Option<Line>,
    pub part: Part,
}

/// One more token of a text, where it may stand there: it goes on with the line, or it begins a line, and the one
/// before it is done.
pub fn stepped(
    alloc: Global,
    kind: TextKind,
    current: Option<Part>,
    sight: Sight,
) -> Result<Option<Step>, NoMemory>
    ensures { IfOk result (λ s. s ≡ spec.stepped kind current sight) }
{
    let Some(part) = current else {
        return Ok(begun(alloc, kind, None, sight));
    };
    if sight.starts {
        return Ok(match line_of(alloc, part)? {
            Some(line) => turned(alloc, kind, line, sight),
            None => None,
        });
    }
    match next(alloc, part, sight)? {
        Some(part) => Ok(Some(Step { done: None, part })),
        None => Ok(None),
    }
}

fn begun(alloc: Global, kind: TextKind, done: Option<Line>, sight: Sight) -> Option<Step>
    ensures { result ≡ spec.begun kind done sight }
{
    match first(alloc, kind, sight) {
        Some(part) => Some(Step { done, part }),
        None => None,
    }
}

fn turned(alloc: Global, kind: TextKind, line: Line, sight: Sight) -> Option<Step>
    ensures { result ≡ spec.turned kind line sight }
{
    match line {
        Line::End => None,
        _ => begun(alloc, kind, Some(line), sight),
    }
}
