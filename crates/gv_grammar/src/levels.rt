//! Levels of nesting, by marks among the acts.
ghost use Rattle.std.specs.Prelude.{◌≡◌, [], IfOk};
ghost use Rattle.gv_grammar.specs.Levels.{deep_from, IsDeepBefore};

use crate::steps::Step;
use std::alloc::{AllocError, Global};

/// The next token opens a level.
pub const OPEN: u8 = 0;

/// What is opened from here on is given back at the RESTORE that goes with it.
pub const SAVE: u8 = 1;

pub const RESTORE: u8 = 2;

/// The last token taken has opened a level, as the next token shows.
pub const OPEN_BEFORE: u8 = 3;

/// The first number of an act that is no mark.
pub const FIRST_ACT: u8 = 4;

/// The first token that opens a level above `limit`, where `level` levels are open before the steps.
pub fn first_deep(
    alloc: Global,
    steps: &[Step],
    level: u32,
    limit: u32,
) -> Result<Option<usize>, AllocError>
    ensures { IfOk result (λ found. found ≡ deep_from limit level [] 0 steps.now) }
{
    let mut level = level;
    let mut saved: Vec<u32> = Vec::new(alloc);
    let mut at = 0usize;
    for step in steps {
        match step {
            Step::Take => at += 1,
            Step::Do(act) => match *act {
                OPEN if level >= limit => return Ok(Some(at)),
                OPEN_BEFORE if level >= limit => return Ok(Some(at.saturating_sub(1))),
                OPEN | OPEN_BEFORE => level += 1,
                SAVE => saved.push(level)?,
                RESTORE => level = saved.pop().unwrap_or(level),
                _ => {}
            },
        }
    }
    Ok(None)
}

/// The first token before `end` that opens a level above `limit`.
pub(crate) fn deep_before(
    alloc: Global,
    steps: &[Step],
    level: u32,
    limit: u32,
    end: usize,
) -> Result<Option<usize>, AllocError>
    ensures { IfOk result (λ found. IsDeepBefore end (deep_from limit level [] 0 steps.now) found) }
{
    match first_deep(alloc, steps, level, limit)? {
        Some(at) if at < end => Ok(Some(at)),
        _ => Ok(None),
    }
}
