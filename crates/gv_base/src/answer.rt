//! What comes of asking a machine for a step.

use crate::reason::Reason;

/// What comes of asking for a step: its outcome, or that it can't be taken now, or that it is
/// undefined and why. This project's own.
#[derive(Debug, PartialEq, Eq, Drop)]
pub enum Answer<T> {
    Next(T),
    Blocked,
    Undefined(Reason),
}
