//! What comes of an event.

use gv_base::Reason;

/// What comes of an event: it happened; it isn't possible now; it is undefined, and why; it would leave more
/// than 2^24 live cells; or memory was refused. This project's own.
#[derive(Clone, Copy, Debug, PartialEq, Eq)]
pub enum Outcome {
    Done,
    Blocked,
    Undefined(Reason),
    TooMany,
    NoMemory,
}
