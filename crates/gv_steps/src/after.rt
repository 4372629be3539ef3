//! What a step of a thread hands out.

use gv_base::Val;
use gv_thread::Thread;

/// What comes after a step: the thread goes on, with the thread that it started, if it did; or it has ended,
/// and these are the values that its first frame returned. This project's own.
#[derive(Drop)]
pub enum After<'p> {
    GoesOn(Option<Thread<'p>>),
    Returns(Vec<Val>),
}
