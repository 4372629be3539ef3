//! Threads that have not ended, with what they are there for.

use gv_thread::Thread;

/// What a thread is there for: it runs recovery, it answers the call under a number, or another thread
/// started it. This project's own.
#[derive(Clone, Copy, Debug, PartialEq, Eq)]
pub enum Role {
    Recovers,
    Answers(u32),
    Spawned,
}

/// A thread that has not ended. This project's own.
#[derive(Drop)]
pub struct Running<'p> {
    pub role: Role,
    pub thread: Thread<'p>,
}
