//! What a whole line says.

use crate::argument::{Argument, Number};
use gv_base::{List, Name};

/// Which kind of text lines stand in. This project's own.
#[derive(Clone, Copy, Debug, PartialEq, Eq)]
pub enum TextKind {
    History,
    Moves,
    Schedule,
}

/// A line `call K OP ARGS`, which has no K in a schedule: the bytes at which the word `call` and the name of the operation
/// stand, and the parts.
#[derive(Debug, Drop)]
pub struct CallLine {
    pub at: u32,
    pub number: Option<Number>,
    pub op_at: u32,
    pub op: Name,
    pub args: List<Argument>,
}

/// A line, by its first word, which in lines of schedules stands at the byte `at`. This project's own.
#[derive(Debug, Drop)]
pub enum Line {
    Call(CallLine),
    Answer {
        number: Number,
        reply: Option<Argument>,
    },
    Act {
        number: Number,
        choices: List<u64>,
    },
    Crash {
        at: u32,
    },
    Boot {
        choices: List<u64>,
    },
    End,
    Step {
        at: u32,
        thread: Number,
        count: Option<Number>,
    },
    Fail {
        at: u32,
        disk: Number,
    },
    Grow {
        at: u32,
        thread: Number,
        extra: Number,
    },
}
