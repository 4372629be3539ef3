//! The outcome of a command line and its files.

ghost use Rattle.std.specs.Prelude.{◌≡◌};
ghost use Rattle.gv_report.specs.Report.{status_of};

use crate::made::Made;
use crate::ran::Ran;
use gv_base::{Code, List, Name, Place};
use gv_certs::Cause;
use gv_history::WalkCause;

/// The outcome of a command line and its files. This project's own.
#[derive(Debug, Drop)]
pub enum Report {
    /// The words are no command.
    Usage,
    /// Memory was refused.
    OutOfMemory,
    /// A file could not be fetched.
    CannotRead {
        name: Name,
    },
    /// A file's text isn't of its form, or disagrees with the file before it.
    Refused {
        name: Name,
        place: Place,
        code: Code,
    },
    /// The first command of the script that isn't justified.
    Unjustified {
        place: Place,
        cause: Cause,
    },
    /// The package refines the specification in every run, with crashes and failing disks in it.
    Accepted,
    /// The package refines the specification in every run without a crash.
    AcceptedWithoutCrash,
    /// The moves explain the history.
    Explained,
    /// The first move that is refused, counted from 1, or one past the last one, where history is left.
    NotExplained {
        at: u32,
        cause: WalkCause,
    },
    /// The lines of the history that a schedule came to, and the event that was undefined, if one was.
    Ran(Ran),
    /// The moves that explain a history, a line each.
    Moves {
        lines: List<Name>,
    },
    /// Nothing explains the history.
    NoExplanation,
    /// So many nodes of the search for an explanation are spent, and none of them is one.
    Spent {
        most: u64,
    },
    /// The points of a package's procedures, a line each.
    Points {
        lines: List<Name>,
    },
    /// Texts were made, which are accepted.
    Made(Made),
}

impl Report {
    /// The status that the program ends with where the report is written, from 0 to 5, 7 or 8.
    pub fn status(&self) -> u8
        ensures { result ≡ status_of self.now }
    {
        match self {
            Report::Accepted | Report::AcceptedWithoutCrash | Report::Explained => 0,
            Report::Moves { .. } | Report::Points { .. } | Report::Made(_) => 0,
            Report::Unjustified { .. } | Report::NotExplained { .. } => 1,
            Report::NoExplanation => 1,
            Report::Usage => 2,
            Report::CannotRead { .. } => 3,
            Report::Refused { .. } => 4,
            Report::OutOfMemory => 5,
            Report::Spent { .. } => 7,
            Report::Ran(ran) => ran.status(),
        }
    }
}
