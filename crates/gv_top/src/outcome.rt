//! What comes of a command, and the report that tells it.

ghost use Rattle.std.specs.Prelude.{◌≡◌};
ghost use Rattle.gv_report.specs.declared.report.Report.{Report as ReportForm};
ghost use Rattle.gv_top.specs.Outcome.{halt_report, reported};

use crate::files::Halt;
use gv_report::Report;

/// What comes of a command whose files are all read. This project's own.
pub trait Outcome {
    /// The report that tells it.
    ghost report_of: { Self → ReportForm };

    /// The report that tells it.
    fn report(self) -> Report
        ensures { result ≡ report_of self };
}

impl Halt {
    // The report that tells it.
    fn report(self) -> Report
        ensures { result ≡ halt_report self }
    {
        match self {
            Halt::NoMemory => Report::OutOfMemory,
            Halt::CannotRead { name } => Report::CannotRead { name },
            Halt::Refused { name, place, code } => Report::Refused { name, place, code },
        }
    }
}

/// The report of what came of a command.
pub fn told<O: Outcome>(outcome: Result<O, Halt>) -> Report
    ensures { result ≡ reported O.report_of outcome }
{
    match outcome {
        Ok(outcome) => outcome.report(),
        Err(halt) => halt.report(),
    }
}
