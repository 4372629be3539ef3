//! The text of a report.

ghost use Rattle.std.specs.Prelude.{◌≡◌, IfOk};
ghost use Rattle.gv_report.specs.Report as spec;
ghost use Rattle.gv_report.specs.declared.report.Report.{Report as ReportForm};

use crate::judged::{NO_EXPLANATION, spent_text};
use crate::ran::lines_text;
use crate::report::Report;
use gv_base::{Code, Name, NoMemory, Place};
use gv_certs::Cause;
use gv_history::WalkCause;
use std::alloc::Global;

/// The usage line.
pub const USAGE: &[u8] =
    b"usage: goosecheck check PKG SPEC SCRIPT, replay PKG SPEC SCHEDULE, explain SPEC HISTORY MOVES, points PKG, gen NUMBER, judge SPEC HISTORY MOST, each with or without json\n";

/// The line where memory was refused.
pub const OUT_OF_MEMORY: &[u8] = b"out of memory\n";

fn unjustified(alloc: Global, place: Place, cause: Cause) -> Result<Vec<u8>, NoMemory>
    ensures { IfOk result (λ v. v.items ≡ spec.text_of (ReportForm.Unjustified place cause)) }
{
    let mut text = Vec::from_slice(alloc, b"unjustified ")?;
    let rest = format!(in alloc; "{}:{} {}\n", place.line, place.column, cause.name())?;
    text.extend_from_slice(rest.as_bytes())?;
    Ok(text)
}

fn unread(alloc: Global, name: &Name) -> Result<Vec<u8>, NoMemory>
    ensures { IfOk result (λ v. v.items ≡ spec.text_of (ReportForm.CannotRead name.now)) }
{
    let mut text = Vec::from_slice(alloc, b"cannot read ")?;
    text.extend_from_slice(name.as_slice())?;
    text.push(b'\n')?;
    Ok(text)
}

fn refused(alloc: Global, name: &Name, place: Place, code: Code) -> Result<Vec<u8>, NoMemory>
    ensures { IfOk result (λ v. v.items ≡ spec.text_of (ReportForm.Refused name.now place code)) }
{
    let mut text = Vec::from_slice(alloc, name.as_slice())?;
    let rest = format!(in alloc; ":{}:{} {}\n", place.line, place.column, code.name())?;
    text.extend_from_slice(rest.as_bytes())?;
    Ok(text)
}

fn not_explained(alloc: Global, at: u32, cause: WalkCause) -> Result<Vec<u8>, NoMemory>
    ensures { IfOk result (λ v. v.items ≡ spec.text_of (ReportForm.NotExplained at cause)) }
{
    let mut text = Vec::from_slice(alloc, b"not explained at ")?;
    let rest = format!(in alloc; "{} {}\n", at, cause.name())?;
    text.extend_from_slice(rest.as_bytes())?;
    Ok(text)
}

/// The report's text: its lines, each with a newline behind it.
pub fn text(alloc: Global, report: &Report) -> Result<Vec<u8>, NoMemory>
    ensures { IfOk result (λ v. v.items ≡ spec.text_of report.now) }
{
    match report {
        Report::Accepted => Ok(Vec::from_slice(alloc, b"accepted\n")?),
        Report::AcceptedWithoutCrash => {
            Ok(Vec::from_slice(alloc, b"accepted for runs without crash\n")?)
        }
        Report::Unjustified { place, cause } => unjustified(alloc, *place, *cause),
        Report::Explained => Ok(Vec::from_slice(alloc, b"explained\n")?),
        Report::NotExplained { at, cause } => not_explained(alloc, *at, *cause),
        Report::Usage => Ok(Vec::from_slice(alloc, USAGE)?),
        Report::CannotRead { name } => unread(alloc, name),
        Report::Refused { name, place, code } => refused(alloc, name, *place, *code),
        Report::OutOfMemory => Ok(Vec::from_slice(alloc, OUT_OF_MEMORY)?),
        Report::Ran(ran) => ran.text(alloc),
        Report::Moves { lines } => lines_text(alloc, lines.as_slice()),
        Report::Points { lines } => lines_text(alloc, lines.as_slice()),
        Report::NoExplanation => Ok(Vec::from_slice(alloc, NO_EXPLANATION)?),
        Report::Spent { most } => spent_text(alloc, *most),
        Report::Made(made) => made.text(alloc),
    }
}
