//! A report in JSON.

ghost use Rattle.std.specs.Prelude.{◌≡◌, [], ◌∷◌, ◌++◌, IfOk, length};
ghost use Rattle.gv_report.specs.Output.{json_of};
ghost use Rattle.gv_report.specs.Ran.{last_line as line_at_the_end, ran_lines};
ghost use Rattle.gv_report.specs.Report.{lines_of};

use crate::lines::text;
use crate::ran::Ran;
use crate::report::Report;
use gv_base::{Name, NoMemory, Reason};
use gv_json::json_line;
use std::alloc::Global;

// Which event of a schedule was undefined, by its number from 1, and why.
fn undefined_line(alloc: Global, number: u32, reason: Reason) -> Result<Vec<u8>, NoMemory>
    ensures { IfOk result (λ line. line.items ≡ line_at_the_end (Some (number, reason))) }
{
    let line = format!(in alloc; "undefined {} {}", number, reason.name())?;
    Ok(Vec::from_slice(alloc, line.as_bytes())?)
}

// The line that ends the lines of a run.
fn last_line(alloc: Global, undefined: Option<(u32, Reason)>) -> Result<Vec<u8>, NoMemory>
    ensures { IfOk result (λ line. line.items ≡ line_at_the_end undefined) }
{
    match undefined {
        None => Ok(Vec::from_slice(alloc, b"end")?),
        Some((number, reason)) => undefined_line(alloc, number, reason),
    }
}

fn copies(alloc: Global, lines: &[Name]) -> Result<Vec<Name>, NoMemory>
    ensures { IfOk result (λ made. made.items ≡ lines.now) }
{
    let mut made = Vec::new(alloc);
    for line in lines {
        made.push(line.copy(alloc)?)?;
    }
    Ok(made)
}

fn run_lines(alloc: Global, ran: &Ran) -> Result<Vec<Name>, NoMemory>
    ensures { IfOk result (λ made. made.items ≡ ran_lines ran.now) }
{
    let mut made = copies(alloc, ran.lines.as_slice())?;
    let last = last_line(alloc, ran.undefined)?;
    made.push(Name::from_vec(alloc, last)?)?;
    Ok(made)
}

// The line of a report that has only one.
fn only_line(alloc: Global, report: &Report) -> Result<Vec<Name>, NoMemory>
    requires { length (lines_of report.now) ≡ 1 }
    ensures { IfOk result (λ made. made.items ≡ lines_of report.now) }
{
    let mut line = text(alloc, report)?;
    line.pop();
    let mut made = Vec::new(alloc);
    made.push(Name::from_vec(alloc, line)?)?;
    Ok(made)
}

/// The lines of a report, without their newlines.
pub fn report_lines(alloc: Global, report: &Report) -> Result<Vec<Name>, NoMemory>
    ensures { IfOk result (λ made. made.items ≡ lines_of report.now) }
{
    match report {
        Report::Ran(ran) => run_lines(alloc, ran),
        Report::Moves { lines } => copies(alloc, lines.as_slice()),
        Report::Points { lines } => copies(alloc, lines.as_slice()),
        _ => only_line(alloc, report),
    }
}

/// The line of a report in JSON, with its newline: `digests`, which are those of the files that were fetched, in order, its `lines` without
/// their newlines, and its `status`. The usage line and `out of memory` are always their texts. A line or a digest that is no UTF-8 stands as the
/// empty text.
pub fn json(alloc: Global, report: &Report, digests: &[Name]) -> Result<Vec<u8>, NoMemory>
    ensures { IfOk result (λ v. v.items ≡ json_of digests.now report.now) }
{
    match report {
        Report::Usage | Report::OutOfMemory => text(alloc, report),
        _ => {
            let lines = report_lines(alloc, report)?;
            json_line(alloc, digests, lines.as_slice(), report.status())
        }
    }
}
