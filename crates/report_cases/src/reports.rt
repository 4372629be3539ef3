//! Reports as a table writes them: words, and for lists lines behind ` | `.

use crate::names::{cause_of, code_of, reason_of, walk_cause_of};
use anyhow::{Result, bail};
use case_table::unescaped;
use gv_base::{List, Name, Place, Reason};
use gv_report::{Made, Ran, Report};
use std::alloc::Global;

fn place_of(line: &str, column: &str) -> Result<Place> {
    Ok(Place {
        line: line.parse::<u32>()?,
        column: column.parse::<u32>()?,
    })
}

fn name_of(alloc: Global, text: &str) -> Result<Name> {
    Ok(Name::from_vec(alloc, unescaped(alloc, text)?)?)
}

// The lines that stand behind ` | `, each with one before it.
fn lines_of(alloc: Global, said: &str) -> Result<List<Name>> {
    let mut lines = List::new(alloc);
    for line in said.split(" | ").skip(1) {
        lines.push(name_of(alloc, line)?)?;
    }
    Ok(lines)
}

fn undefined_of(words: &[&str]) -> Result<Option<(u32, Reason)>> {
    match words {
        ["ran"] => Ok(None),
        ["ran", number, reason] => Ok(Some((number.parse::<u32>()?, reason_of(reason)?))),
        _ => bail!("no run"),
    }
}

fn made_of(numbers: &[&str]) -> Result<Made> {
    let [number, package, spec, script, commands] = numbers else {
        bail!("no texts that were made");
    };
    Ok(Made {
        number: number.parse::<u32>()?,
        package_bytes: package.parse::<u64>()?,
        spec_bytes: spec.parse::<u64>()?,
        script_bytes: script.parse::<u64>()?,
        commands: commands.parse::<u32>()?,
    })
}

// A report without lists and names.
fn plain(words: &[&str]) -> Result<Report> {
    match words {
        ["accepted"] => Ok(Report::Accepted),
        ["accepted", "without", "crash"] => Ok(Report::AcceptedWithoutCrash),
        ["explained"] => Ok(Report::Explained),
        ["no", "explanation"] => Ok(Report::NoExplanation),
        ["usage"] => Ok(Report::Usage),
        ["out", "of", "memory"] => Ok(Report::OutOfMemory),
        ["spent", most] => Ok(Report::Spent {
            most: most.parse::<u64>()?,
        }),
        ["unjustified", line, column, cause] => Ok(Report::Unjustified {
            place: place_of(line, column)?,
            cause: cause_of(cause)?,
        }),
        ["unexplained", at, cause] => Ok(Report::NotExplained {
            at: at.parse::<u32>()?,
            cause: walk_cause_of(cause)?,
        }),
        ["made", numbers @ ..] => Ok(Report::Made(made_of(numbers)?)),
        _ => bail!("no report"),
    }
}

/// The report that is written so.
pub(crate) fn report_of(alloc: Global, said: &str) -> Result<Report> {
    let head = match said.split_once(" | ") {
        Some((head, _)) => head,
        None => said,
    };
    let mut words = Vec::new(alloc);
    for word in head.split(" ") {
        words.push(word)?;
    }
    match words.as_slice() {
        ["unread", name] => Ok(Report::CannotRead {
            name: name_of(alloc, name)?,
        }),
        ["refused", name, line, column, code] => Ok(Report::Refused {
            name: name_of(alloc, name)?,
            place: place_of(line, column)?,
            code: code_of(code)?,
        }),
        ["moves"] => Ok(Report::Moves {
            lines: lines_of(alloc, said)?,
        }),
        ["points"] => Ok(Report::Points {
            lines: lines_of(alloc, said)?,
        }),
        ["ran", ..] => Ok(Report::Ran(Ran {
            lines: lines_of(alloc, said)?,
            undefined: undefined_of(words.as_slice())?,
        })),
        others => plain(others),
    }
}
