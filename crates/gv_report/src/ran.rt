//! What a schedule came to, as it is written.

ghost use Rattle.std.specs.Prelude.{◌≡◌, ◌++◌, ◌∷◌, [], OnOk, IfOk};
ghost use Rattle.gv_report.specs.Ran.{last_line, ran_lines, ran_status};
ghost use Rattle.gv_report.specs.Report.{joined};

use gv_base::{List, Name, NoMemory, Reason};
use std::alloc::Global;

/// What a schedule came to: the lines of the history, and where an event was undefined its number in the
/// schedule, counted from 1, and why. This project's own.
#[derive(Debug, Drop)]
pub struct Ran {
    pub lines: List<Name>,
    pub undefined: Option<(u32, Reason)>,
}

impl Ran {
    /// The status that the program ends with where this is written: 0, or 8 where an event was undefined.
    pub fn status(&self) -> u8
        ensures { result ≡ ran_status self.now }
    {
        match self.undefined {
            None => 0,
            Some(_) => 8,
        }
    }

    /// The lines, each with a newline behind it: those of the history, and `end`, or `undefined K REASON`
    /// where event K was undefined.
    #[tactic(auto, using(crate::proofs::RanLemmas::joined_last))]
    pub fn text(&self, alloc: Global) -> Result<Vec<u8>, NoMemory>
        ensures { IfOk result (λ text. text.items ≡ joined (ran_lines self.now)) }
    {
        let mut text = lines_text(alloc, self.lines.as_slice())?;
        push_last(alloc, &mut text, self.undefined)?;
        Ok(text)
    }
}

fn push_line(out: &mut Vec<u8>, line: &[u8]) -> Result<(), NoMemory>
    ensures { OnOk result (out.new.items ≡ out.old.items ++ (line.now ++ 10 ∷ [])) }
{
    out.extend_from_slice(line)?;
    out.push(b'\n')?;
    Ok(())
}

pub(crate) fn lines_text(alloc: Global, lines: &[Name]) -> Result<Vec<u8>, NoMemory>
    ensures { IfOk result (λ text. text.items ≡ joined lines.now) }
{
    let mut text = Vec::new(alloc);
    for line in lines {
        push_line(&mut text, line.as_slice())?;
    }
    Ok(text)
}

fn push_last(
    alloc: Global,
    out: &mut Vec<u8>,
    undefined: Option<(u32, Reason)>,
) -> Result<(), NoMemory>
    ensures { OnOk result (out.new.items ≡ out.old.items ++ (last_line undefined ++ 10 ∷ [])) }
{
    match undefined {
        None => push_line(out, b"end"),
        Some((number, reason)) => {
            let line = format!(in alloc; "undefined {} {}", number, reason.name())?;
            push_line(out, line.as_bytes())
        }
    }
}
