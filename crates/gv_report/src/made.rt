//! Texts that were made, as the report of them is written.

ghost use Rattle.std.specs.Prelude.{◌≡◌, IfOk};
ghost use Rattle.gv_report.specs.Made.{sizes_line};
ghost use Rattle.gv_report.specs.Report as spec;
ghost use Rattle.gv_report.specs.declared.report.Report.{Report as ReportForm};

use gv_base::NoMemory;
use std::alloc::Global;

/// A package, a specification and a script that were made, and are accepted: their number, from 1, the bytes of each of
/// the three, and the commands of the script. This project's own.
#[derive(Clone, Copy, Debug)]
pub struct Made {
    pub number: u32,
    pub package_bytes: u64,
    pub spec_bytes: u64,
    pub script_bytes: u64,
    pub commands: u32,
}

// The bytes of the three texts, and the commands of the script.
fn sizes_text(alloc: Global, made: &Made) -> Result<Vec<u8>, NoMemory>
    ensures { IfOk result (λ v. v.items ≡ sizes_line made.now) }
{
    let mut text = Vec::new(alloc);
    let front = format!(in alloc; "{} {} ", made.package_bytes, made.spec_bytes)?;
    text.extend_from_slice(front.as_bytes())?;
    let rest = format!(in alloc; "{} {}", made.script_bytes, made.commands)?;
    text.extend_from_slice(rest.as_bytes())?;
    Ok(text)
}

impl Made {
    /// The line that tells them.
    pub fn text(&self, alloc: Global) -> Result<Vec<u8>, NoMemory>
        ensures { IfOk result (λ v. v.items ≡ spec.text_of (ReportForm.Made self.now)) }
    {
        let mut text = Vec::from_slice(alloc, b"gen ")?;
        let front = format!(in alloc; "{} accepted ", self.number)?;
        text.extend_from_slice(front.as_bytes())?;
        let sizes = sizes_text(alloc, self)?;
        text.extend_from_slice(sizes.as_slice())?;
        text.push(b'\n')?;
        Ok(text)
    }
}
