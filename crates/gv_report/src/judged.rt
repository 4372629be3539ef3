//! What a search for an explanation came to, as it is written.

ghost use Rattle.std.specs.Prelude.{◌≡◌, IfOk};
ghost use Rattle.gv_report.specs.Report as spec;
ghost use Rattle.gv_report.specs.declared.report.Report.{Report as ReportForm};

use gv_base::NoMemory;
use std::alloc::Global;

/// The line where a history has no explanation.
pub const NO_EXPLANATION: &[u8] = b"no explanation\n";

/// The line where so many nodes are spent.
pub fn spent_text(alloc: Global, most: u64) -> Result<Vec<u8>, NoMemory>
    ensures { IfOk result (λ v. v.items ≡ spec.text_of (ReportForm.Spent most)) }
{
    let line = format!(in alloc; "spent {}\n", most)?;
    Ok(Vec::from_slice(alloc, line.as_bytes())?)
}
