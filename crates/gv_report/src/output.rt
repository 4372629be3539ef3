//! A report in its format, with all that is written of it.

ghost use Rattle.std.specs.Prelude.{◌≡◌, IfOk};
ghost use Rattle.gv_report.specs.Heard.{heard};
ghost use Rattle.gv_report.specs.Output.{output_of, IsOutputOf, Puts};

use crate::bytes::Bytes;
use crate::format::Format;
use crate::json_form::json;
use crate::lines::{OUT_OF_MEMORY, USAGE, text};
use crate::pieces::put_all;
use crate::report::Report;
use gv_base::{NoMemory, Sink};
use std::alloc::Global;
use std::marker::Model;

// All that is written of a report.
fn written(alloc: Global, report: &Report, format: &Format) -> Result<Vec<u8>, NoMemory>
    ensures { IfOk result (λ v. v.items ≡ output_of format.now report.now) }
{
    match format {
        Format::Text => text(alloc, report),
        Format::Json { digests } => json(alloc, report, digests.as_slice()),
    }
}

/// A report in its format, with all that is written of it, which is there before the first byte is put. Contracts see
/// the report and the format. This project's own.
#[derive(Drop)]
pub struct Output {
    report: Report,
    format: Format,
    bytes: Bytes,
}

impl Model for Output {
    ghost use Rattle.std.specs.Prelude.{◌≡◌};
    ghost use Rattle.gv_report.specs.Output.{Shown, output_of};
    ghost use Rattle.gv_report.specs.Report.{bytes_of};

    ghost Value = { Shown };

    ghost view = { λ o. record { report = o.report; format = o.format } };

    ghost invariant = { λ o. bytes_of o.bytes ≡ output_of o.format o.report };
}

impl Output {
    /// This report in this format, or `out of memory` where memory is refused for what is written of it. The usage line takes no memory.
    pub fn new(alloc: Global, report: Report, format: Format) -> Output
        ensures { IsOutputOf report format result }
    {
        if matches!(report, Report::Usage) {
            return Output {
                report,
                format,
                bytes: Bytes::Fixed(USAGE),
            };
        }
        match written(alloc, &report, &format) {
            Ok(bytes) => Output {
                report,
                format,
                bytes: Bytes::Made(bytes),
            },
            Err(_) => Output {
                report: Report::OutOfMemory,
                format,
                bytes: Bytes::Fixed(OUT_OF_MEMORY),
            },
        }
    }

    /// Writes it, and gives the status: the report's, or 6 where a put failed.
    pub fn tell<K: Sink>(&self, out: &mut K) -> u8
        ensures { Puts self.now (heard K.written K.faults out.old out.new) result }
    {
        if put_all(out, self.bytes.as_slice()) {
            self.report.status()
        } else {
            6
        }
    }
}
