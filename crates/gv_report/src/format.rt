//! How a report is written.

ghost use Rattle.std.specs.Prelude.{◌≡◌, OnOk, OnErr};
ghost use Rattle.gv_report.specs.Output.{noted};

use gv_base::{List, Name, NoMemory};
use gv_digest::digest;
use std::alloc::Global;

/// How a report is written. This project's own.
#[derive(Debug, Drop)]
pub enum Format {
    /// As its lines.
    Text,
    /// As a line in JSON, with the digests of the files that were fetched, in order.
    Json { digests: List<Name> },
}

impl Format {
    /// Notes the bytes of a file that was fetched: in JSON their digest stands behind those of the files before it.
    pub fn note(&mut self, alloc: Global, bytes: &[u8]) -> Result<(), NoMemory>
        ensures ok { OnOk result (self.new ≡ noted self.old bytes.now) }
        ensures err { OnErr result (self.new ≡ self.old) }
    {
        if let Format::Json { digests } = self {
            let digest = digest(alloc, bytes)?;
            digests.push(digest)?;
        }
        Ok(())
    }
}
