//! All that the program does, over files and a sink that are handed in.

ghost use Rattle.std.specs.Prelude.{◌≡◌, ℕ, List as Seq};
ghost use Rattle.gv_report.specs.Heard.{heard};
ghost use Rattle.gv_top.specs.Commands.{texts};
ghost use Rattle.gv_top.specs.Files.{asked};
ghost use Rattle.gv_top.specs.Promise.{Promise};
ghost use Rattle.gv_top.specs.Run.{Deserves, IsAnswered};

use crate::commands::{command_of, format_for, perform};
use gv_base::{Files, Sink};
use gv_report::{Format, Output, Report};
use std::alloc::Global;

// A report that the words and the files deserve, and its format.
fn deserved<F: Files>(alloc: Global, words: &Vec<String>, files: &mut F) -> (Report, Format)
    ensures deserved { Deserves (texts words.now.items) (asked F.held F.faults F.failed files.old files.new) result.0 result.1 }
    ensures kept { (other : Seq ℕ) → F.held files.new other ≡ F.held files.old other }
{
    let mut format = format_for(alloc, words);
    match command_of(words) {
        None => (Report::Usage, format),
        Some(command) => {
            let report = perform(alloc, &command, files, &mut format);
            (report, format)
        }
    }
}

/// Does all that the program does, and gives the status that it ends with: 0 accepted, explained, replayed to the end or
/// judged with an explanation, 1 unjustified, not explained or judged to have no explanation, 2 usage, 3 a file that can't
/// be fetched, 4 a text that is refused, 5 want of memory, 6 a put that failed, 7 nodes of a search that are spent, 8
/// replayed up to an undefined event. The report is text, or behind a last word `json` one line of JSON with the digests
/// of the files that were fetched. It is made whole before the first put, and is put in pieces of at most 65,536 bytes.
/// This project's own.
pub fn run<F: Files, K: Sink>(alloc: Global, words: &Vec<String>, files: &mut F, out: &mut K) -> u8
    // Where it accepts, every run of the package without a crash is explained by the specification; where it explains, the
    // moves explain the history, and else they don't; where it replays, what it writes is the run of the schedule; where it
    // judges, what it writes is the first explanation within so many nodes, or that there is none, or that they are spent.
    ensures promise { Promise (texts words.now.items) (F.held files.old) (heard K.written K.faults out.old out.new) result }

    // Each status comes with the report that is deserved, and wherever it must.
    ensures answered { IsAnswered (texts words.now.items) (asked F.held F.faults F.failed files.old files.new)
        (heard K.written K.faults out.old out.new) result }

    // What the files hold stays.
    ensures kept { (other : Seq ℕ) → F.held files.new other ≡ F.held files.old other }
{
    let (report, format) = deserved(alloc, words, files);
    Output::new(alloc, report, format).tell(out)
}
