//! What a command line is answered: reports, their statuses and texts, and how they are written.
#![tactic(auto)]

mod bytes;
mod format;
mod json_form;
mod judged;
mod lines;
mod made;
mod output;
mod pieces;
mod ran;
mod report;

pub use format::Format;
pub use gv_certs::Cause;
pub use json_form::{json, report_lines};
pub use lines::text;
pub use made::Made;
pub use output::Output;
pub use ran::Ran;
pub use report::Report;
