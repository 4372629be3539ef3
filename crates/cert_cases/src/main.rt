//! Checks tables of certificates, each with what it comes to: cert_cases FILE..
//!
//! A line `variables SORT NAME..` declares variables. The text of a case is facts and, behind `|-`, commands of a script that add facts
//! or end a path, `FACT; .. |- have FORMULA by CERTIFICATE; absurd by CERTIFICATE`. The answer has what each command comes to, `shown`
//! or a cause, one after another, `shown, NotKnown`; or the code by which the text of the commands is refused. A text may be written as
//! parts with ` @ ` between them, each of which says first how many times it stands there, `3 !( @ 1 p @ 3 )`.
#![tactic(auto)]

mod acts;
mod cases;
mod commands;
mod facts;
mod outcomes;
mod parts;
mod repeated;
mod variables;

use crate::cases::Proofs;
use anyhow::Result;
use case_table::check_tables;
use std::process::ExitCode;

fn main(rt: HostRuntime) -> Result<ExitCode> {
    check_tables::<Proofs>(&rt)
}
