//! The command `check PKG SPEC SCRIPT`.

ghost use Rattle.std.specs.Prelude.{◌≡◌, ℕ, List as Seq, length};
ghost use Rattle.gv_top.specs.Check as checking;
ghost use Rattle.gv_top.specs.Files.{asked, outside, IsBlamed};

use crate::comparing::first_difference;
use crate::files::{Halt, read_file};
use crate::forms::{Packages, ScriptsFor, SpecsFor};
use crate::outcome::Outcome;
use crate::small_script::SmallScript;
use gv_base::{Files, Place, Small};
use gv_report::{Cause, Format, Report};
use std::alloc::Global;

/// The file words of `check PKG SPEC SCRIPT`. This project's own.
#[derive(Clone, Copy)]
pub struct CheckWords<'a> {
    pub package: &'a str,
    pub spec: &'a str,
    pub script: &'a str,
}

/// What comes of a check whose three texts are read. This project's own.
#[derive(Debug, Drop)]
pub enum Verdict {
    /// The first command of the script that isn't justified.
    Unjustified { place: Place, cause: Cause },
    /// The package refines the specification in every run without a crash.
    AcceptedWithoutCrash,
}

impl Outcome for Verdict {
    ghost report_of = { checking.report_of };

    fn report(self) -> Report {
        match self {
            Verdict::Unjustified { place, cause } => Report::Unjustified { place, cause },
            Verdict::AcceptedWithoutCrash => Report::AcceptedWithoutCrash,
        }
    }
}

// What the operations of the three texts give beside each other.
fn compared(package: &Small, spec: &Small, script: &SmallScript) -> Verdict
    requires specs { length spec.now.ops ≡ length «package».now.ops }
    requires blocks { length script.now.ops ≡ length «package».now.ops }
    ensures { checking.Compares «package».now spec.now script.now result }
{
    match first_difference(
        package.ops.as_slice(),
        spec.ops.as_slice(),
        script.ops.as_slice(),
    ) {
        Some(place) => Verdict::Unjustified {
            place,
            cause: Cause::NoAtom,
        },
        None => Verdict::AcceptedWithoutCrash,
    }
}

/// What comes of `check PKG SPEC SCRIPT`: each file is fetched and read, and its operations are
/// compared with the package's, before the next is fetched.
pub fn check<F: Files>(
    alloc: Global,
    names: &CheckWords,
    files: &mut F,
    format: &mut Format,
) -> Result<Verdict, Halt>
    ensures outcome { checking.Checks (outside (F.held files.old)) names.now.«package».now names.now.spec.now names.now.script.now format.old result format.new }
    ensures blame { IsBlamed (asked F.held F.faults F.failed files.old files.new) result }
    ensures kept { (other : Seq ℕ) → F.held files.new other ≡ F.held files.old other }
{
    let package = read_file(alloc, &Packages {}, names.package, files, format)?;
    let specs = SpecsFor { package: &package };
    let spec = read_file(alloc, &specs, names.spec, files, format)?;
    let scripts = ScriptsFor { package: &package };
    let script = read_file(alloc, &scripts, names.script, files, format)?;
    Ok(compared(&package, &spec, &script))
}
