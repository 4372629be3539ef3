//! The command `replay PKG SPEC SCHEDULE`.

ghost use Rattle.std.specs.Prelude.{◌≡◌, ◌-◌, ◌^◌, ◌<◌, ◌≤◌, ℕ, List as Seq, All, IfErr, IfOk, OnOk, length, map, sum};
ghost use Rattle.gv_gotree.specs.SmallPackage.{IsSmallPackage};
ghost use Rattle.gv_interfaces.specs.Interfaces.{SameOperations};
ghost use Rattle.gv_lines.specs.Lines as printing;
ghost use Rattle.gv_spec.specs.History.{IsEventOf};
ghost use Rattle.gv_specs.specs.Reading.{Spells};
ghost use Rattle.gv_top.specs.Files.{asked, outside, IsBlamed};
ghost use Rattle.gv_top.specs.Replay as replaying;

use crate::files::{Halt, read_file};
use crate::outcome::Outcome;
use crate::replay_forms::{
    SchedulesOf, WrittenPackage, WrittenPackages, WrittenSpec, WrittenSpecs,
};
use gv_base::{Code, Files, List, Name, NoMemory, Small};
use gv_interfaces::{Difference, first_difference};
use gv_lines::entry_lines;
use gv_played::{Ran as Run, ReplayFault};
use gv_replay::Schedule;
use gv_report::{Format, Ran, Report};
use gv_smallprogram::program_of;
use gv_spec::Spec;
use std::alloc::Global;

/// The file words of `replay PKG SPEC SCHEDULE`. This project's own.
#[derive(Clone, Copy)]
pub struct ReplayWords<'a> {
    pub package: &'a str,
    pub spec: &'a str,
    pub schedule: &'a str,
}

impl Outcome for Ran {
    ghost report_of = { replaying.report_of };

    fn report(self) -> Report {
        Report::Ran(self)
    }
}

// Whether the operations are the same; else the halt where they first differ.
fn agreed(
    alloc: Global,
    names: &ReplayWords,
    package: &WrittenPackage,
    spec: &WrittenSpec,
) -> Result<(), Halt>
    requires short { length «package».now.text < 2 ^ 32 - 1 }
    requires spec_short { length spec.now.text < 2 ^ 32 - 1 }
    requires package { IsSmallPackage «package».now.text «package».now.small }
    requires spec { Spells spec.now.text spec.now.spec }
    ensures same { OnOk result (SameOperations «package».now.small spec.now.spec) }
    ensures other { IfErr result (replaying.HaltsBetween names.now.«package».now names.now.spec.now «package».now spec.now) }
{
    let difference = first_difference(
        alloc,
        &package.small,
        package.text.as_slice(),
        &spec.spec,
        spec.text.as_slice(),
    )?;
    match difference {
        None => Ok(()),
        Some(Difference::InSpec(place)) => Err(Halt::Refused {
            name: Name::from_slice(alloc, names.spec.as_bytes())?,
            place,
            code: Code::Interface,
        }),
        Some(Difference::InPackage(place)) => Err(Halt::Refused {
            name: Name::from_slice(alloc, names.package.as_bytes())?,
            place,
            code: Code::Interface,
        }),
    }
}

// What a schedule came to, as it is printed.
fn printed(alloc: Global, spec: &Spec, run: Run) -> Result<Ran, NoMemory>
    ensures lines { IfOk result (λ ran. ran.lines ≡ printing.entry_lines spec.now run.history) }
    ensures undefined { IfOk result (λ ran. ran.undefined ≡ run.undefined) }
{
    let Run { history, undefined } = run;
    let lines = entry_lines(alloc, spec, history.as_slice())?;
    Ok(Ran {
        lines: List::from_vec(lines),
        undefined,
    })
}

// What a schedule under a name comes to.
fn played(
    alloc: Global,
    name: &str,
    package: &Small,
    spec: &Spec,
    schedule: &Schedule,
) -> Result<Ran, Halt>
    requires of_spec { All (λ l. IsEventOf spec.now l.event) schedule.now.events }
    requires few { sum (map (λ l. l.count) schedule.now.events) ≤ 1000000 }
    ensures { replaying.Plays «package».now spec.now name.now schedule.now.events result }
{
    let program = program_of(alloc, package)?;
    match gv_played::replay(alloc, &program, spec, schedule) {
        Ok(run) => Ok(printed(alloc, spec, run)?),
        Err(ReplayFault::NoMemory) => Err(Halt::NoMemory),
        Err(ReplayFault::TooManyCells(place)) => Err(Halt::Refused {
            name: Name::from_slice(alloc, name.as_bytes())?,
            place,
            code: Code::TooManyCells,
        }),
    }
}

/// What comes of `replay PKG SPEC SCHEDULE`: each file is fetched and read before the next is fetched, the operations of the package and of
/// the specification are compared before the schedule is, and then its events are run.
pub fn replay<F: Files>(
    alloc: Global,
    names: &ReplayWords,
    files: &mut F,
    format: &mut Format,
) -> Result<Ran, Halt>
    ensures outcome { replaying.Replays (outside (F.held files.old)) names.now.«package».now names.now.spec.now names.now.schedule.now format.old result format.new }
    ensures blame { IsBlamed (asked F.held F.faults F.failed files.old files.new) result }
    ensures kept { (other : Seq ℕ) → F.held files.new other ≡ F.held files.old other }
{
    let package = read_file(alloc, &WrittenPackages {}, names.package, files, format)?;
    let spec = read_file(alloc, &WrittenSpecs {}, names.spec, files, format)?;
    agreed(alloc, names, &package, &spec)?;
    let schedule = read_file(
        alloc,
        &SchedulesOf { spec: &spec.spec },
        names.schedule,
        files,
        format,
    )?;
    played(alloc, names.schedule, &package.small, &spec.spec, &schedule)
}
