//! The forms of the texts that a replay reads.

ghost use Rattle.gv_replay.specs.Reading as lines;
ghost use Rattle.gv_specs.specs.Reading as written;
ghost use Rattle.gv_top.specs.Forms.{IsPlaced};
ghost use Rattle.gv_top.specs.Packages.{IsRefusedPackage};
ghost use Rattle.gv_top.specs.ReplayForms.{IsScheduleOf, IsWrittenPackage, IsWrittenSpec};

use crate::files::Form;
use crate::forms::Packages;
use gv_base::{Name, Refusal, Small};
use gv_replay::{Schedule, read_schedule};
use gv_spec::Spec;
use gv_specs::read_spec;
use std::alloc::Global;

/// A package of the small form, and its text. This project's own.
#[derive(Debug, Drop)]
pub struct WrittenPackage {
    pub small: Small,
    pub text: Name,
}

/// A specification, and its text. This project's own.
#[derive(Debug, Drop)]
pub struct WrittenSpec {
    pub spec: Spec,
    pub text: Name,
}

/// Packages with their texts.
#[derive(Clone, Copy)]
pub struct WrittenPackages {}

impl Form for WrittenPackages {
    type Value = WrittenPackage;

    ghost spells = { λ _. IsWrittenPackage };

    ghost refuses = { λ _. IsRefusedPackage };

    fn read(&self, alloc: Global, text: &[u8]) -> Result<WrittenPackage, Refusal> {
        let small = Packages {}.read(alloc, text)?;
        let text = Name::from_slice(alloc, text)?;
        Ok(WrittenPackage { small, text })
    }
}

/// Specifications with their texts.
#[derive(Clone, Copy)]
pub struct WrittenSpecs {}

impl Form for WrittenSpecs {
    type Value = WrittenSpec;

    ghost spells = { λ _. IsWrittenSpec };

    ghost refuses = { λ _. IsPlaced written.IsRefused };

    fn read(&self, alloc: Global, text: &[u8]) -> Result<WrittenSpec, Refusal> {
        let spec = read_spec(alloc, text)?;
        let text = Name::from_slice(alloc, text)?;
        Ok(WrittenSpec { spec, text })
    }
}

/// Schedules of a specification's calls.
#[derive(Clone, Copy)]
pub struct SchedulesOf<'a> {
    pub spec: &'a Spec,
}

impl<'a> Form for SchedulesOf<'a> {
    type Value = Schedule;

    ghost spells = { λ s. IsScheduleOf s.spec.now };

    ghost refuses = { λ s. IsPlaced (lines.IsRefusedSchedule s.spec.now) };

    fn read(&self, alloc: Global, text: &[u8]) -> Result<Schedule, Refusal> {
        read_schedule(alloc, text, self.spec)
    }
}
