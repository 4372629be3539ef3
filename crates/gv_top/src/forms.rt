//! The forms of the texts that are read.

ghost use Rattle.std.specs.Prelude.{IfOk, IfErr};
ghost use Rattle.gv_top.specs.Files.{longest};
ghost use Rattle.gv_top.specs.Packages.{IsPackageOf, IsRefusedPackage};
ghost use Rattle.gv_smallspec.specs.SmallSpec.{IsSmallOf};
ghost use Rattle.gv_specs.specs.Reading as written;
ghost use Rattle.gv_replay.specs.Reading as lines;
ghost use Rattle.gv_top.specs.Forms.{IsOfNone, IsPlaced, IsScriptFor, IsHistoryOf, AreMovesOf};
ghost use Rattle.gv_top.specs.Specifications.{IsSpecFor, IsRefusedSpecFor, IsRefusedAsOther};

use crate::comparing::{same_blocks, same_interface};
use crate::files::Form;
use crate::small_script::{SmallScript, read_small_script};
use gv_base::{Refusal, Small};
use gv_goparse::parse;
use gv_gotree::read_small_package;
use gv_replay::{read_history, read_moves};
use gv_small::not_of_form;
use gv_smallspec::{SmallFault, small_spec};
use gv_spec::{Entry, Move, Spec};
use gv_specs::read_spec;
use gv_tokens::tokens;
use std::alloc::Global;

// The operations of a specification of the small form, or the refusal of its text.
fn small_or_refused(alloc: Global, spec: &Spec) -> Result<Small, Refusal>
    ensures found { IfOk result (λ small. IsSmallOf spec.now small) }
    ensures refused { IfErr result (IsRefusedAsOther spec.now) }
{
    match small_spec(alloc, spec) {
        Ok(small) => Ok(small),
        Err(SmallFault::NoMemory) => Err(Refusal::NoMemory),
        Err(SmallFault::Other) => Err(not_of_form()),
    }
}

/// Packages of the grammar, read as those of the small form.
#[derive(Clone, Copy)]
pub struct Packages {}

impl Form for Packages {
    type Value = Small;

    ghost spells = { λ _. IsPackageOf };

    ghost refuses = { λ _. IsRefusedPackage };

    fn read(&self, alloc: Global, text: &[u8]) -> Result<Small, Refusal> {
        let tokens = tokens(alloc, text)?;
        parse(alloc, text, tokens.as_slice())?;
        read_small_package(alloc, text)
    }
}

/// Specifications, read as those of the small form with a package's operations, in the same order.
#[derive(Clone, Copy)]
pub struct SpecsFor<'a> {
    pub package: &'a Small,
}

impl<'a> Form for SpecsFor<'a> {
    type Value = Small;

    ghost spells = { λ s. IsSpecFor s.«package».now };

    ghost refuses = { λ s. IsRefusedSpecFor s.«package».now };

    fn read(&self, alloc: Global, text: &[u8]) -> Result<Small, Refusal> {
        let spec = read_spec(alloc, text)?;
        let small = small_or_refused(alloc, &spec)?;
        if same_interface(self.package.ops.as_slice(), small.ops.as_slice()) {
            Ok(small)
        } else {
            Err(not_of_form())
        }
    }
}

/// Scripts of the small form with a block for each of a package's operations, in the same order.
#[derive(Clone, Copy)]
pub struct ScriptsFor<'a> {
    pub package: &'a Small,
}

impl<'a> Form for ScriptsFor<'a> {
    type Value = SmallScript;

    ghost spells = { λ s. IsScriptFor s.«package».now };

    ghost refuses = { λ s. IsOfNone (IsScriptFor s.«package».now) };

    fn read(&self, alloc: Global, text: &[u8]) -> Result<SmallScript, Refusal> {
        let script = read_small_script(alloc, text)?;
        if same_blocks(self.package.ops.as_slice(), script.ops.as_slice()) {
            Ok(script)
        } else {
            Err(not_of_form())
        }
    }
}

/// Specifications.
#[derive(Clone, Copy)]
pub struct Specs {}

impl Form for Specs {
    type Value = Spec;

    ghost spells = { λ _. written.Spells };

    ghost refuses = { λ _. IsPlaced written.IsRefused };

    fn read(&self, alloc: Global, text: &[u8]) -> Result<Spec, Refusal> {
        read_spec(alloc, text)
    }
}

/// Histories of a specification.
#[derive(Clone, Copy)]
pub struct HistoriesOf<'a> {
    pub spec: &'a Spec,
}

impl<'a> Form for HistoriesOf<'a> {
    type Value = Vec<Entry>;

    ghost spells = { λ s. IsHistoryOf s.spec.now };

    ghost refuses = { λ s. IsPlaced (lines.IsRefusedHistory s.spec.now) };

    fn read(&self, alloc: Global, text: &[u8]) -> Result<Vec<Entry>, Refusal> {
        read_history(alloc, text, self.spec)
    }
}

/// Moves of explanations by a specification.
#[derive(Clone, Copy)]
pub struct MovesOf<'a> {
    pub spec: &'a Spec,
}

impl<'a> Form for MovesOf<'a> {
    type Value = Vec<Move>;

    ghost spells = { λ s. AreMovesOf s.spec.now };

    ghost refuses = { λ s. IsPlaced (lines.AreRefusedMoves s.spec.now) };

    fn read(&self, alloc: Global, text: &[u8]) -> Result<Vec<Move>, Refusal> {
        read_moves(alloc, text, self.spec)
    }
}
