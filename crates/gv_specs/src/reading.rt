//! Specifications from their texts.

ghost use Rattle.std.specs.Prelude.{◌≡◌, ◌-◌, ◌^◌, ◌<◌, ℕ, None, length, IfOk, IfErr, OnOk};
ghost use Rattle.gv_atomic.specs.declared.spec.Spec.{Spec as AnySpec};
ghost use Rattle.gv_base.specs.Places.{place_at};
ghost use Rattle.gv_base.specs.declared.answers.Code.{Code as AnyCode};
ghost use Rattle.gv_base.specs.declared.answers.Code.TheVariants as code;
ghost use Rattle.gv_text.specs.Answers.{IsRefusedAs, Refuses};
ghost use Rattle.gv_typing.specs.Placing.{IsCause};
ghost use Rattle.gv_specs.specs.Faults.{HasDisksFault, HasFault, is_block_count};
ghost use Rattle.gv_specs.specs.Parts.{IsMade};
ghost use Rattle.gv_specs.specs.Reading.{HasTree, IsReadOr, IsRefused, Spells};
ghost use Rattle.gv_specs.specs.Spelled.{AreDisks, IsSpelled};
ghost use Rattle.gv_specs.specs.Told.{Adds, IsFaultUnless};

use crate::bodies::{Body, read_body};
use crate::field_table::FieldTable;
use crate::fields::read_fields;
use crate::ops::read_ops;
use crate::terms::NOTHING;
use crate::told::want;
use gv_atomic::{Field, Op, Spec};
use gv_base::{Code, List, NoMemory, Refusal};
use gv_lex::lex;
use gv_specread::{DisksTree, PlacedNumber, SpecTree, parse_spec};
use gv_terms::{Scope, TermStore};
use gv_text::refusal_at;
use gv_typing::{Fault, TermFault};
use std::alloc::Global;

/// How many disks there are, and how many blocks each has.
#[derive(Clone, Copy)]
pub struct Disks {
    pub count: u32,
    pub blocks: u32,
}

/// The parts of a specification. This project's own.
#[derive(Drop)]
pub struct Parts {
    pub disks: Disks,
    pub fields: List<Field>,
    pub ops: List<Op>,
    pub crash: Body,
    pub store: TermStore,
}

// The number of blocks of a disk, from 1 to 65,536.
fn read_blocks(number: PlacedNumber, first: &mut Option<Fault>) -> u32
    ensures noted { Adds (IsFaultUnless (is_block_count number.value) number.start code.TooMany) first.old first.new }
    ensures read { first.new ≡ None → result ≡ number.value }
{
    let right = 0 < number.value && number.value <= 65536;
    want(right, first, number.start, Code::TooMany);
    if right { number.value as u32 } else { NOTHING }
}

fn read_disks(tree: DisksTree, first: &mut Option<Fault>) -> Disks
    ensures noted { Adds (HasDisksFault tree) first.old first.new }
    ensures read { first.new ≡ None → AreDisks tree result.count result.blocks }
{
    match tree {
        DisksTree::Zero => Disks {
            count: 0,
            blocks: 0,
        },
        DisksTree::One(number) => Disks {
            count: 1,
            blocks: read_blocks(number, first),
        },
        DisksTree::Two(number) => Disks {
            count: 2,
            blocks: read_blocks(number, first),
        },
    }
}

// The parts of a text.
fn read_parts(
    alloc: Global,
    text: &[u8],
    tree: &SpecTree,
    first: &mut Option<Fault>,
) -> Result<Parts, NoMemory>
    ensures noted { OnOk result (Adds (HasFault text.now tree.now) first.old first.new) }
    ensures read { IfOk result (λ parts. first.new ≡ None → IsMade text.now tree.now parts) }
{
    let mut store = TermStore::new(alloc)?;
    let mut vars = Scope::new(alloc);
    let disks = read_disks(tree.disks, first);
    let trees = tree.fields.as_slice();
    let table = FieldTable::new(alloc, text, trees)?;
    let fields = read_fields(alloc, text, &mut store, &mut vars, trees, first)?;
    let written = tree.ops.as_slice();
    let ops = read_ops(alloc, text, &mut store, &table, &mut vars, written, first)?;
    let body = &tree.crash;
    let crash = read_body(
        alloc, text, &mut store, &table, &mut vars, None, body, first,
    )?;
    Ok(Parts {
        disks,
        fields: List::from_vec(fields),
        ops: List::from_vec(ops),
        crash,
        store,
    })
}

// The specification of a tree, or the first fault of the tree.
fn spec_of(alloc: Global, text: &[u8], tree: &SpecTree) -> Result<Spec, TermFault>
    ensures read { IfOk result (λ s. IsSpelled text.now tree.now s) }
    ensures faultless { IfOk result (λ s. (at : ℕ) (code : AnyCode) → HasFault text.now tree.now at code → ⊥) }
    ensures cause { IfErr result (IsCause (HasFault text.now tree.now)) }
{
    let mut first = None;
    let parts = read_parts(alloc, text, tree, &mut first)?;
    if let Some(fault) = first {
        return Err(TermFault::from(fault));
    }
    Ok(Spec {
        disks: parts.disks.count,
        blocks: parts.disks.blocks,
        fields: parts.fields,
        ops: parts.ops,
        crash_picks: parts.crash.picks,
        crash: parts.crash.assigns,
        store: parts.store,
    })
}

// The specification that a text spells, or its refusal.
fn read_or_refused(alloc: Global, text: &[u8]) -> Result<Spec, Refusal>
    requires { length text.now < 2 ^ 32 - 1 }
    ensures read { IfOk result (Spells text.now) }
    ensures refused { IfErr result (Refuses text.now (IsRefused text.now)) }
{
    let tokens = lex(alloc, text)?;
    let tree = parse_spec(alloc, text, &tokens)?;
    match spec_of(alloc, text, &tree) {
        Ok(spec) => Ok(spec),
        Err(TermFault::NoMemory) => Err(Refusal::NoMemory),
        Err(TermFault::At { start, code }) => Err(refusal_at(text, start, code)),
    }
}

/// The specification that a text of fewer than 2^32 - 1 bytes spells, typed, or the text's refusal. It takes time and room linear
/// in the text's length.
///
/// A refusal is that of the first stage that refuses: the characters, as `lex` tells; the grammar, as `parse_spec` tells; then, at
/// the first place, by the lower number at one place:
/// - `Undeclared` at a name in a term that no variable bears there, and at an assigned name that no field bears;
/// - `Twice` at a declared name that is a constant of terms, or that an earlier field, operation, parameter or pick of its scope
///   bears, and at a field that is assigned again in one body;
/// - `WrongType` at a sort that fields, or parameters and replies, can't have, and at a term or node without the sort that is wanted;
/// - `WrongCount` at the brace of a body that replies where no reply is wanted, or doesn't where one is;
/// - `TooMany` at a number of blocks that is not from 1 to 65,536.
///
/// `NoMemory` comes where memory runs out. This project's own.
pub fn read_spec(alloc: Global, text: &[u8]) -> Result<Spec, Refusal>
    requires { length text.now < 2 ^ 32 - 1 }

    // What is read is so, and where something is so, it is read.
    ensures read { IfOk result (Spells text.now) }
    ensures only { (s : AnySpec) → Spells text.now s → IsReadOr result }

    // A refusal stands at the first fault, and where there is one, the text is refused there.
    ensures refused { IfErr result (Refuses text.now (IsRefused text.now)) }
    ensures fault { (at : ℕ) (code : AnyCode) → IsRefused text.now at code → IsRefusedAs (place_at text.now at) code result }
{
    read_or_refused(alloc, text)
}
