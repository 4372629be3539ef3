//! The first name under which operations differ.

ghost use Rattle.std.specs.Prelude.{◌≡◌, ◌<◌, Some, length, map, slice_get, IfNone, IfOk, IfSome};
ghost use Rattle.gv_atomic.specs.Specification.{IsOpWithin};
ghost use Rattle.gv_interfaces.specs.Deciding as deciding;
ghost use Rattle.gv_interfaces.specs.Interfaces.{SameOperations, IsFirstDiffering};
ghost use Rattle.gv_interfaces.specs.Tables.{IsTableOf};

use crate::names::NameTable;
use crate::signatures::takes_words;
use gv_atomic::{Op, Spec};
use gv_base::{Name, NoMemory, Small, SmallOp};
use std::alloc::Global;
use std::cmp::Ordering;

// A package and a specification, with the numbers of their operations.
#[derive(Clone, Copy)]
struct Sides<'a> {
    package: &'a Small,
    spec: &'a Spec,
    ours: &'a NameTable,
    theirs: &'a NameTable,
    ghost ours_are: { IsTableOf (map (λ op. op.name) «package».now.ops) ours.now },
    ghost theirs_are: { IsTableOf (map (λ op. op.name) spec.now.ops) theirs.now },
}

fn small_operation(package: &Small, number: u32) -> &SmallOp
    requires { number < length «package».now.ops }
    ensures { slice_get «package».now.ops number ≡ Some result.now }
{
    &package.ops.as_slice()[number as usize]
}

fn operation(spec: &Spec, number: u32) -> &Op
    requires { number < length spec.now.ops }
    ensures is { slice_get spec.now.ops number ≡ Some result.now }
    ensures within { IsOpWithin spec.now.store result.now }
{
    &spec.ops.as_slice()[number as usize]
}

fn differs(sides: &Sides, name: &Name) -> bool
    ensures { result ≡ deciding.differs sides.now.«package».now sides.now.spec.now name.now }
{
    match (sides.ours.number_of(name), sides.theirs.number_of(name)) {
        (None, None) => false,
        (Some(one), Some(other)) => !takes_words(
            small_operation(sides.package, one),
            &sides.spec.store,
            operation(sides.spec, other),
        ),
        (Some(_), None) => true,
        (None, Some(_)) => true,
    }
}

fn is_before(name: &Name, other: &Name) -> bool
    ensures { result ≡ deciding.is_before name.now other.now }
{
    matches!(name.as_slice().cmp(&other.as_slice()), Ordering::Less)
}

fn lesser(alloc: Global, first: Option<Name>, name: &Name) -> Result<Option<Name>, NoMemory>
    ensures { IfOk result (λ o. o ≡ deciding.lesser first name.now) }
{
    if let Some(first) = first {
        if !is_before(name, &first) {
            return Ok(Some(first));
        }
    }
    Ok(Some(name.copy(alloc)?))
}

// The first of those that differ among names, and of one that was found before.
fn first_among(
    alloc: Global,
    sides: &Sides,
    first: Option<Name>,
    names: &[Name],
) -> Result<Option<Name>, NoMemory>
    ensures { IfOk result (λ o. o ≡ deciding.first_among sides.now.«package».now sides.now.spec.now first names.now) }
{
    let mut first = first;
    let mut left = names;
    while let [name, rest @ ..] = left {
        if differs(sides, name) {
            first = lesser(alloc, first, name)?;
        }
        left = rest;
    }
    Ok(first)
}

fn small_names(alloc: Global, ops: &[SmallOp]) -> Result<Vec<Name>, NoMemory>
    ensures { IfOk result (λ names. names.items ≡ map (λ op. op.name) ops.now) }
{
    let mut names = Vec::new(alloc);
    let mut left = ops;
    while let [op, rest @ ..] = left {
        names.push(op.name.copy(alloc)?)?;
        left = rest;
    }
    Ok(names)
}

fn spec_names(alloc: Global, ops: &[Op]) -> Result<Vec<Name>, NoMemory>
    ensures { IfOk result (λ names. names.items ≡ map (λ op. op.name) ops.now) }
{
    let mut names = Vec::new(alloc);
    let mut left = ops;
    while let [op, rest @ ..] = left {
        names.push(op.name.copy(alloc)?)?;
        left = rest;
    }
    Ok(names)
}

/// The first name, in the order of bytes, under which the operations differ.
pub fn first_differing(
    alloc: Global,
    package: &Small,
    spec: &Spec,
) -> Result<Option<Name>, NoMemory>
    ensures none { IfOk result (λ o. IfNone o (SameOperations «package».now spec.now)) }
    ensures some { IfOk result (λ o. IfSome o (IsFirstDiffering «package».now spec.now)) }
{
    let names = small_names(alloc, package.ops.as_slice())?;
    let others = spec_names(alloc, spec.ops.as_slice())?;
    let ours = NameTable::new(alloc, names.as_slice())?;
    let theirs = NameTable::new(alloc, others.as_slice())?;
    let sides = Sides {
        package,
        spec,
        ours: &ours,
        theirs: &theirs,
    };
    let first = first_among(alloc, &sides, None, names.as_slice())?;
    first_among(alloc, &sides, first, others.as_slice())
}
