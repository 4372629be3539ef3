//! Operations of a package, a specification and a script beside each other.

ghost use Rattle.std.specs.Prelude.{◌≡◌, ◌↔◌, length, map, IsTrue, IsSome, IfSome, IfNone, OnSome};
ghost use Rattle.gv_top.specs.Comparing.{SameSum, AllSameSums, IsFirstDifference};

use crate::small_script::SmallBlock;
use gv_base::{List, Name, Part, Place, SmallOp, Turn};

fn same_part(one: &Part, other: &Part) -> bool
    ensures { IsTrue result ↔ (one.now ≡ other.now) }
{
    match (one, other) {
        (Part::Param(a), Part::Param(b)) => a == b,
        (Part::Number(a), Part::Number(b)) => a == b,
        _ => false,
    }
}

fn same_turn(one: &Turn, other: &Turn) -> bool
    ensures { IsTrue result ↔ (one.now ≡ other.now) }
{
    one.minus == other.minus && same_part(&one.part, &other.part)
}

fn same_turns(one: &[Turn], other: &[Turn]) -> bool
    ensures { IsTrue result ↔ (one.now ≡ other.now) }
{
    if one.len() != other.len() {
        return false;
    }
    for (at, turn) in one.iter().enumerate() {
        if !same_turn(turn, &other[at]) {
            return false;
        }
    }
    true
}

fn same_name(one: &Name, other: &Name) -> bool
    ensures { IsTrue result ↔ (one.now ≡ other.now) }
{
    one == other
}

fn same_names(one: &[Name], other: &[Name]) -> bool
    ensures { IsTrue result ↔ (one.now ≡ other.now) }
{
    if one.len() != other.len() {
        return false;
    }
    for (at, name) in one.iter().enumerate() {
        if !same_name(name, &other[at]) {
            return false;
        }
    }
    true
}

fn same_interface_of(one: &SmallOp, other: &SmallOp) -> bool
    ensures { IsTrue result ↔ ((one.now.name ≡ other.now.name) × (one.now.params ≡ other.now.params)) }
{
    same_name(&one.name, &other.name) && same_names(one.params.as_slice(), other.params.as_slice())
}

/// Whether two lists of operations have the same names and parameters, in the same order.
pub fn same_interface(ops: &[SmallOp], other: &[SmallOp]) -> bool
    ensures { IsTrue result ↔ ((map (λ op. op.name) ops.now ≡ map (λ op. op.name) other.now)
        × (map (λ op. op.params) ops.now ≡ map (λ op. op.params) other.now)) }
{
    if ops.len() != other.len() {
        return false;
    }
    for (at, op) in ops.iter().enumerate() {
        if !same_interface_of(op, &other[at]) {
            return false;
        }
    }
    true
}

/// Whether a script has a block for each operation, in the same order.
pub fn same_blocks(ops: &[SmallOp], blocks: &[SmallBlock]) -> bool
    ensures { IsTrue result ↔ (map (λ op. op.name) ops.now ≡ map (λ b. b.name) blocks.now) }
{
    if ops.len() != blocks.len() {
        return false;
    }
    for (at, op) in ops.iter().enumerate() {
        if !same_name(&op.name, &blocks[at].name) {
            return false;
        }
    }
    true
}

fn same_sum(one: &SmallOp, other: &SmallOp) -> bool
    ensures { IsTrue result ↔ SameSum one.now other.now }
{
    same_part(&one.first, &other.first) && same_turns(one.rest.as_slice(), other.rest.as_slice())
}

/// The place of the `step` of the first operation whose two Sums differ, where there is one.
pub fn first_difference(ops: &[SmallOp], others: &[SmallOp], blocks: &[SmallBlock]) -> Option<Place>
    requires others { length others.now ≡ length ops.now }
    requires blocks { length blocks.now ≡ length ops.now }
    ensures some { IfSome result (IsFirstDifference ops.now others.now blocks.now) }
    ensures none { IfNone result (AllSameSums ops.now others.now) }
{
    for (at, op) in ops.iter().enumerate() {
        if !same_sum(op, &others[at]) {
            return Some(blocks[at].step);
        }
    }
    None
}
