//! The parameters of an operation.

ghost use Rattle.std.specs.Prelude.{◌≡◌, ◌+◌, ◌-◌, ◌^◌, ◌<◌, ◌≤◌, [], ◌∷◌, length, Some, IfOk, OnOk, IfErr};
ghost use Rattle.gv_small.specs.Cursor.{kinds_left, bytes_left};
ghost use Rattle.gv_small.specs.Reading as reading;
ghost use Rattle.gv_small.specs.Reading.{Refuses};
ghost use Rattle.gv_small.specs.Tokens.{plain, signed};

use crate::cursor::Cursor;
use crate::reading::{begins_with_sign, expect, name};
use gv_base::{List, Name, Refusal};
use std::alloc::Global;

// A parameter's name, before the words of its type.
fn parameter<'a>(cursor: &mut Cursor<'a>, kind: &[u8]) -> Result<&'a [u8], Refusal>
    requires { length kind.now < 2 ^ 32 - 1 }
    ensures ok { IfOk result (λ w. reading.parameter (plain kind.now) (kinds_left cursor.old) ≡ Some (w.now, kinds_left cursor.new)) }
    ensures err { IfErr result (Refuses (reading.parameter (plain kind.now) (kinds_left cursor.old))) }
    ensures fewer { OnOk result (bytes_left cursor.new < bytes_left cursor.old) }
{
    let name = name(cursor)?;
    expect(cursor, kind)?;
    Ok(name)
}

// A comma.
#[tactic(auto, unfolding(crate::specs::Tokens::cut))]
fn take_comma(cursor: &mut Cursor) -> Result<(), Refusal>
    ensures ok { OnOk result (reading.behind_all (signed 44 ∷ []) (kinds_left cursor.old) ≡ Some (kinds_left cursor.new)) }
    ensures err { IfErr result (Refuses (reading.behind_all (signed 44 ∷ []) (kinds_left cursor.old))) }
    ensures fewer { OnOk result (bytes_left cursor.new ≤ bytes_left cursor.old) }
{
    expect(cursor, b",")
}

// A comma and a parameter.
fn next_parameter<'a>(cursor: &mut Cursor<'a>, kind: &[u8]) -> Result<&'a [u8], Refusal>
    requires { length kind.now < 2 ^ 32 - 1 }
    ensures ok { IfOk result (λ w. reading.next_parameter (plain kind.now) (kinds_left cursor.old) ≡ Some (w.now, kinds_left cursor.new)) }
    ensures err { IfErr result (Refuses (reading.next_parameter (plain kind.now) (kinds_left cursor.old))) }
    ensures fewer { OnOk result (bytes_left cursor.new < bytes_left cursor.old) }
{
    take_comma(cursor)?;
    parameter(cursor, kind)
}

// Appends the names of the parameters that follow a first one.
fn more_parameters(
    alloc: Global,
    cursor: &mut Cursor,
    kind: &[u8],
    names: &mut List<Name>,
) -> Result<(), Refusal>
    requires { length kind.now < 2 ^ 32 - 1 }
    ensures ok { OnOk result (reading.joined names.old (reading.more_parameters (plain kind.now) (kinds_left cursor.old))
        ≡ Some (names.new, kinds_left cursor.new)) }
    ensures err { IfErr result (Refuses (reading.more_parameters (plain kind.now) (kinds_left cursor.old))) }
    ensures count { OnOk result (length names.new + bytes_left cursor.new ≤ length names.old + bytes_left cursor.old) }
{
    while begins_with_sign(cursor, b',') {
        let name = next_parameter(cursor, kind)?;
        names.push(Name::from_slice(alloc, name)?)?;
    }
    Ok(())
}

/// The names of the parameters that stand before a `)`, each followed by the words `kind` of its
/// type, with commas between them. Refused where no such list comes next.
pub fn parameters(alloc: Global, cursor: &mut Cursor, kind: &[u8]) -> Result<List<Name>, Refusal>
    requires { length kind.now < 2 ^ 32 - 1 }
    ensures ok { IfOk result (λ names. reading.parameters (plain kind.now) (kinds_left cursor.old) ≡ Some (names, kinds_left cursor.new)) }
    ensures err { IfErr result (Refuses (reading.parameters (plain kind.now) (kinds_left cursor.old))) }
    ensures few { IfOk result (λ names. length names < 2 ^ 32) }
{
    let mut names = List::new(alloc);
    if begins_with_sign(cursor, b')') {
        return Ok(names);
    }
    let first = parameter(cursor, kind)?;
    names.push(Name::from_slice(alloc, first)?)?;
    more_parameters(alloc, cursor, kind, &mut names)?;
    Ok(names)
}
