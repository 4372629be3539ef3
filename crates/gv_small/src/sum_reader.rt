//! Sums of an operation's parameters and numbers.

ghost use Rattle.std.specs.Prelude.{◌≡◌, ◌^◌, ◌<◌, ◌≤◌, ◌∷◌, [], length, Some, IfOk, OnOk, IfErr, IfSome, IfNone};
ghost use Rattle.gv_small.specs.Cursor.{kinds_left, bytes_left};
ghost use Rattle.gv_small.specs.Reading as reading;
ghost use Rattle.gv_small.specs.Reading.{Refuses};
ghost use Rattle.gv_small.specs.Tokens.{signed};

use crate::cursor::Cursor;
use crate::part::part;
use crate::reading::{begins_with_sign, is_before_turn, not_of_form, word};
use crate::token::{SmallToken, Taken};
use gv_base::{List, Name, Part, Refusal, Turn};
use indexmap::IndexSet;
use std::alloc::Global;

/// What an operation returns: a first part, and what is added or taken away in turn.
#[derive(Debug, Drop)]
pub struct Sum {
    pub first: Part,
    pub rest: List<Turn>,
}

// The sign of a turn, and whether it takes away.
fn turn_sign(cursor: &mut Cursor) -> Result<bool, Refusal>
    ensures ok { IfOk result (λ minus. reading.turn_sign (kinds_left cursor.old) ≡ Some (minus, kinds_left cursor.new)) }
    ensures err { IfErr result (Refuses (reading.turn_sign (kinds_left cursor.old))) }
    ensures fewer { bytes_left cursor.new ≤ bytes_left cursor.old }
{
    match cursor.next() {
        Some(
            Taken {
                token: SmallToken::Sign(b'+'),
                ..
            },
        ) => Ok(false),
        Some(
            Taken {
                token: SmallToken::Sign(b'-'),
                ..
            },
        ) => Ok(true),
        _ => Err(not_of_form()),
    }
}

// The word of a part.
fn part_at(alloc: Global, cursor: &mut Cursor, params: &IndexSet<Name>) -> Result<Part, Refusal>
    requires { length params.now.keys < 2 ^ 32 }
    ensures ok { IfOk result (λ p. reading.part_at params.now.keys (kinds_left cursor.old) ≡ Some (p, kinds_left cursor.new)) }
    ensures err { IfErr result (Refuses (reading.part_at params.now.keys (kinds_left cursor.old))) }
    ensures fewer { OnOk result (bytes_left cursor.new < bytes_left cursor.old) }
{
    let word = word(cursor)?;
    let part = part(alloc, params, word)?;
    Ok(part)
}

// One turn.
fn turn(alloc: Global, cursor: &mut Cursor, params: &IndexSet<Name>) -> Result<Turn, Refusal>
    requires { length params.now.keys < 2 ^ 32 }
    ensures ok { IfOk result (λ t. reading.turn params.now.keys (kinds_left cursor.old) ≡ Some (t, kinds_left cursor.new)) }
    ensures err { IfErr result (Refuses (reading.turn params.now.keys (kinds_left cursor.old))) }
    ensures fewer { OnOk result (bytes_left cursor.new < bytes_left cursor.old) }
{
    let minus = turn_sign(cursor)?;
    let part = part_at(alloc, cursor, params)?;
    Ok(Turn { minus, part })
}

// The turns that come next, as many as there are.
fn turns(alloc: Global, cursor: &mut Cursor, params: &IndexSet<Name>) -> Result<List<Turn>, Refusal>
    requires { length params.now.keys < 2 ^ 32 }
    ensures ok { IfOk result (λ rest. reading.turns params.now.keys (kinds_left cursor.old) ≡ Some (rest, kinds_left cursor.new)) }
    ensures err { IfErr result (Refuses (reading.turns params.now.keys (kinds_left cursor.old))) }
{
    let mut rest = List::new(alloc);
    while is_before_turn(cursor) {
        let turn = turn(alloc, cursor, params)?;
        rest.push(turn)?;
    }
    Ok(rest)
}

/// The Sum that comes next: a number alone, or a parameter and turns. Refused where none does.
pub fn read_sum(alloc: Global, cursor: &mut Cursor, params: &IndexSet<Name>) -> Result<Sum, Refusal>
    requires { length params.now.keys < 2 ^ 32 }
    ensures ok { IfOk result (λ s. reading.sum_at params.now.keys (kinds_left cursor.old) ≡ Some ((s.first, s.rest), kinds_left cursor.new)) }
    ensures err { IfErr result (Refuses (reading.sum_at params.now.keys (kinds_left cursor.old))) }
{
    let first = part_at(alloc, cursor, params)?;
    match first {
        Part::Number(_) => Ok(Sum {
            first,
            rest: List::new(alloc),
        }),
        Part::Param(_) => {
            let rest = turns(alloc, cursor, params)?;
            Ok(Sum { first, rest })
        }
    }
}
