//! The pass over a text.

ghost use Rattle.std.specs.Prelude.{◌≡◌, ◌-◌, ◌^◌, ◌<◌, ℕ, Ok, length, IfOk, IfErr};
ghost use Rattle.gv_base.specs.Places.{place_at};
ghost use Rattle.gv_base.specs.Tokens.{AreSpans};
ghost use Rattle.gv_base.specs.declared.answers.Code.{Code as AnyCode};
ghost use Rattle.gv_text.specs.Answers.{IsReadAs, IsRefusedAs, Refuses};
ghost use Rattle.gv_text.specs.Stops.{StopsAs};
ghost use Rattle.gv_replay.specs.Reading as reading;
ghost use Rattle.gv_replay.specs.Reading.{Tells, IsRefused};

use crate::account::Account;
use crate::line::TextKind;
use crate::operations::Operations;
use crate::progress::{beginning, finish, take};
use crate::sight::sight_of;
use gv_atomic::Spec;
use gv_base::{Refusal, Token};
use gv_lex::lex;
use gv_text::{Stop, refusal_of};
use std::alloc::Global;

// What the tokens of a text come to.
fn told_by<A: Account>(
    alloc: Global,
    text: &[u8],
    spec: &Spec,
    kind: TextKind,
    start: A,
    tokens: &[Token],
) -> Result<A, Stop>
    requires short { length text.now < 2 ^ 32 - 1 }
    requires spans { AreSpans 0 (length text.now) tokens.now }
    ensures ok { IfOk result (λ told. reading.told_by (A.with_line spec.now) start kind text.now tokens.now ≡ Ok told) }
    ensures err { IfErr result (StopsAs (reading.told_by (A.with_line spec.now) start kind text.now tokens.now)) }
{
    let table = Operations::new(alloc, spec)?;
    let mut progress = beginning(start);
    let mut behind = 0;
    let mut left = tokens;
    while let [token, rest @ ..] = left {
        let sight = sight_of(alloc, text, behind, *token)?;
        progress = take(alloc, spec, &table, kind, progress, sight)?;
        behind = token.end;
        left = rest;
    }
    match finish(alloc, spec, &table, progress, text.len() as u32)? {
        Ok(told) => Ok(told),
        Err((at, code)) => Err(Stop::At(at, code)),
    }
}

/// What a text of a kind comes to.
pub fn read<A: Account>(
    alloc: Global,
    text: &[u8],
    spec: &Spec,
    kind: TextKind,
    start: A,
) -> Result<A, Refusal>
    requires { length text.now < 2 ^ 32 - 1 }
    ensures found { IfOk result (λ told. Tells (A.with_line spec.now) start kind text.now told) }
    ensures only { (told : A) → Tells (A.with_line spec.now) start kind text.now told → IsReadAs told result }
    ensures refused { IfErr result (Refuses text.now (IsRefused (A.with_line spec.now) start kind text.now)) }
    ensures fault { (at : ℕ) (code : AnyCode) → IsRefused (A.with_line spec.now) start kind text.now at code
        → IsRefusedAs (place_at text.now at) code result }
{
    let tokens = lex(alloc, text)?;
    match told_by(alloc, text, spec, kind, start, tokens.as_slice()) {
        Ok(told) => Ok(told),
        Err(stop) => Err(refusal_of(text, stop)),
    }
}
