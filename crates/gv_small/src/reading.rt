//! Reading from a cursor: given tokens, names, parameters and Sums.

ghost use Rattle.std.specs.Prelude.{◌≡◌, ◌-◌, ◌^◌, ◌<◌, ◌≤◌, [], ◌∷◌, length, not, true, Some, IsTrue, ◌↔◌, OnOk, IfOk, IfErr, OnErr};
ghost use Rattle.gv_small.specs.Tokens as spec;
ghost use Rattle.gv_small.specs.Cursor.{tokens_left, kinds_left, bytes_left};
ghost use Rattle.gv_small.specs.Forms.{is_name, is_operation_name};
ghost use Rattle.gv_small.specs.Reading as reading;
ghost use Rattle.gv_small.specs.Reading.{Refuses, start_refusal};

use crate::cursor::Cursor;
use crate::names::{is_name, is_operation_name};
use crate::token::{SmallToken, Taken, is_same};
use gv_base::{Code, Place, Refusal};

/// The refusal of a text that isn't of its form.
pub fn not_of_form() -> Refusal
    ensures { result ≡ start_refusal }
{
    Refusal::At {
        place: Place { line: 1, column: 1 },
        code: Code::NotInProfile,
    }
}

/// Takes the tokens of `text`, which is one of this project's own, where they come next.
/// Refused where they don't.
pub fn expect(cursor: &mut Cursor, text: &[u8]) -> Result<(), Refusal>
    requires { length text.now < 2 ^ 32 - 1 }
    ensures ok { OnOk result (reading.behind_all (spec.plain text.now) (kinds_left cursor.old) ≡ Some (kinds_left cursor.new)) }
    ensures placed { OnOk result (reading.behind_placed (spec.plain text.now) (tokens_left cursor.old) ≡ Some (tokens_left cursor.new)) }
    ensures err { IfErr result (Refuses (reading.behind_all (spec.plain text.now) (kinds_left cursor.old))) }
    ensures fewer { bytes_left cursor.new ≤ bytes_left cursor.old }
{
    let mut wanted = Cursor::new(text, false);
    while let Some(want) = wanted.next() {
        match cursor.next() {
            Some(found) if is_same(&want.token, &found.token) => {}
            _ => return Err(not_of_form()),
        }
    }
    Ok(())
}

/// Takes this very word, where it comes next. Refused where it doesn't.
pub fn expect_word(cursor: &mut Cursor, wanted: &[u8]) -> Result<(), Refusal>
    ensures ok { OnOk result (reading.behind_all (spec.named wanted.now ∷ []) (kinds_left cursor.old) ≡ Some (kinds_left cursor.new)) }
    ensures err { IfErr result (Refuses (reading.behind_all (spec.named wanted.now ∷ []) (kinds_left cursor.old))) }
    ensures fewer { bytes_left cursor.new ≤ bytes_left cursor.old }
{
    match cursor.next() {
        Some(
            Taken {
                token: SmallToken::Word(word),
                ..
            },
        ) if wanted == word => Ok(()),
        _ => Err(not_of_form()),
    }
}

/// Passes over a semicolon, where one comes next.
pub fn pass_semicolon(cursor: &mut Cursor)
    ensures passed { kinds_left cursor.new ≡ reading.past_semicolon (kinds_left cursor.old) }
    ensures fewer { bytes_left cursor.new ≤ bytes_left cursor.old }
{
    if begins_with_sign(cursor, b';') {
        let _ = cursor.next();
    }
}

/// Takes the word that comes next. Refused where none does.
pub fn word<'a>(cursor: &mut Cursor<'a>) -> Result<&'a [u8], Refusal>
    ensures ok { IfOk result (λ w. reading.word_at (λ v. true) (kinds_left cursor.old) ≡ Some (w.now, kinds_left cursor.new)) }
    ensures placed { IfOk result (λ w. reading.word_placed (λ v. true) (tokens_left cursor.old) ≡ Some (w.now, tokens_left cursor.new)) }
    ensures err { IfErr result (Refuses (reading.word_at (λ v. true) (kinds_left cursor.old))) }
    ensures fewer { OnOk result (bytes_left cursor.new < bytes_left cursor.old) }
{
    match cursor.next() {
        Some(
            Taken {
                token: SmallToken::Word(word),
                ..
            },
        ) => Ok(word),
        _ => Err(not_of_form()),
    }
}

/// Takes the name that comes next. Refused where none does.
pub fn name<'a>(cursor: &mut Cursor<'a>) -> Result<&'a [u8], Refusal>
    ensures ok { IfOk result (λ w. reading.word_at is_name (kinds_left cursor.old) ≡ Some (w.now, kinds_left cursor.new)) }
    ensures placed { IfOk result (λ w. reading.word_placed is_name (tokens_left cursor.old) ≡ Some (w.now, tokens_left cursor.new)) }
    ensures err { IfErr result (Refuses (reading.word_at is_name (kinds_left cursor.old))) }
    ensures fewer { OnOk result (bytes_left cursor.new < bytes_left cursor.old) }
{
    let word = word(cursor)?;
    if is_name(word) {
        Ok(word)
    } else {
        Err(not_of_form())
    }
}

/// Takes the operation's name that comes next. Refused where none does.
pub fn operation_name<'a>(cursor: &mut Cursor<'a>) -> Result<&'a [u8], Refusal>
    ensures ok { IfOk result (λ w. reading.word_at is_operation_name (kinds_left cursor.old) ≡ Some (w.now, kinds_left cursor.new)) }
    ensures placed { IfOk result (λ w. reading.word_placed is_operation_name (tokens_left cursor.old) ≡ Some (w.now, tokens_left cursor.new)) }
    ensures err { IfErr result (Refuses (reading.word_at is_operation_name (kinds_left cursor.old))) }
{
    let word = word(cursor)?;
    if is_operation_name(word) {
        Ok(word)
    } else {
        Err(not_of_form())
    }
}

/// Whether this sign comes next.
pub fn begins_with_sign(cursor: &Cursor, sign: u8) -> bool
    ensures { result ≡ reading.begins_with_sign sign (kinds_left cursor.now) }
{
    let mut ahead = *cursor;
    match ahead.next() {
        Some(
            Taken {
                token: SmallToken::Sign(found),
                ..
            },
        ) => found == sign,
        _ => false,
    }
}

/// Whether the sign of a turn comes next.
pub fn is_before_turn(cursor: &Cursor) -> bool
    ensures { result ≡ not (reading.no_turn (kinds_left cursor.now)) }
{
    begins_with_sign(cursor, b'+') || begins_with_sign(cursor, b'-')
}

/// Whether no token is left.
pub fn is_at_end(cursor: &Cursor) -> bool
    ensures { IsTrue result ↔ (kinds_left cursor.now ≡ []) }
{
    let mut ahead = *cursor;
    ahead.next().is_none()
}
