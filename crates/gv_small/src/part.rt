//! What a word in a Sum stands for.

ghost use Rattle.std.specs.Prelude.{◌≡◌, ◌+◌, ◌*◌, ◌^◌, ◌<◌, ◌≤◌, length, true, Some, None, IfSome, IfNone, IfOk, IfErr};
ghost use Rattle.std.specs.List.{list_all};
ghost use Rattle.gv_small.specs.Forms as form;
ghost use Rattle.gv_small.specs.Reading.{Refuses};

use crate::names::{begins_with_digit, is_digit};
use crate::reading::not_of_form;
use gv_base::{Name, Part, Refusal};
use indexmap::IndexSet;
use std::alloc::Global;

fn has_leading_zero(word: &[u8]) -> bool
    ensures { result ≡ form.has_leading_zero word.now }
{
    match word {
        [first, _, ..] => *first == b'0',
        _ => false,
    }
}

fn has_digits_alone(word: &[u8]) -> bool
    ensures { result ≡ list_all form.is_digit word.now }
{
    word.iter().all(|byte| is_digit(*byte))
}

// Whether a word is decimal digits without a leading zero.
fn is_numeral(word: &[u8]) -> bool
    ensures { result ≡ form.is_numeral word.now }
{
    begins_with_digit(word) && has_digits_alone(word) && !has_leading_zero(word)
}

// The number that digits write, where it is below 2^64.
fn value_of(word: &[u8]) -> Option<u64>
    requires { list_all form.is_digit word.now ≡ true }
    ensures { result ≡ form.word_number word.now }
{
    let mut value: u64 = 0;
    for byte in word {
        let digit = u64::from(*byte - b'0');
        value = with_digit(value, digit)?;
    }
    Some(value)
}

// One more digit at the end of a number.
fn with_digit(value: u64, digit: u64) -> Option<u64>
    requires { digit < 10 }
    ensures some { IfSome result (λ n. n ≡ value * 10 + digit) }
    ensures fits { IfSome result (λ n. n < 2 ^ 64) }
    ensures none { IfNone result (2 ^ 64 ≤ value * 10 + digit) }
{
    value.checked_mul(10)?.checked_add(digit)
}

/// The number that a word is: decimal, below 2^64, without a leading zero.
pub fn number(word: &[u8]) -> Option<u64>
    ensures { result ≡ form.number_of word.now }
{
    if is_numeral(word) {
        value_of(word)
    } else {
        None
    }
}

/// The part of a Sum that a word is: a number, or the place of a parameter. Refused where it is
/// neither.
pub fn part(alloc: Global, params: &IndexSet<Name>, word: &[u8]) -> Result<Part, Refusal>
    requires { length params.now.keys < 2 ^ 32 }
    ensures ok { IfOk result (λ p. form.part_of params.now.keys word.now ≡ Some p) }
    ensures err { IfErr result (Refuses (form.part_of params.now.keys word.now)) }
{
    if begins_with_digit(word) {
        return match number(word) {
            Some(value) => Ok(Part::Number(value)),
            None => Err(not_of_form()),
        };
    }
    let name = Name::from_slice(alloc, word)?;
    match params.get_index_of(&name) {
        Some(place) => Ok(Part::Param(place as u32)),
        None => Err(not_of_form()),
    }
}
