//! Rune literals as pieces.

ghost use Rattle.std.specs.Prelude.{◌≡◌, ◌^◌, ◌<◌, ◌≤◌, length};
ghost use Rattle.std.specs.Char.{is_digit};
ghost use Rattle.std.specs.List.{list_all};
ghost use Rattle.gv_text.specs.Digits.{value_of};
ghost use Rattle.gv_tokens.specs.Runes as spec;

use crate::bytes::begins_with;
use crate::chars::{char_len, first_char};
use gv_text::{is_digit, word_of};

/// What an escape by number may stand for.
#[derive(Clone, Copy, Debug, PartialEq, Eq)]
pub enum Limit {
    Byte,
    Scalar,
}

fn is_allowed(limit: Limit, value: u64) -> bool
    ensures { result ≡ spec.is_allowed limit value }
{
    match limit {
        Limit::Byte => value < 256,
        Limit::Scalar => value < 0xD800 || 0xE000 <= value && value < 0x11_0000,
    }
}

fn is_allowed_value(limit: Limit, digits: &[u8], radix: u32) -> bool
    requires least { 2 ≤ radix }
    requires most { radix ≤ 36 }
    ensures { result ≡ spec.is_allowed limit (value_of radix digits.now) }
{
    match word_of(digits, radix) {
        Some(value) => is_allowed(limit, value),
        None => false,
    }
}

fn are_digits(digits: &[u8], radix: u32) -> bool
    requires least { 2 ≤ radix }
    requires most { radix ≤ 36 }
    ensures { result ≡ list_all (λ b. is_digit b radix) digits.now }
{
    digits.iter().all(|byte| is_digit(*byte, radix))
}

#[tactic(auto, unfolding(crate::specs::Runes::code_length))]
fn code_len(text: &[u8], radix: u32, count: usize, limit: Limit) -> usize
    requires least { 2 ≤ radix }
    requires most { radix ≤ 36 }
    ensures value { result ≡ spec.code_length radix count limit text.now }
    ensures within { result ≤ length text.now }
{
    if text.len() < count {
        return 0;
    }
    let digits = &text[..count];
    if are_digits(digits, radix) && is_allowed_value(limit, digits, radix) {
        count
    } else {
        0
    }
}

fn one_more(len: usize) -> usize
    requires { len < 2 ^ 63 }
    ensures { result ≡ spec.one_more len }
{
    if len == 0 { 0 } else { 1 + len }
}

fn is_simple_escape(byte: u8) -> bool
    ensures { result ≡ spec.is_simple_escape byte }
{
    byte == b'a'
        || byte == b'b'
        || byte == b'f'
        || byte == b'n'
        || byte == b'r'
        || byte == b't'
        || byte == b'v'
        || byte == b'\\'
        || byte == b'\''
}

fn escape_len(text: &[u8]) -> usize
    ensures value { result ≡ spec.escape_length text.now }
    ensures within { result ≤ length text.now }
{
    match text {
        [] => 0,
        [first, ..] if is_simple_escape(*first) => 1,
        [b'x', rest @ ..] => one_more(code_len(rest, 16, 2, Limit::Byte)),
        [b'u', rest @ ..] => one_more(code_len(rest, 16, 4, Limit::Scalar)),
        [b'U', rest @ ..] => one_more(code_len(rest, 16, 8, Limit::Scalar)),
        _ => code_len(text, 8, 3, Limit::Byte),
    }
}

fn rune_value_len(text: &[u8]) -> usize
    ensures value { result ≡ spec.rune_value text.now }
    ensures within { result ≤ length text.now }
{
    match text {
        [] | [b'\'' | b'\n', ..] => 0,
        [b'\\', rest @ ..] => one_more(escape_len(rest)),
        [first, ..] => match first_char(text) {
            Some(_) => char_len(*first),
            None => 0,
        },
    }
}

/// How many bytes the rune literal at the start of a text has, or 0 where none begins there.
#[tactic(auto, unfolding(crate::specs::Runes::rune_length))]
pub fn rune_len(text: &[u8]) -> usize
    ensures value { result ≡ spec.rune_length text.now }
    ensures within { result ≤ length text.now }
{
    match text {
        [] => 0,
        [_, rest @ ..] => {
            let value = rune_value_len(rest);
            if value != 0 && begins_with(&rest[value..], b'\'') {
                value + 2
            } else {
                0
            }
        }
    }
}
