//! The values of numbers.

ghost use Rattle.std.specs.Prelude.{◌≡◌, ◌≤◌, length, drop};
ghost use Rattle.gv_tokens.specs.Numbers as number;
ghost use Rattle.gv_operands.specs.Operators.{word_within};
ghost use Rattle.gv_gotypes.specs.Literals.{number_value};

use gv_operands::Value;
use gv_text::word_of;

fn radix_by(second: u8) -> u32
    ensures value { result ≡ number.radix_of (number.base_by second) }
    ensures least { 2 ≤ result }
    ensures most { result ≤ 36 }
{
    if second == b'x' || second == b'X' {
        16
    } else if second == b'b' || second == b'B' {
        2
    } else if second == b'o' || second == b'O' {
        8
    } else {
        10
    }
}

fn radix_of(text: &[u8]) -> u32
    ensures value { result ≡ number.radix_of (number.base_of text.now) }
    ensures least { 2 ≤ result }
    ensures most { result ≤ 36 }
{
    match text {
        [b'0', second, ..] => radix_by(*second),
        _ => 10,
    }
}

fn digits_in(text: &[u8]) -> &[u8]
    ensures { result.now ≡ drop (number.prefix_length (number.base_of text.now)) text.now }
{
    if radix_of(text) == 10 {
        text
    } else {
        &text[2..]
    }
}

/// The value of a number's bytes, or none from 2^64 on.
pub fn number_of(text: &[u8]) -> Option<Value>
    ensures { result ≡ word_within (number_value text.now) }
{
    match word_of(digits_in(text), radix_of(text)) {
        Some(value) => Some(Value::Count(value)),
        None => None,
    }
}
