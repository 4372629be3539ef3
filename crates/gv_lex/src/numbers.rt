//! Numbers as pieces, right and wrong.

ghost use Rattle.std.specs.Prelude.{◌≡◌, ◌≤◌, length};
ghost use Rattle.std.specs.Char.{is_digit};
ghost use Rattle.std.specs.List.{list_all};
ghost use Rattle.gv_lex.specs.Numbers as spec;

use crate::bytes::is_name_byte;
use gv_text::{is_digit, value_of};

// The largest number that a text may hold.
const LARGEST: u128 = 1 << 127;

/// How many letters, digits and `_` are at the start of a text.
pub fn number_len(text: &[u8]) -> usize
    ensures value { result ≡ spec.number_length text.now }
    ensures within { result ≤ length text.now }
{
    for (i, byte) in text.iter().enumerate() {
        if !is_name_byte(*byte) {
            return i;
        }
    }
    text.len()
}

fn are_digits(bytes: &[u8], radix: u32) -> bool
    requires least { 2 ≤ radix }
    requires most { radix ≤ 36 }
    ensures { result ≡ spec.are_digits radix bytes.now }
{
    !bytes.is_empty() && all_digits(bytes, radix)
}

fn all_digits(bytes: &[u8], radix: u32) -> bool
    requires least { 2 ≤ radix }
    requires most { radix ≤ 36 }
    ensures { result ≡ list_all (λ b. is_digit b radix) bytes.now }
{
    bytes.iter().all(|byte| is_digit(*byte, radix))
}

fn is_right_decimal(bytes: &[u8]) -> bool
    ensures { result ≡ spec.is_right_decimal bytes.now }
{
    are_digits(bytes, 10)
        && (bytes.len() == 1 || bytes[0] != b'0')
        && value_of(bytes, 10, LARGEST).is_some()
}

fn is_right_hexadecimal(digits: &[u8]) -> bool
    ensures { result ≡ spec.is_right_hexadecimal digits.now }
{
    are_digits(digits, 16) && value_of(digits, 16, LARGEST).is_some()
}

/// Whether bytes are a number up to the largest one.
pub fn is_right_number(bytes: &[u8]) -> bool
    ensures { result ≡ spec.is_right_number bytes.now }
{
    match bytes {
        [b'0', b'x', digits @ ..] => is_right_hexadecimal(digits),
        _ => is_right_decimal(bytes),
    }
}
