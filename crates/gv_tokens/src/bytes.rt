//! Classes of bytes.

ghost use Rattle.std.specs.Prelude.{◌≡◌, ◌<◌, ◌≤◌, ◌==◌, length, slice_index};
ghost use Rattle.gv_tokens.specs.Bytes as spec;

use gv_text::{is_decimal, is_digit};

/// The bytes that may go on a piece.
#[derive(Clone, Copy, Debug, PartialEq, Eq)]
pub enum Class {
    InText,
    InRawText,
    DecimalDigits,
    HexDigits,
}

/// Whether a text begins with a byte other than 0.
pub fn begins_with(text: &[u8], byte: u8) -> bool
    requires { 0 < byte }
    ensures { result ≡ (slice_index text.now 0 == byte) }
{
    match text {
        [first, ..] => *first == byte,
        [] => false,
    }
}

fn belongs(class: Class, byte: u8) -> bool
    ensures { result ≡ spec.belongs class byte }
{
    match class {
        Class::InText => byte != b'"' && byte != b'\n',
        Class::InRawText => byte != b'`',
        Class::DecimalDigits => is_decimal(byte) || byte == b'_',
        Class::HexDigits => is_digit(byte, 16) || byte == b'_',
    }
}

/// How many bytes at the start of a text are of a class.
pub fn run_len(text: &[u8], class: Class) -> usize
    ensures value { result ≡ spec.run class text.now }
    ensures within { result ≤ length text.now }
{
    for (i, byte) in text.iter().enumerate() {
        if !belongs(class, *byte) {
            return i;
        }
    }
    text.len()
}
