//! Text literals as pieces.

ghost use Rattle.std.specs.Prelude.{◌≡◌, ◌≤◌, ◌==◌, length};
ghost use Rattle.gv_text.specs.Lengths.{optional, nothing};
ghost use Rattle.gv_tokens.specs.Texts as spec;

use crate::bytes::{Class, run_len};

/// 1 where a text begins with a byte, else 0.
pub fn byte_len(text: &[u8], byte: u8) -> usize
    ensures value { result ≡ optional (λ b. b == byte) nothing text.now }
    ensures within { result ≤ length text.now }
{
    match text {
        [first, ..] if *first == byte => 1,
        _ => 0,
    }
}

/// How many bytes a text literal at the start of a text has.
pub fn text_len(text: &[u8]) -> usize
    ensures value { result ≡ spec.text_length text.now }
    ensures within { result ≤ length text.now }
{
    match text {
        [b'"', rest @ ..] => {
            let inner = run_len(rest, Class::InText);
            1 + inner + byte_len(&rest[inner..], b'"')
        }
        _ => 0,
    }
}

/// How many bytes a raw text literal at the start of a text has.
pub fn raw_len(text: &[u8]) -> usize
    ensures value { result ≡ spec.raw_length text.now }
    ensures within { result ≤ length text.now }
{
    match text {
        [b'`', rest @ ..] => {
            let inner = run_len(rest, Class::InRawText);
            1 + inner + byte_len(&rest[inner..], b'`')
        }
        _ => 0,
    }
}
