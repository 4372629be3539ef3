//! Identifiers as pieces.

ghost use Rattle.std.specs.Prelude.{◌≡◌, ◌≤◌, length, slice_index};
ghost use Rattle.gv_lex.specs.Bytes.{is_name_byte as spec_name_byte};
ghost use Rattle.gv_lex.specs.Names as spec;

use crate::bytes::{is_name_byte, is_name_start};

/// How many bytes the identifier at the start of a text has, or 0 where there is none.
pub fn name_len(text: &[u8]) -> usize
    ensures value { result ≡ spec.name_length text.now }
    ensures within { result ≤ length text.now }
{
    match text {
        [first, rest @ ..] if is_name_start(*first) => 1 + name_rest(rest),
        _ => 0,
    }
}

#[tactic(auto, unfolding(crate::specs::Names::name_rest))]
fn name_rest(text: &[u8]) -> usize
    ensures value { result ≡ spec.name_rest text.now }
    ensures within { result ≤ length text.now }
{
    for (i, byte) in text.iter().enumerate() {
        if !goes_on(*byte, &text[i + 1..]) {
            return i;
        }
    }
    text.len()
}

fn goes_on(byte: u8, rest: &[u8]) -> bool
    ensures { result ≡ spec.goes_on byte (slice_index rest.now 0) }
{
    is_name_byte(byte) || byte == b'.' && begins_with_name_byte(rest)
}

fn begins_with_name_byte(text: &[u8]) -> bool
    ensures { result ≡ spec_name_byte (slice_index text.now 0) }
{
    match text {
        [first, ..] => is_name_byte(*first),
        [] => false,
    }
}
