//! Literals of bytes as pieces.

ghost use Rattle.std.specs.Prelude.{◌≡◌, ◌≤◌, length};
ghost use Rattle.gv_lex.specs.Literals as spec;

use crate::bytes::is_hex;

/// How many bytes the literal at the start of a text has, or 0 where there is none.
pub fn literal_len(text: &[u8]) -> usize
    ensures value { result ≡ spec.literal_length text.now }
    ensures within { result ≤ length text.now }
{
    match text {
        [b'#', rest @ ..] => 1 + hex_run(rest),
        _ => 0,
    }
}

fn hex_run(text: &[u8]) -> usize
    ensures value { result ≡ spec.hex_run text.now }
    ensures within { result ≤ length text.now }
{
    for (i, byte) in text.iter().enumerate() {
        if !is_hex(*byte) {
            return i;
        }
    }
    text.len()
}

/// Whether a literal has two digits for each byte.
pub fn has_whole_bytes(literal: &[u8]) -> bool
    ensures { result ≡ spec.has_whole_bytes literal.now }
{
    match literal {
        [_, digits @ ..] => digits.len() % 2 == 0,
        [] => true,
    }
}
