//! White space and line comments as pieces.

ghost use Rattle.std.specs.Prelude.{◌≡◌, ◌≤◌, length};
ghost use Rattle.std.specs.List.{prefix_len};
ghost use Rattle.gv_text.specs.Gaps as spec;

use crate::bytes::is_blank;

/// How many bytes the white space character at the start of a text has: 1, or 0 where there is none.
pub fn blank_len(text: &[u8]) -> usize
    ensures value { result ≡ spec.blank_length text.now }
    ensures within { result ≤ length text.now }
{
    match text {
        [first, ..] if is_blank(*first) => 1,
        _ => 0,
    }
}

/// How many bytes a comment `//` at the start of a text has, or 0 where there is none: up to the next newline and without
/// it, or to the end.
pub fn line_len(text: &[u8]) -> usize
    ensures value { result ≡ spec.line_length text.now }
    ensures within { result ≤ length text.now }
{
    match text {
        [b'/', b'/', rest @ ..] => 2 + rest_of_line(rest),
        _ => 0,
    }
}

fn rest_of_line(text: &[u8]) -> usize
    ensures value { result ≡ prefix_len spec.is_on_line text.now }
    ensures within { result ≤ length text.now }
{
    for (i, byte) in text.iter().enumerate() {
        if *byte == b'\n' {
            return i;
        }
    }
    text.len()
}
