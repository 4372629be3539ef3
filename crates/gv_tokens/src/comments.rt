//! Comments `/*` as pieces.

ghost use Rattle.std.specs.Prelude.{◌≡◌, ◌≤◌, length};
ghost use Rattle.gv_tokens.specs.Comments as spec;

use crate::bytes::begins_with;

/// How many bytes a comment `/*` at the start of a text has.
pub fn block_len(text: &[u8]) -> usize
    ensures value { result ≡ spec.block_length text.now }
    ensures within { result ≤ length text.now }
{
    match text {
        [b'/', b'*', rest @ ..] => 2 + block_rest(rest),
        _ => 0,
    }
}

#[tactic(auto, unfolding(crate::specs::Comments::block_rest))]
fn block_rest(text: &[u8]) -> usize
    ensures value { result ≡ spec.block_rest text.now }
    ensures within { result ≤ length text.now }
{
    for (i, byte) in text.iter().enumerate() {
        if *byte == b'*' && begins_with(&text[i + 1..], b'/') {
            return i + 2;
        }
    }
    text.len()
}
