//! Identifiers and keywords as pieces.

ghost use Rattle.std.specs.Prelude.{◌≡◌, ◌≤◌, length};
ghost use Rattle.gv_tokens.specs.Words as spec;

use crate::chars::{char_len, first_char, is_letter, is_letter_or_digit};

/// How many bytes the word at the start of a text has, or 0 where there is none.
#[tactic(auto, unfolding(crate::specs::Words::word_length))]
pub fn word_len(text: &[u8]) -> usize
    ensures value { result ≡ spec.word_length text.now }
    ensures within { result ≤ length text.now }
{
    match first_char(text) {
        Some(c) if is_letter(c) => letters_run(text),
        _ => 0,
    }
}

#[tactic(auto, unfolding(crate::specs::Words::letters_run))]
fn letters_run(text: &[u8]) -> usize
    ensures value { result ≡ spec.letters_run 0 text.now }
    ensures within { result ≤ length text.now }
{
    let mut at = 0;
    while at < text.len() {
        match first_char(&text[at..]) {
            Some(c) if is_letter_or_digit(c) => at += char_len(text[at]),
            _ => return at,
        }
    }
    at
}
