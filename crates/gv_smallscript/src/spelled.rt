//! The texts of tokens.

ghost use Rattle.std.specs.Prelude.{◌≡◌, ◌<◌, true, false, map, length, slice_get, Some};
ghost use Rattle.gv_lex.specs.Reading.{bytes_of};
ghost use Rattle.gv_smallscript.specs.SmallScript.{texts};

use gv_base::Token;

/// The text of a token.
pub fn text_of(text: &[u8], token: Token) -> &[u8]
    ensures { result.now ≡ bytes_of text.now token }
{
    let from = token.start as usize;
    let to = (token.end as usize).min(text.len());
    if from < to { &text[from..to] } else { &[] }
}

/// The token with a number from 0.
pub fn token_at(tokens: &[Token], at: usize) -> Token
    requires { at < length tokens.now }
    ensures { slice_get tokens.now at ≡ Some result }
{
    tokens[at]
}

/// Whether two texts are the same.
pub fn same_bytes(one: &[u8], other: &[u8]) -> bool
    ensures yes { result ≡ true → one.now ≡ other.now }
    ensures no { result ≡ false → one.now ≡ other.now → ⊥ }
{
    one == other
}

// The word with a number from 0.
fn word_at<'a>(words: &[&'a [u8]], at: usize) -> &'a [u8]
    requires { at < length words.now }
    ensures { slice_get words.now at ≡ Some result }
{
    words[at]
}

/// Whether the texts of tokens are these words.
pub fn are_spelled(text: &[u8], tokens: &[Token], words: &[&[u8]]) -> bool
    ensures yes { result ≡ true → texts text.now tokens.now ≡ map (λ word. word.now) words.now }
    ensures no { result ≡ false → texts text.now tokens.now ≡ map (λ word. word.now) words.now → ⊥ }
{
    if tokens.len() != words.len() {
        return false;
    }
    for at in 0..tokens.len() {
        if !same_bytes(text_of(text, token_at(tokens, at)), word_at(words, at)) {
            return false;
        }
    }
    true
}
