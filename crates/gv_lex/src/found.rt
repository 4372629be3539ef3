//! The fault of a grammar, at a token that may not stand where it does.

ghost use Rattle.std.specs.Prelude.{◌≡◌, ◌-◌, ◌^◌, ◌<◌, length};
ghost use Rattle.gv_lex.specs.Reading.{bytes_of as spec_bytes};
ghost use Rattle.gv_lex.specs.Unexpected as spec;

use gv_base::{Code, Kind, Token};
use gv_termread::number_of;
use gv_text::{Found, unexpected};

// The bytes of a token.
fn bytes_of(text: &[u8], token: Token) -> &[u8]
    ensures { result.now ≡ spec_bytes text.now token }
{
    let from = token.start as usize;
    let to = (token.end as usize).min(text.len());
    if from < to { &text[from..to] } else { &[] }
}

fn is_large(kind: Kind, bytes: &[u8]) -> bool
    ensures { result ≡ spec.is_large kind bytes.now }
{
    match kind {
        Kind::Number => number_of(bytes).is_none(),
        Kind::Word | Kind::Text | Kind::Sign | Kind::Semi => false,
    }
}

/// A token of a text, as the fault of a grammar tells it: where it begins, and whether it is a number of 2^64 or more.
pub fn found_in(text: &[u8], token: Token) -> Found
    ensures { result ≡ spec.found_in text.now token }
{
    Found {
        start: token.start,
        is_large: is_large(token.kind, bytes_of(text, token)),
    }
}

/// The fault of a grammar at the token with a number among those of a text of fewer than 2^32 - 1 bytes, as a byte and a
/// code: `Unexpected`, or `BadNumber` where it is a number of 2^64 or more, at its first byte; or `EndOfText` at the text's
/// end where there are no more tokens. This project's own.
pub fn unexpected_in(text: &[u8], tokens: &[Token], at: usize) -> (u32, Code)
    requires { length text.now < 2 ^ 32 - 1 }
    ensures { result ≡ spec.unexpected_in text.now tokens.now at }
{
    let end = text.len() as u32;
    match tokens.get(at) {
        Some(token) => unexpected(Some(found_in(text, *token)), end),
        None => unexpected(None, end),
    }
}
