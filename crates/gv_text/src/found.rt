//! The fault of a grammar.

ghost use Rattle.std.specs.Prelude.{◌≡◌};
ghost use Rattle.gv_text.specs.Unexpected as spec;

use gv_base::Code;

/// A token that may not stand where it does: its first byte, and whether it is a number of 2^64 or more in one of this
/// project's own texts. This project's own.
#[derive(Clone, Copy, Debug, PartialEq, Eq)]
pub struct Found {
    pub start: u32,
    pub is_large: bool,
}

/// The fault of a token that may not stand where it does, as a byte and a code: `Unexpected`, or `BadNumber` for a number
/// of 2^64 or more, at the token's first byte; or where no token is left, `EndOfText` at the end of the text, which has
/// `end` bytes. This project's own.
pub fn unexpected(token: Option<Found>, end: u32) -> (u32, Code)
    ensures { result ≡ spec.unexpected_token end token }
{
    match token {
        None => (end, Code::EndOfText),
        Some(Found { start, is_large }) => (start, code_by(is_large)),
    }
}

fn code_by(is_large: bool) -> Code
    ensures { result ≡ spec.code_by is_large }
{
    if is_large {
        Code::BadNumber
    } else {
        Code::Unexpected
    }
}
