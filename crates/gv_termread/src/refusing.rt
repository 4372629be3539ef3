//! Faults of a grammar as faults of the text.

ghost use Rattle.std.specs.Prelude.{◌≡◌, ◌<◌, ◌≤◌, ◌==◌, ◌^◌, ◌-◌, Some, length, slice_get};
ghost use Rattle.gv_termread.specs.Reading as spec;

use crate::generated::term_table::CLASS_LARGE_NUMBER;
use crate::token::SeenToken;
use gv_base::Code;
use gv_text::{Found, unexpected};

/// The token with this number.
pub fn token_at(tokens: &[SeenToken], at: usize) -> SeenToken
    requires { at < length tokens.now }
    ensures { slice_get tokens.now at ≡ Some result }
{
    tokens[at]
}

/// The fault of a token that a grammar doesn't allow where it stands, as its first byte and its code: `Unexpected`, or
/// `BadNumber` for a number of 2^64 or more.
pub fn fault_of(token: SeenToken) -> (u32, Code)
    ensures place { result.0 ≡ token.start }
    ensures code { result.1 ≡ spec.code_of token.class }
{
    let found = Found {
        start: token.start,
        is_large: token.class == CLASS_LARGE_NUMBER,
    };
    unexpected(Some(found), 0)
}
