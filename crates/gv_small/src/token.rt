//! Tokens of the small form.

ghost use Rattle.std.specs.Prelude.{◌≡◌};
ghost use Rattle.gv_small.specs.Cursor.{token_of};
ghost use Rattle.gv_small.specs.Reading.{is_same};

use gv_base::Place;

/// A token: a run of letters, digits and `_`; `->`; or another byte that is no blank.
/// This project's own.
#[derive(Clone, Copy)]
pub enum SmallToken<'a> {
    Word(&'a [u8]),
    Arrow,
    Sign(u8),
}

/// A token and the place of its first byte. A semicolon that was left out at the end of a line
/// stands directly behind the token before it.
#[derive(Clone, Copy)]
pub struct Taken<'a> {
    pub token: SmallToken<'a>,
    pub place: Place,
}

/// Whether two tokens are the same, wherever they stand.
pub fn is_same(one: &SmallToken, other: &SmallToken) -> bool
    ensures { result ≡ is_same (token_of one.now) (token_of other.now) }
{
    match (one, other) {
        (SmallToken::Word(a), SmallToken::Word(b)) => a == b,
        (SmallToken::Arrow, SmallToken::Arrow) => true,
        (SmallToken::Sign(a), SmallToken::Sign(b)) => a == b,
        _ => false,
    }
}
