//! The forms of pieces.

ghost use Rattle.std.specs.Prelude.{◌≡◌};
ghost use Rattle.gv_lex.specs.Forms as spec;

use crate::bytes::is_name_start;
use gv_text::{is_blank, is_decimal};

/// What a piece of a text is by its first bytes.
#[derive(Clone, Copy, Debug, PartialEq, Eq)]
pub enum Form {
    /// One white space character.
    Blank,
    /// From `//` to the end of the line.
    Comment,
    /// A letter or `_`, and letters, digits, `_` and single dots after it.
    Word,
    /// Letters, digits and `_` after a digit.
    Number,
    /// `#` and hexadecimal digits.
    Literal,
    /// An operator or punctuation, or what begins no piece.
    Sign,
}

#[tactic(auto, unfolding(crate::specs::Forms::form_of))]
pub fn form_of(text: &[u8]) -> Form
    ensures { result ≡ spec.form_of text.now }
{
    match text {
        [] => form_by(0, 0),
        [first] => form_by(*first, 0),
        [first, second, ..] => form_by(*first, *second),
    }
}

fn form_by(first: u8, second: u8) -> Form
    ensures { result ≡ spec.form_by first second }
{
    if is_blank(first) {
        Form::Blank
    } else if first == b'/' && second == b'/' {
        Form::Comment
    } else if is_name_start(first) {
        Form::Word
    } else if is_decimal(first) {
        Form::Number
    } else if first == b'#' {
        Form::Literal
    } else {
        Form::Sign
    }
}
