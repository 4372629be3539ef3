//! The forms of pieces.

ghost use Rattle.std.specs.Prelude.{◌≡◌};
ghost use Rattle.gv_tokens.specs.Forms.{form_of, form_by};

use gv_text::is_decimal;

/// What a piece of a text is by its first bytes. Raw texts and runes stand in Go's grammar alone.
#[derive(Clone, Copy, Debug, PartialEq, Eq)]
pub enum Form {
    /// One white space character.
    Blank,
    LineComment,
    BlockComment,
    /// A letter, and letters and digits after it.
    Word,
    Number,
    Text,
    RawText,
    Rune,
    Sign,
}

#[tactic(auto, unfolding(crate::specs::Forms::form_of))]
pub fn form_of(text: &[u8]) -> Form
    ensures { result ≡ form_of text.now }
{
    match text {
        [] => form_by(0, 0),
        [first] => form_by(*first, 0),
        [first, second, ..] => form_by(*first, *second),
    }
}

#[tactic(auto, unfolding(crate::specs::Signs::is_sign))]
fn form_by(first: u8, second: u8) -> Form
    ensures { result ≡ form_by first second }
{
    match first {
        b' ' | b'\t' | b'\r' | b'\n' => Form::Blank,
        b'"' => Form::Text,
        b'`' => Form::RawText,
        b'\'' => Form::Rune,
        b'/' => slash_form(second),
        b'.' => point_form(second),
        b'0'..=b'9' => Form::Number,
        b'(' | b')' | b'[' | b']' | b'{' | b'}' | b',' | b';' | b':' | b'=' | b'!' => Form::Sign,
        b'<' | b'>' | b'+' | b'-' | b'*' | b'%' | b'&' | b'|' | b'^' => Form::Sign,
        _ => Form::Word,
    }
}

#[tactic(auto, unfolding(crate::specs::Signs::is_sign))]
fn slash_form(second: u8) -> Form
    ensures { result ≡ form_by 47 second }
{
    match second {
        b'/' => Form::LineComment,
        b'*' => Form::BlockComment,
        _ => Form::Sign,
    }
}

#[tactic(auto, unfolding(crate::specs::Signs::is_sign))]
fn point_form(second: u8) -> Form
    ensures { result ≡ form_by 46 second }
{
    if is_decimal(second) {
        Form::Number
    } else {
        Form::Sign
    }
}
