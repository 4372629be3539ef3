//! Pieces of a text.

ghost use Rattle.std.specs.Prelude.{◌≡◌, ◌≤◌, length};
ghost use Rattle.gv_tokens.specs.Pieces as spec;

use crate::comments::block_len;
use crate::form::Form;
use crate::numbers::number_len;
use crate::runes::rune_len;
use crate::signs::sign_len;
use crate::texts::{raw_len, text_len};
use crate::words::word_len;
use gv_text::{blank_len, line_len};

/// How many bytes a piece of a form takes at the start of a text, or 0.
pub fn len_of(form: Form, text: &[u8]) -> usize
    ensures value { result ≡ spec.length_of form text.now }
    ensures within { result ≤ length text.now }
{
    match form {
        Form::Blank => blank_len(text),
        Form::LineComment => line_len(text),
        Form::BlockComment => block_len(text),
        Form::Word => word_len(text),
        Form::Number => number_len(text),
        Form::Text => text_len(text),
        Form::RawText => raw_len(text),
        Form::Rune => rune_len(text),
        Form::Sign => sign_len(text),
    }
}
