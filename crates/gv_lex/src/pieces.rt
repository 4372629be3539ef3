//! Pieces of a text, right and wrong.

ghost use Rattle.std.specs.Prelude.{◌≡◌, ◌≤◌, length};
ghost use Rattle.gv_lex.specs.Pieces as spec;

use crate::form::Form;
use crate::literals::{has_whole_bytes, literal_len};
use crate::names::name_len;
use crate::numbers::{is_right_number, number_len};
use crate::signs::sign_len;
use gv_base::Code;
use gv_text::{blank_len, line_len};

/// How many bytes a piece of a form takes at the start of a text, or 0.
pub fn len_of(form: Form, text: &[u8]) -> usize
    ensures value { result ≡ spec.length_of form text.now }
    ensures within { result ≤ length text.now }
{
    match form {
        Form::Blank => blank_len(text),
        Form::Comment => line_len(text),
        Form::Word => name_len(text),
        Form::Number => number_len(text),
        Form::Literal => literal_len(text),
        Form::Sign => sign_len(text),
    }
}

/// Why a piece is refused, at its first byte.
pub fn code_of(form: Form, bytes: &[u8]) -> Option<Code>
    ensures { result ≡ spec.code_of form bytes.now }
{
    match form {
        Form::Number if !is_right_number(bytes) => Some(Code::BadNumber),
        Form::Literal if !has_whole_bytes(bytes) => Some(Code::BadNumber),
        _ => None,
    }
}
