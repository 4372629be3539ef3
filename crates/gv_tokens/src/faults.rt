//! The faults of pieces.

ghost use Rattle.std.specs.Prelude.{◌≡◌, ◌<◌, position, length, IfSome};
ghost use Rattle.gv_tokens.specs.Faults as spec;

use crate::form::Form;
use crate::numbers::number_fault;
use gv_base::Code;

fn is_closed(bytes: &[u8], mark: u8) -> bool
    ensures { result ≡ spec.is_closed mark bytes.now }
{
    bytes.len() > 1 && bytes[bytes.len() - 1] == mark
}

fn is_closed_comment(bytes: &[u8]) -> bool
    ensures { result ≡ spec.is_closed_comment bytes.now }
{
    bytes.len() > 3 && bytes[bytes.len() - 2] == b'*' && bytes[bytes.len() - 1] == b'/'
}

fn text_fault(bytes: &[u8]) -> Option<(usize, Code)>
    requires { 0 < length bytes.now }
    ensures value { result ≡ spec.text_fault bytes.now }
    ensures within { IfSome result (λ fault. fault.0 < length bytes.now) }
{
    if !is_closed(bytes, b'"') {
        return Some((0, Code::OpenText));
    }
    match first_backslash(bytes) {
        Some(at) => Some((at, Code::BadChar)),
        None => None,
    }
}

fn first_backslash(bytes: &[u8]) -> Option<usize>
    ensures value { result ≡ position spec.is_backslash bytes.now }
    ensures within { IfSome result (λ at. at < length bytes.now) }
{
    bytes.iter().position(|byte| *byte == b'\\')
}

/// The fault of a piece, with how many bytes of the piece come before its place.
pub fn fault_of(form: Form, bytes: &[u8]) -> Option<(usize, Code)>
    requires { 0 < length bytes.now }
    ensures value { result ≡ spec.fault_of form bytes.now }
    ensures within { IfSome result (λ fault. fault.0 < length bytes.now) }
{
    match form {
        Form::Blank | Form::LineComment | Form::Word | Form::Sign => None,
        Form::BlockComment if is_closed_comment(bytes) => None,
        Form::BlockComment => Some((0, Code::OpenComment)),
        Form::Number => match number_fault(bytes) {
            Some(code) => Some((0, code)),
            None => None,
        },
        Form::Text => text_fault(bytes),
        Form::RawText if is_closed(bytes, b'`') => Some((0, Code::NotInProfile)),
        Form::RawText => Some((0, Code::OpenText)),
        Form::Rune => Some((0, Code::NotInProfile)),
    }
}
