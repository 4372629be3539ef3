//! The tokens among pieces.

ghost use Rattle.std.specs.Prelude.{◌≡◌, ◌+◌, ◌-◌, ◌^◌, ◌<◌, ◌++◌, if◌then◌else◌, Some, None, length, IfOk, OnOk};
ghost use Rattle.gv_text.specs.Signs.{is_among};
ghost use Rattle.gv_tokens.specs.Layout as spec;

use crate::form::Form;
use gv_base::{Kind, NoMemory, Token};
use gv_text::sign_kind;

fn kind_of(form: Form, bytes: &[u8]) -> Option<Kind>
    ensures { result ≡ spec.kind_of form bytes.now }
{
    match form {
        Form::Blank | Form::LineComment | Form::BlockComment => None,
        Form::Word => Some(Kind::Word),
        Form::Number => Some(Kind::Number),
        Form::Text | Form::RawText | Form::Rune => Some(Kind::Text),
        Form::Sign => Some(sign_kind(bytes)),
    }
}

// The keywords of up to five letters after which no semicolon is inserted.
fn is_short_keyword(word: &[u8]) -> bool
    ensures { result ≡ is_among spec.short_keywords word.now }
{
    match word {
        b"case"
        | b"chan"
        | b"const"
        | b"defer"
        | b"else"
        | b"for"
        | b"func"
        | b"go"
        | b"goto"
        | b"if"
        | b"map"
        | b"range"
        | b"type"
        | b"var" => true,
        _ => false,
    }
}

// The longer ones.
fn is_long_keyword(word: &[u8]) -> bool
    ensures { result ≡ is_among spec.long_keywords word.now }
{
    word == b"default".as_slice()
        || word == b"fallthrough".as_slice()
        || word == b"import".as_slice()
        || word == b"interface".as_slice()
        || word == b"package".as_slice()
        || word == b"select".as_slice()
        || word == b"struct".as_slice()
        || word == b"switch".as_slice()
}

fn is_closing_sign(sign: &[u8]) -> bool
    ensures { result ≡ is_among spec.closing_signs sign.now }
{
    match sign {
        b")" | b"]" | b"}" | b"++" | b"--" => true,
        _ => false,
    }
}

fn ends_line(form: Form, bytes: &[u8]) -> bool
    ensures { result ≡ spec.ends_line form bytes.now }
{
    match form {
        Form::Word => !(is_short_keyword(bytes) || is_long_keyword(bytes)),
        Form::Sign => is_closing_sign(bytes),
        Form::Number | Form::Text | Form::RawText | Form::Rune => true,
        Form::Blank | Form::LineComment | Form::BlockComment => false,
    }
}

fn has_newline(bytes: &[u8]) -> bool
    ensures { result ≡ spec.has_newline bytes.now }
{
    bytes.iter().any(|byte| *byte == b'\n')
}

/// Adds the semicolon that is to be inserted, where there is one.
pub fn insert(out: &mut Vec<Token>, pending: Option<u32>) -> Result<(), NoMemory>
    ensures { OnOk result (out.new.items ≡ out.old.items ++ spec.inserted pending) }
{
    if let Some(at) = pending {
        out.push(Token {
            start: at,
            end: at,
            kind: Kind::Semi,
        })?;
    }
    Ok(())
}

/// Adds the tokens of a piece, and gives the place where a semicolon would be inserted after it.
pub fn lay(
    out: &mut Vec<Token>,
    pending: Option<u32>,
    at: u32,
    form: Form,
    bytes: &[u8],
) -> Result<Option<u32>, NoMemory>
    requires { at + length bytes.now < 2 ^ 32 - 1 }
    ensures tokens { OnOk result (out.new.items
        ≡ out.old.items ++ spec.tokens_for (spec.kind_of form bytes.now) at pending bytes.now) }
    ensures pending { IfOk result (λ now. now
        ≡ spec.pending_for (spec.kind_of form bytes.now) (spec.ends_line form bytes.now) at pending bytes.now) }
{
    let end = at + bytes.len() as u32;
    match kind_of(form, bytes) {
        Some(kind) => {
            out.push(Token {
                start: at,
                end,
                kind,
            })?;
            Ok(place_after(ends_line(form, bytes), end))
        }
        None => {
            if !has_newline(bytes) {
                return Ok(pending);
            }
            insert(out, pending)?;
            Ok(None)
        }
    }
}

fn place_after(ends: bool, end: u32) -> Option<u32>
    ensures { result ≡ (if ends then Some end else None) }
{
    if ends { Some(end) } else { None }
}
