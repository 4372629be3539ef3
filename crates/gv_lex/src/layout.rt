//! The tokens among pieces.

ghost use Rattle.std.specs.Prelude.{◌≡◌, ◌+◌, ◌-◌, ◌^◌, ◌<◌, ◌++◌, length, OnOk};
ghost use Rattle.gv_lex.specs.Layout as spec;

use crate::form::Form;
use gv_base::{Kind, NoMemory, Token};
use gv_text::sign_kind;

fn kind_of(form: Form, bytes: &[u8]) -> Option<Kind>
    ensures { result ≡ spec.kind_of form bytes.now }
{
    match form {
        Form::Blank | Form::Comment => None,
        Form::Word => Some(Kind::Word),
        Form::Number => Some(Kind::Number),
        Form::Literal => Some(Kind::Text),
        Form::Sign => Some(sign_kind(bytes)),
    }
}

/// Adds a piece as a token, where it is one.
pub fn lay(out: &mut Vec<Token>, at: u32, form: Form, bytes: &[u8]) -> Result<(), NoMemory>
    requires { at + length bytes.now < 2 ^ 32 - 1 }
    ensures { OnOk result (out.new.items
        ≡ out.old.items ++ spec.token_for (spec.kind_of form bytes.now) at bytes.now) }
{
    if let Some(kind) = kind_of(form, bytes) {
        out.push(Token {
            start: at,
            end: at + bytes.len() as u32,
            kind,
        })?;
    }
    Ok(())
}
