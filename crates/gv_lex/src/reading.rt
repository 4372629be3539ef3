//! The tokens of a text, or its first fault.

ghost use Rattle.std.specs.Prelude.{◌≡◌, ◌-◌, ◌^◌, ◌<◌, ℕ, List as Seq, All, length, IfOk, IfErr};
ghost use Rattle.gv_base.specs.Places.{place_at};
ghost use Rattle.gv_base.specs.Tokens.{AreSpans};
ghost use Rattle.gv_base.specs.declared.answers.Code.{Code as AnyCode};
ghost use Rattle.gv_base.specs.declared.token.Token.{Token as AnyToken};
ghost use Rattle.gv_text.specs.Cutting.{FaultsAt};
ghost use Rattle.gv_text.specs.Judging.{IsFound};
ghost use Rattle.gv_text.specs.Answers.{AreReadAs, IsRefusedAs};
ghost use Rattle.gv_text.specs.Scanning.{IsNext};
ghost use Rattle.gv_lex.specs.Names.{IsIdentifier};
ghost use Rattle.gv_lex.specs.Reading as spec;

use crate::form::{Form, form_of};
use crate::layout::lay;
use crate::pieces::{code_of, len_of};
use gv_base::{Code, Refusal, Token};
use gv_text::{Stop, judged, mark_len, utf8_end};
use std::alloc::Global;

// The piece that a text begins with, as its form and how many bytes it has; or the fault that stands at its start.
fn next_piece(text: &[u8]) -> Result<(Form, usize), Code>
    requires { 0 < length text.now }
    ensures piece { IfOk result (λ next. IsNext spec.own text.now next.0 next.1) }
    ensures fault { IfErr result (FaultsAt spec.own text.now 0) }
{
    let form = form_of(text);
    let len = len_of(form, text);
    if len == 0 {
        return Err(Code::BadChar);
    }
    match code_of(form, &text[..len]) {
        Some(code) => Err(code),
        None => Ok((form, len)),
    }
}

// The tokens of a text that may not be UTF-8.
fn tokens_of(alloc: Global, text: &[u8]) -> Result<Vec<Token>, Stop>
    requires { length text.now < 2 ^ 32 - 1 }
    ensures { IsFound spec.own text.now result }
{
    let mut out = Vec::new(alloc);
    let mut at = mark_len(text);
    while at < text.len() {
        let rest = &text[at..];
        match next_piece(rest) {
            Ok((form, len)) => {
                lay(&mut out, at as u32, form, &rest[..len])?;
                at += len;
            }
            Err(code) => return Err(Stop::At(at as u32, code)),
        }
    }
    Ok(out)
}

/// The tokens of a text of this project of fewer than 2^32 - 1 bytes, or its refusal: of a specification, a schedule, a
/// history, a list of moves or a script.
///
/// The text is cut into white space, comments and tokens, each the longest that can start at its place, after a byte
/// order mark, where it begins with one. Identifiers are words: an ASCII letter or `_`, and then ASCII letters, digits, `_`
/// and single dots between two of these. `#` with hexadecimal digits is a text, and of the signs
/// `;` has a kind of its own. A refusal stands at the text's least fault, with the lower code at one place: `BadUtf8`,
/// `BadChar`, and `BadNumber` for what begins with a digit and is no number, for a number above 2^127 and for a `#` with
/// an odd number of digits. `NoMemory` comes where memory runs out. This project's own.
pub fn lex(alloc: Global, text: &[u8]) -> Result<Vec<Token>, Refusal>
    requires { length text.now < 2 ^ 32 - 1 }

    // What is read is so, and what is so is read.
    ensures read { IfOk result (λ read. spec.IsRead text.now read.items) }
    ensures only { (tokens : Seq AnyToken) → spec.IsRead text.now tokens
        → AreReadAs tokens result }

    // Words are identifiers, and an identifier by itself is one word.
    ensures words { IfOk result (λ read. All (spec.IsIdentifierIfWord text.now) read.items) }
    ensures word { IsIdentifier text.now → AreReadAs (spec.one_word text.now) result }

    // The spans stand in order within the text.
    ensures spans { IfOk result (λ read. AreSpans 0 (length text.now) read.items) }

    // A refusal stands at the first fault, and where there is one, the text is refused there.
    ensures refused { IfErr result (spec.Refuses text.now) }
    ensures fault { (at : ℕ) (code : AnyCode) → spec.IsRefused text.now at code
        → IsRefusedAs (place_at text.now at) code result }
{
    judged(text, tokens_of(alloc, text), utf8_end(text))
}
