//! The tokens of a text, or its first fault.

ghost use Rattle.std.specs.Prelude.{◌≡◌, ◌+◌, ◌-◌, ◌^◌, ◌<◌, ◌≤◌, ℕ, List as Seq, length, IfOk, IfErr};
ghost use Rattle.gv_base.specs.Places.{place_at};
ghost use Rattle.gv_base.specs.Tokens.{AreSpans};
ghost use Rattle.gv_base.specs.declared.answers.Code.{Code as AnyCode};
ghost use Rattle.gv_base.specs.declared.token.Token.{Token as AnyToken};
ghost use Rattle.gv_text.specs.Cutting.{FaultsAt};
ghost use Rattle.gv_text.specs.Judging.{IsFound};
ghost use Rattle.gv_text.specs.Answers.{AreReadAs, IsRefusedAs};
ghost use Rattle.gv_text.specs.Scanning.{IsNext};
ghost use Rattle.gv_tokens.specs.Reading as spec;

use crate::faults::fault_of;
use crate::form::{Form, form_of};
use crate::layout::{insert, lay};
use crate::pieces::len_of;
use gv_base::{Code, Refusal, Token};
use gv_text::{Stop, judged, mark_len, utf8_end};
use std::alloc::Global;

// The piece that a text begins with, as its form and how many bytes it has; or its fault, with how many bytes come
// before the place.
fn next_piece(text: &[u8]) -> Result<(Form, usize), (usize, Code)>
    requires { 0 < length text.now }
    ensures piece { IfOk result (λ next. IsNext spec.go text.now next.0 next.1) }
    ensures fault { IfErr result (λ fault. FaultsAt spec.go text.now fault.0 fault.1) }
    ensures within { IfErr result (λ fault. fault.0 < length text.now) }
{
    let form = form_of(text);
    let len = len_of(form, text);
    if len == 0 {
        return Err((0, Code::BadChar));
    }
    match fault_of(form, &text[..len]) {
        Some(fault) => Err(fault),
        None => Ok((form, len)),
    }
}

// The tokens of a text that may not be UTF-8.
fn tokens_of(alloc: Global, text: &[u8]) -> Result<Vec<Token>, Stop>
    requires { length text.now < 2 ^ 32 - 1 }
    ensures { IsFound spec.go text.now result }
{
    let mut out = Vec::new(alloc);
    let mut pending = None;
    let mut at = mark_len(text);
    while at < text.len() {
        let rest = &text[at..];
        match next_piece(rest) {
            Ok((form, len)) => {
                pending = lay(&mut out, pending, at as u32, form, &rest[..len])?;
                at += len;
            }
            Err((before, code)) => return Err(Stop::At((at + before) as u32, code)),
        }
    }
    insert(&mut out, pending)?;
    Ok(out)
}

/// The tokens of a Go text of fewer than 2^32 - 1 bytes, with the semicolons that are inserted, or its refusal.
///
/// The text is cut into white space, comments and tokens, each the longest that can start at its place, after a byte
/// order mark, where it begins with one. A refusal stands at the text's least fault, with the lower code at one place:
/// `BadUtf8`, `BadChar`, `OpenComment`, `OpenText`, `BadNumber`, and `NotInProfile` for literals of Go that are outside
/// of this project's profile. `NoMemory` comes where memory runs out. (The Go specification, sections "Source code
/// representation" and "Lexical elements", and this project's own.)
pub fn tokens(alloc: Global, text: &[u8]) -> Result<Vec<Token>, Refusal>
    requires { length text.now < 2 ^ 32 - 1 }

    // What is read is so, and what is so is read.
    ensures read { IfOk result (λ read. spec.IsRead text.now read.items) }
    ensures only { (tokens : Seq AnyToken) → spec.IsRead text.now tokens
        → AreReadAs tokens result }

    // The spans stand in order within the text.
    ensures spans { IfOk result (λ read. AreSpans 0 (length text.now) read.items) }

    // A refusal stands at the first fault, and where there is one, the text is refused there.
    ensures refused { IfErr result (spec.Refuses text.now) }
    ensures fault { (at : ℕ) (code : AnyCode) → spec.IsRefused text.now at code
        → IsRefusedAs (place_at text.now at) code result }
{
    judged(text, tokens_of(alloc, text), utf8_end(text))
}
