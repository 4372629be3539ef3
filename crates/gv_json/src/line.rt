//! The line of an answer in JSON.

ghost use Rattle.std.specs.Prelude.{◌≡◌, IfOk, map};
ghost use Rattle.serde_json.specs.Data.{string};
ghost use Rattle.serde_json.specs.View.{view};
ghost use Rattle.gv_json.specs.Line.{as_text, line_of, value_of, IsLineOf};

use gv_base::{Name, NoMemory};
use serde_json::{Value, json};
use std::alloc::Global;

// The text that bytes are, or the empty one where they are no UTF-8.
fn text_of(alloc: Global, bytes: &[u8]) -> Result<Value, NoMemory>
    ensures { IfOk result (λ v. view v ≡ string (as_text bytes.now)) }
{
    match str::from_utf8(bytes) {
        Ok(text) => Ok(Value::try_from_str(alloc, text)?),
        Err(_) => Ok(Value::try_from_str(alloc, "")?),
    }
}

// The same of each of these, in order.
fn texts_of(alloc: Global, lines: &[Name]) -> Result<Vec<Value>, NoMemory>
    ensures { IfOk result (λ texts. map view texts.items ≡ map (λ l. string (as_text l)) lines.now) }
{
    let mut texts = Vec::new(alloc);
    for line in lines {
        texts.push(text_of(alloc, line.as_slice())?)?;
    }
    Ok(texts)
}

// The object of the digests, the lines and the status.
fn object_of(alloc: Global, digests: &[Name], lines: &[Name], status: u8) -> Result<Value, NoMemory>
    ensures { IfOk result (λ v. view v ≡ value_of digests.now lines.now status) }
{
    let digests = texts_of(alloc, digests)?;
    let lines = texts_of(alloc, lines)?;
    Ok(json!(in alloc; {"digests": digests, "lines": lines, "status": status})?)
}

/// The line of an answer in JSON, with its newline: an object with the digests of the files that were fetched, in order, as
/// `digests`, the lines of the answer, without their newlines, as `lines`, and the status as `status`, from 0 to 255. It has no
/// space, and its members stand in this order. A line or a digest that is no UTF-8 stands as the empty text. This project's own form of RFC 8259.
pub fn json_line(
    alloc: Global,
    digests: &[Name],
    lines: &[Name],
    status: u8,
) -> Result<Vec<u8>, NoMemory>
    ensures line { IfOk result (λ text. text.items ≡ line_of digests.now lines.now status) }
    ensures reads { IfOk result (λ text. IsLineOf text.items (value_of digests.now lines.now status)) }
{
    let object = object_of(alloc, digests, lines, status)?;
    let mut text = object.to_vec(alloc)?;
    text.push(b'\n')?;
    Ok(text)
}
