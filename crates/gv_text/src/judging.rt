//! What the texts of every kind share: the byte order mark, the UTF-8 of the whole text, and which fault comes first.

ghost use Rattle.std.specs.Prelude.{◌≡◌, ◌-◌, ◌^◌, ◌<◌, ◌≤◌, length};
ghost use Rattle.gv_text.specs.Judging as spec;

use crate::refusal::refusal_at;
use crate::stop::Stop;
use gv_base::{Code, Refusal, Token};
use std::str;

/// How many bytes the byte order mark at the start of a text has: 3, or 0 where there is none.
pub fn mark_len(text: &[u8]) -> usize
    ensures value { result ≡ spec.mark_length text.now }
    ensures within { result ≤ length text.now }
{
    match text {
        [0xEF, 0xBB, 0xBF, ..] => 3,
        _ => 0,
    }
}

/// The place in bytes where a text of fewer than 2^32 - 1 bytes stops being UTF-8, if it does.
pub fn utf8_end(text: &[u8]) -> Option<u32>
    requires { length text.now < 2 ^ 32 - 1 }
    ensures { spec.IsEnd text.now result }
{
    match str::from_utf8(text) {
        Ok(_) => None,
        Err(e) => Some(e.valid_up_to() as u32),
    }
}

/// The answer for a text of fewer than 2^32 - 1 bytes by what its pieces come to and where it stops being UTF-8: the
/// tokens, or the fault at the lesser place, or at one place that of the UTF-8.
pub fn judged(
    text: &[u8],
    found: Result<Vec<Token>, Stop>,
    end: Option<u32>,
) -> Result<Vec<Token>, Refusal>
    requires { length text.now < 2 ^ 32 - 1 }
    ensures { result ≡ spec.judgement text.now found end }
{
    match found {
        Ok(read) => match end {
            None => Ok(read),
            Some(end) => Err(refusal_at(text, end, Code::BadUtf8)),
        },
        Err(stop) => Err(first_refusal(text, stop, end)),
    }
}

fn first_refusal(text: &[u8], stop: Stop, end: Option<u32>) -> Refusal
    requires { length text.now < 2 ^ 32 - 1 }
    ensures { result ≡ spec.first_refusal text.now stop end }
{
    match stop {
        Stop::NoMemory => Refusal::NoMemory,
        Stop::At(at, code) => earlier(text, at, code, end),
    }
}

fn earlier(text: &[u8], at: u32, code: Code, end: Option<u32>) -> Refusal
    requires { length text.now < 2 ^ 32 - 1 }
    ensures { result ≡ spec.earlier_refusal text.now at code end }
{
    match end {
        None => refusal_at(text, at, code),
        Some(end) if at < end => refusal_at(text, at, code),
        Some(end) => refusal_at(text, end, Code::BadUtf8),
    }
}
