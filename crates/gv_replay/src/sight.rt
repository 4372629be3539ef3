//! Tokens as lines see them.

ghost use Rattle.std.specs.Prelude.{◌≡◌, ◌≤◌, length, IfOk};
ghost use Rattle.gv_replay.specs.Sights as spec;

use crate::what::{What, what_of};
use gv_base::{Code, NoMemory, Token};
use std::alloc::Global;

/// A token: the byte at which it stands, whether it is the first one on its line, and what it says.
/// This project's own.
#[derive(Debug, Drop)]
pub struct Sight {
    pub at: u32,
    pub starts: bool,
    pub what: What,
}

/// A token of a text that stands behind a byte.
pub fn sight_of(alloc: Global, text: &[u8], behind: u32, token: Token) -> Result<Sight, NoMemory>
    requires behind { behind ≤ token.start }
    requires span { token.start ≤ token.end }
    requires within { token.end ≤ length text.now }
    ensures { IfOk result (λ sight. sight ≡ spec.sight_of text.now behind token) }
{
    let (start, end) = (token.start as usize, token.end as usize);
    Ok(Sight {
        at: token.start,
        starts: has_newline(&text[behind as usize..start]),
        what: what_of(alloc, token.kind, &text[start..end])?,
    })
}

fn has_newline(bytes: &[u8]) -> bool
    ensures { result ≡ spec.has_newline bytes.now }
{
    bytes.iter().any(|byte| *byte == b'\n')
}

/// The code of a token that may not stand where it does.
pub fn code_of(what: &What) -> Code
    ensures { result ≡ spec.code_of what.now }
{
    match what {
        What::Large => Code::BadNumber,
        _ => Code::Unexpected,
    }
}
