//! Bytes of a text.

ghost use Rattle.std.specs.Prelude.{◌≡◌, slice_range};

use gv_gosyntax::Lexeme;

/// The bytes of a text from `start` on that come before `end`.
#[derive(Clone, Copy, Debug, PartialEq, Eq)]
pub struct Span {
    pub start: u32,
    pub end: u32,
}

/// The bytes of a token.
pub fn span_of(token: Lexeme) -> Span
    ensures { result ≡ record { start = token.start; end = token.end } }
{
    Span {
        start: token.start,
        end: token.end,
    }
}

/// The bytes of a text that a span has.
pub fn bytes_between(text: &[u8], span: Span) -> &[u8]
    ensures { result.now ≡ slice_range text.now span.start span.end }
{
    let from = span.start as usize;
    let to = (span.end as usize).min(text.len());
    if from < to { &text[from..to] } else { &[] }
}
