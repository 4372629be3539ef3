//! Paths of imports.

ghost use Rattle.std.specs.Prelude.{◌≡◌, ◌≤◌, length, drop, slice_range};
ghost use Rattle.gv_gotypes.specs.Declarations as declarations;
ghost use Rattle.gv_gotypes.specs.Literals as literals;

use gv_gonames::{Span, bytes_between, span_of};
use gv_gopackages::library_named;
use gv_gosyntax::Lexeme;
use gv_gotypes::Library;

/// What stands between the quotes of a path.
pub fn unquoted(quoted: &[u8]) -> &[u8]
    ensures { result.now ≡ literals.unquoted quoted.now }
{
    if quoted.len() < 2 {
        &[]
    } else {
        &quoted[1..quoted.len() - 1]
    }
}

/// Where the last element of a path begins: behind the last `/`.
pub fn element_start(path: &[u8]) -> usize
    ensures within { result ≤ length path.now }
    ensures element { drop result path.now ≡ literals.last_element path.now path.now }
{
    let mut start = 0;
    let mut at = 0;
    while at < path.len() {
        if path[at] == b'/' {
            start = at + 1;
        }
        at += 1;
    }
    start
}

/// The last element of a path in quotes.
pub fn element_of(quoted: &[u8]) -> &[u8]
    ensures { result.now ≡ literals.element_of quoted.now }
{
    let path = unquoted(quoted);
    let start = element_start(path);
    &path[start..]
}

/// The package that a path in quotes imports, if it may be imported.
pub fn imported(quoted: &[u8]) -> Option<Library>
    ensures { result ≡ declarations.library_named (literals.element_of quoted.now) }
{
    library_named(element_of(quoted))
}

// Where a token ends within its text.
fn end_within(text: &[u8], token: Lexeme) -> u32
    ensures within { result ≤ length text.now }
    ensures same { slice_range text.now token.start token.end ≡ slice_range text.now token.start result }
{
    if text.len() < token.end as usize {
        text.len() as u32
    } else {
        token.end
    }
}

/// Where the last element of the path in quotes of an import stands.
pub fn element_span(text: &[u8], token: Lexeme) -> Span
    ensures { slice_range text.now result.start result.end ≡ literals.element_of (slice_range text.now token.start token.end) }
{
    let quoted = bytes_between(text, span_of(token));
    if quoted.len() < 2 {
        return Span {
            start: token.start,
            end: token.start,
        };
    }
    let end = end_within(text, token);
    let start = element_start(unquoted(quoted)) as u32;
    Span {
        start: token.start + 1 + start,
        end: end - 1,
    }
}
