//! The line and the column of a place in a text.

ghost use Rattle.std.specs.Prelude.{◌≡◌, ◌-◌, ◌^◌, ◌<◌, ◌≤◌, length};
ghost use Rattle.gv_base.specs.Places.{place_at};

use crate::answers::Place;

/// The line and the column, both from 1, of the byte with this index, or of the place one past the
/// last byte. Lines are separated by newline bytes, and a column is one more than the bytes before
/// it on its line. This project's own.
pub fn place_of(text: &[u8], at: u32) -> Place
    requires within { at ≤ length text.now }
    requires small { at < 2 ^ 32 - 1 }
    ensures { result ≡ place_at text.now at }
{
    let mut line = 1;
    let mut column = 1;
    for byte in &text[..at as usize] {
        if *byte == b'\n' {
            line += 1;
            column = 1;
        } else {
            column += 1;
        }
    }
    Place { line, column }
}
