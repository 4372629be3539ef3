//! An index of the lines of a text.

ghost use Rattle.std.specs.Prelude.{◌≡◌, ◌+◌, ◌-◌, ◌*◌, ◌^◌, ◌<◌, ◌≤◌, length, IfOk};
ghost use Rattle.gv_base.specs.Places.{place_at};

use crate::answers::{NoMemory, Place};
use std::alloc::Global;
use std::marker::Model;

/// Where the lines of a text begin, which contracts see as the text. This project's own.
#[derive(Debug, Drop)]
pub struct Lines<'a> {
    text: &'a [u8],
    starts: Vec<u32>,
}

impl<'a> Model for Lines<'a> {
    ghost use Rattle.std.specs.Prelude.{ℕ, List as Seq, length, ◌<◌, ◌^◌, ◌-◌};
    ghost use Rattle.gv_base.specs.Lines.{AreStarts};

    ghost Value = { Seq ℕ };

    ghost view = { λ l. l.text.now };

    ghost invariant = { λ l. (length l.text.now < 2 ^ 32 - 1) × AreStarts l.text.now (length l.text.now) l.starts.items };
}

impl<'a> Lines<'a> {
    /// The index of a text, made in one pass. Its memory grows with the lines. This project's own.
    pub fn new(alloc: Global, text: &'a [u8]) -> Result<Lines<'a>, NoMemory>
        requires { length text.now < 2 ^ 32 - 1 }
        ensures { IfOk result (λ lines. lines ≡ text.now) }
    {
        let mut starts = Vec::new(alloc);
        starts.push(0)?;
        let mut end = 0;
        for byte in text {
            end += 1;
            if *byte == b'\n' {
                starts.push(end)?;
            }
        }
        Ok(Lines { text, starts })
    }

    /// The line and the column of the byte with this index, or of the place one past the last byte,
    /// as `place_of` gives them, in time that grows with the logarithm of the number of lines.
    /// This project's own.
    pub fn place(&self, at: u32) -> Place
        requires { at ≤ length self.now }
        ensures { result ≡ place_at self.now at }
    {
        let starts = self.starts.as_slice();
        let mut low = 0;
        let mut high = starts.len();
        while high - low > 1 {
            let middle = low + (high - low) / 2;
            if starts[middle] <= at {
                low = middle;
            } else {
                high = middle;
            }
        }
        Place {
            line: low as u32 + 1,
            column: at - starts[low] + 1,
        }
    }
}
