//! The value of a number of a text.

ghost use Rattle.std.specs.Prelude.{◌≡◌};
ghost use Rattle.gv_text.specs.Digits.{up_to, largest_word};
ghost use Rattle.gv_termread.specs.Numbers.{number_value};

use gv_text::word_of;

/// The value of a number of a text, decimal or behind `0x` hexadecimal, or `None` where it is 2^64 or more. This project's
/// own.
pub fn number_of(bytes: &[u8]) -> Option<u64>
    ensures { result ≡ up_to largest_word (number_value bytes.now) }
{
    match bytes {
        [b'0', b'x', digits @ ..] => word_of(digits, 16),
        _ => word_of(bytes, 10),
    }
}
