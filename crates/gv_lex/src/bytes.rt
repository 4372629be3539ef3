//! Classes of bytes.

ghost use Rattle.std.specs.Prelude.{◌≡◌};
ghost use Rattle.gv_lex.specs.Bytes as spec;

use gv_text::is_digit;

/// Whether an identifier may begin with a byte.
pub fn is_name_start(byte: u8) -> bool
    ensures { result ≡ spec.is_name_start byte }
{
    byte.is_ascii_alphabetic() || byte == b'_'
}

/// Whether a byte is an ASCII letter, an ASCII digit or `_`.
pub fn is_name_byte(byte: u8) -> bool
    ensures { result ≡ spec.is_name_byte byte }
{
    byte.is_ascii_alphanumeric() || byte == b'_'
}

/// Whether a byte is a hexadecimal digit of either case.
pub fn is_hex(byte: u8) -> bool
    ensures { result ≡ spec.is_hex byte }
{
    is_digit(byte, 16)
}
