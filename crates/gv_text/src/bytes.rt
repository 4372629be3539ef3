//! Classes of bytes.

ghost use Rattle.std.specs.Prelude.{◌≡◌, ◌≤◌};
ghost use Rattle.std.specs.Char.{is_digit};
ghost use Rattle.gv_text.specs.Bytes as spec;

/// Whether a byte is white space: a space, a tab, a carriage return or a newline.
pub fn is_blank(byte: u8) -> bool
    ensures { result ≡ spec.is_blank byte }
{
    byte == b' ' || byte == b'\t' || byte == b'\r' || byte == b'\n'
}

/// Whether a byte is a digit of a base, which has letters of either case from 11 on.
pub fn is_digit(byte: u8, radix: u32) -> bool
    requires least { 2 ≤ radix }
    requires most { radix ≤ 36 }
    ensures { result ≡ is_digit byte radix }
{
    (byte as char).is_digit(radix)
}

/// Whether a byte is a decimal digit.
pub fn is_decimal(byte: u8) -> bool
    ensures { result ≡ spec.is_decimal byte }
{
    is_digit(byte, 10)
}
