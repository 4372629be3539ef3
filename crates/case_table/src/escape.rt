//! Bytes as a table writes them: a backslash begins an escape, which is `\n` for a newline, `\r` for a carriage return, `\t` for a
//! tab, `\\` for a backslash, or `\x` with two hexadecimal digits for any byte. Every other byte stands for itself.

ghost use Rattle.std.specs.Prelude.{◌≡◌, ◌<◌, ◌∷◌, IfOk};
ghost use Rattle.std.specs.Char.{digit_value};
ghost use Rattle.case_table.specs.Escapes.{Begins, Names, Writes};

use anyhow::{Result, bail};
use std::alloc::Global;

// The value of a hexadecimal digit.
fn digit_of(byte: u8) -> Result<u8>
    ensures value { IfOk result (λ digit. digit ≡ digit_value byte) }
    ensures small { IfOk result (λ digit. digit_value byte < 16) }
{
    match (byte as char).to_digit(16) {
        Some(digit) => Ok(digit as u8),
        None => bail!("no hexadecimal digit: {byte}"),
    }
}

// The byte whose escape is a letter or a backslash.
fn named(sign: u8) -> Result<u8>
    ensures { IfOk result (λ byte. Names sign byte) }
{
    match sign {
        b'n' => Ok(b'\n'),
        b'r' => Ok(b'\r'),
        b't' => Ok(b'\t'),
        b'\\' => Ok(b'\\'),
        _ => bail!("no escape: {sign}"),
    }
}

// The byte that two digits give, and what stands behind them.
fn numbered(digits: &[u8]) -> Result<(u8, &[u8])>
    ensures { IfOk result (λ found. Begins (120 ∷ digits.now) found.0 found.1.now) }
{
    let [high, low, rest @ ..] = digits else {
        bail!("no two digits");
    };
    let high = digit_of(*high)?;
    let low = digit_of(*low)?;
    Ok((16 * high + low, rest))
}

// The byte of the escape that begins behind a backslash, and what stands behind it.
fn escaped(behind: &[u8]) -> Result<(u8, &[u8])>
    ensures { IfOk result (λ found. Begins behind.now found.0 found.1.now) }
{
    let [sign, rest @ ..] = behind else {
        bail!("no escape");
    };
    if *sign == b'x' {
        return numbered(rest);
    }
    let byte = named(*sign)?;
    Ok((byte, rest))
}

/// The bytes that are written so. A backslash that begins no escape is an error.
pub fn unescaped(alloc: Global, text: &str) -> Result<Vec<u8>>
    ensures { IfOk result (λ bytes. Writes text.now bytes.items) }
{
    let mut bytes = Vec::new(alloc);
    let mut left = text.as_bytes();
    while let [first, rest @ ..] = left {
        if *first == b'\\' {
            let (byte, behind) = escaped(rest)?;
            bytes.push(byte)?;
            left = behind;
        } else {
            bytes.push(*first)?;
            left = rest;
        }
    }
    Ok(bytes)
}
