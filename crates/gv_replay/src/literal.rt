//! The bytes of literals.

ghost use Rattle.std.specs.Prelude.{◌≡◌, ◌<◌, IfOk};
ghost use Rattle.gv_replay.specs.Literals as spec;

use gv_base::NoMemory;
use std::alloc::Global;

fn hex_value(byte: u8) -> u8
    ensures value { result ≡ spec.hex_value byte }
    ensures small { result < 16 }
{
    match (byte as char).to_digit(16) {
        Some(digit) => digit as u8,
        None => 0,
    }
}

/// The bytes that hexadecimal digits spell, two digits a byte.
pub fn bytes_of(alloc: Global, digits: &[u8]) -> Result<Vec<u8>, NoMemory>
    ensures { IfOk result (λ bytes. bytes.items ≡ spec.bytes_of digits.now) }
{
    let mut bytes = Vec::with_capacity(alloc, digits.len() / 2)?;
    let mut left = digits;
    while let [high, low, rest @ ..] = left {
        bytes.push(16 * hex_value(*high) + hex_value(*low))?;
        left = rest;
    }
    Ok(bytes)
}
