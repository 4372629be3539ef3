//! Bytes as texts.

ghost use Rattle.std.specs.Prelude.{◌≡◌, ◌++◌, ◌<◌, ◌∷◌, [], OnOk};
ghost use Rattle.gv_lines.specs.Lines as lines;

use gv_base::NoMemory;
use std::alloc::Global;

// A hexadecimal digit.
fn digit(value: u8) -> u8
    requires { value < 16 }
    ensures { result ≡ lines.hex_digit value }
{
    if value < 10 { value + 48 } else { value + 87 }
}

fn push_byte(out: &mut Vec<u8>, byte: u8) -> Result<(), NoMemory>
    ensures { OnOk result (out.new.items ≡ out.old.items ++ lines.hex_of (byte ∷ [])) }
{
    out.push(digit(byte / 16))?;
    out.push(digit(byte % 16))?;
    Ok(())
}

fn push_hex(out: &mut Vec<u8>, bytes: &[u8]) -> Result<(), NoMemory>
    ensures { OnOk result (out.new.items ≡ out.old.items ++ lines.hex_of bytes.now) }
{
    for byte in bytes {
        push_byte(out, *byte)?;
    }
    Ok(())
}

// Whether all of the bytes are this one.
fn are_all(bytes: &[u8], one: u8) -> bool
    ensures { result ≡ lines.are_all one bytes.now }
{
    for byte in bytes {
        if *byte != one {
            return false;
        }
    }
    true
}

fn push_repeated(alloc: Global, out: &mut Vec<u8>, byte: u8, count: usize) -> Result<(), NoMemory>
    ensures { OnOk result (out.new.items ≡ out.old.items ++ lines.repeated_text byte count) }
{
    push_byte(out, byte)?;
    let text = format!(in alloc; "*{}", count)?;
    out.extend_from_slice(text.as_bytes())?;
    Ok(())
}

// Appends `#` and the digits, or one byte and how often it stands.
#[tactic(auto, using(crate::proofs::LineLemmas::equal_bytes))]
pub(crate) fn push_bytes(alloc: Global, out: &mut Vec<u8>, bytes: &[u8]) -> Result<(), NoMemory>
    ensures { OnOk result (out.new.items ≡ out.old.items ++ lines.bytes_text bytes.now) }
{
    out.push(b'#')?;
    match bytes {
        [one, _, ..] if are_all(bytes, *one) => { push_repeated(alloc, out, *one, bytes.len()) }
        _ => push_hex(out, bytes),
    }
}
