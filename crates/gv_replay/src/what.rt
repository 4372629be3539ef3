//! What the tokens of a text of lines say.

ghost use Rattle.std.specs.Prelude.{◌≡◌, IfOk, not};
ghost use Rattle.gv_termread.specs.Numbers.{has_prefix};
ghost use Rattle.gv_replay.specs.What as spec;

use crate::literal::bytes_of;
use gv_base::{Kind, Name, NoMemory};
use gv_lex::number_of;
use std::alloc::Global;

/// What a token says, as far as lines tell tokens apart. This project's own.
#[derive(Debug, Drop)]
pub enum What {
    Word(Name),
    /// A number below 2^64, and whether it is written in decimal digits.
    Number { decimal: bool, value: u64 },
    /// A number of 2^64 or more.
    Large,
    /// A literal of one byte.
    Byte(u8),
    /// A literal of no byte, or of more than one.
    Bytes(Name),
    Star,
    Other,
}

/// What a token of a kind and with these bytes says.
pub fn what_of(alloc: Global, kind: Kind, bytes: &[u8]) -> Result<What, NoMemory>
    ensures { IfOk result (λ what. what ≡ spec.what_of kind bytes.now) }
{
    match kind {
        Kind::Word => Ok(What::Word(Name::from_slice(alloc, bytes)?)),
        Kind::Number => Ok(number(bytes)),
        Kind::Text => literal(alloc, bytes),
        Kind::Sign => Ok(sign(bytes)),
        Kind::Semi => Ok(What::Other),
    }
}

fn number(bytes: &[u8]) -> What
    ensures { result ≡ spec.number_of bytes.now }
{
    sized(is_decimal(bytes), number_of(bytes))
}

fn is_decimal(bytes: &[u8]) -> bool
    ensures { result ≡ not (has_prefix bytes.now) }
{
    match bytes {
        [b'0', b'x', ..] => false,
        _ => true,
    }
}

fn sized(decimal: bool, value: Option<u64>) -> What
    ensures { result ≡ spec.sized decimal value }
{
    match value {
        Some(value) => What::Number { decimal, value },
        None => What::Large,
    }
}

fn literal(alloc: Global, bytes: &[u8]) -> Result<What, NoMemory>
    ensures { IfOk result (λ what. what ≡ spec.literal_of bytes.now) }
{
    let digits = match bytes {
        [_, digits @ ..] => digits,
        [] => bytes,
    };
    let bytes = bytes_of(alloc, digits)?;
    match bytes.as_slice() {
        [byte] => Ok(What::Byte(*byte)),
        _ => Ok(What::Bytes(Name::from_vec(alloc, bytes)?)),
    }
}

fn sign(bytes: &[u8]) -> What
    ensures { result ≡ spec.sign_of bytes.now }
{
    match bytes {
        [b'*'] => What::Star,
        _ => What::Other,
    }
}
