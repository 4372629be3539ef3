//! Arithmetic on words, and words as bytes.

ghost use Rattle.std.specs.Prelude.{◌≡◌, ◌≤◌, ◌^◌, ◌<◌, length, IfOk};
ghost use Rattle.gv_words.specs.Words.{shifted_left, shifted_right, quotient, remainder, complement, fits, le64, un64, put64, number_of};

use gv_base::NoMemory;
use std::alloc::Global;

/// `a << b`
pub fn shifted_left(a: u64, b: u64) -> u64
    ensures { result ≡ shifted_left a b }
{
    if b < 64 { a << b } else { 0 }
}

/// `a >> b`
pub fn shifted_right(a: u64, b: u64) -> u64
    ensures { result ≡ shifted_right a b }
{
    if b < 64 { a >> b } else { 0 }
}

/// `a / b`
pub fn quotient(a: u64, b: u64) -> u64
    ensures { result ≡ quotient a b }
{
    if b == 0 { 0 } else { a / b }
}

/// `a % b`
pub fn remainder(a: u64, b: u64) -> u64
    ensures { result ≡ remainder a b }
{
    if b == 0 { 0 } else { a % b }
}

/// `^a`
pub fn complement(a: u64) -> u64
    ensures { result ≡ complement a }
{
    u64::MAX - a
}

/// Whether the sum of the whole numbers is a word.
pub fn fits(a: u64, b: u64) -> bool
    ensures { result ≡ fits a b }
{
    a <= u64::MAX - b
}

/// The word's 8 bytes, the lowest first.
#[tactic(auto, unfolding(gv_words::specs::Words::le64))]
pub fn le64(a: u64) -> [u8; 8]
    ensures { result ≡ le64 a }
{
    let b = a / 256;
    let c = b / 256;
    let d = c / 256;
    let e = d / 256;
    let f = e / 256;
    let g = f / 256;
    let h = g / 256;
    [
        (a % 256) as u8,
        (b % 256) as u8,
        (c % 256) as u8,
        (d % 256) as u8,
        (e % 256) as u8,
        (f % 256) as u8,
        (g % 256) as u8,
        (h % 256) as u8,
    ]
}

/// The number of at most 8 bytes, the lowest first.
fn number_of(bytes: &[u8]) -> u64
    requires { length bytes.now ≤ 8 }
    ensures { result ≡ number_of bytes.now }
{
    match bytes {
        [] => 0,
        [first, rest @ ..] => u64::from(*first) + 256 * number_of(rest),
    }
}

/// The number of the first 8 bytes, of which absent ones are 0.
#[tactic(auto, unfolding(gv_words::specs::Words::un64))]
pub fn un64(bytes: &[u8]) -> u64
    ensures { result ≡ un64 bytes.now }
{
    number_of(&bytes[..bytes.len().min(8)])
}

/// The bytes with the first 8 replaced, where there are as many.
pub fn put64(alloc: Global, bytes: &[u8], a: u64) -> Result<Vec<u8>, NoMemory>
    ensures { IfOk result (λ v. v.items ≡ put64 bytes.now a) }
{
    if bytes.len() < 8 {
        Ok(Vec::from_slice(alloc, bytes)?)
    } else {
        let mut all = Vec::from_slice(alloc, &le64(a))?;
        all.extend_from_slice(&bytes[8..])?;
        Ok(all)
    }
}
