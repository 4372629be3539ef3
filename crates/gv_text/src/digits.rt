//! The value of digits.

ghost use Rattle.std.specs.Prelude.{◌≡◌, ◌≤◌};
ghost use Rattle.gv_text.specs.Digits as spec;

/// The value of digits of a base from 2 to 36, `_` passed over, or `None` where it is above a bound.
#[tactic(auto, unfolding(crate::specs::Digits::value_of))]
pub fn value_of(digits: &[u8], radix: u32, most: u128) -> Option<u128>
    requires least { 2 ≤ radix }
    requires most { radix ≤ 36 }
    ensures { result ≡ spec.up_to most (spec.value_of radix digits.now) }
{
    let mut value: u128 = 0;
    for byte in digits {
        match with_digit(value, radix, most, *byte) {
            Some(next) => value = next,
            None => return None,
        }
    }
    Some(value)
}

// A value with one digit more.
fn with_digit(value: u128, radix: u32, most: u128, byte: u8) -> Option<u128>
    requires least { 2 ≤ radix }
    requires most { radix ≤ 36 }
    requires value { value ≤ most }
    ensures { result ≡ spec.up_to most (spec.with_digit radix value byte) }
{
    if byte == b'_' {
        return Some(value);
    }
    let digit = (byte as char).to_digit(36).unwrap_or(36);
    let next = value
        .checked_mul(u128::from(radix))?
        .checked_add(u128::from(digit))?;
    if next <= most { Some(next) } else { None }
}

/// The value of digits as a word, or `None` from 2^64 on.
pub fn word_of(digits: &[u8], radix: u32) -> Option<u64>
    requires least { 2 ≤ radix }
    requires most { radix ≤ 36 }
    ensures { result ≡ spec.up_to spec.largest_word (spec.value_of radix digits.now) }
{
    match value_of(digits, radix, u128::from(u64::MAX)) {
        Some(value) => Some(value as u64),
        None => None,
    }
}
