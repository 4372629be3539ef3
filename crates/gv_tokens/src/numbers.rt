//! Numbers.

ghost use Rattle.std.specs.Prelude.{◌≡◌, ◌+◌, ◌*◌, ◌≤◌, ◌==◌, false, length, drop, slice_index};
ghost use Rattle.gv_text.specs.Lengths.{optional, nothing};
ghost use Rattle.gv_tokens.specs.Numbers as spec;

use crate::bytes::{Class, begins_with, run_len};
use gv_base::Code;
use gv_text::{is_digit, word_of};

/// The base of a number.
#[derive(Clone, Copy, Debug, PartialEq, Eq)]
pub enum Base {
    Binary,
    Octal,
    Decimal,
    Hex,
}

impl Base {
    fn prefix_len(self) -> usize
        ensures { result ≡ spec.prefix_length self }
    {
        match self {
            Base::Decimal => 0,
            Base::Binary | Base::Octal | Base::Hex => 2,
        }
    }

    fn radix(self) -> u32
        ensures value { result ≡ spec.radix_of self }
        ensures least { 2 ≤ result }
        ensures most { result ≤ 36 }
    {
        match self {
            Base::Binary => 2,
            Base::Octal => 8,
            Base::Decimal => 10,
            Base::Hex => 16,
        }
    }

    fn digits(self) -> Class
        ensures { result ≡ spec.digits_of self }
    {
        match self {
            Base::Hex => Class::HexDigits,
            Base::Binary | Base::Octal | Base::Decimal => Class::DecimalDigits,
        }
    }
}

fn base_by(second: u8) -> Base
    ensures { result ≡ spec.base_by second }
{
    if second == b'x' || second == b'X' {
        Base::Hex
    } else if second == b'b' || second == b'B' {
        Base::Binary
    } else if second == b'o' || second == b'O' {
        Base::Octal
    } else {
        Base::Decimal
    }
}

fn base_of(text: &[u8]) -> Base
    ensures value { result ≡ spec.base_of text.now }
    ensures within { spec.prefix_length result ≤ length text.now }
{
    match text {
        [b'0', second, ..] => base_by(*second),
        _ => Base::Decimal,
    }
}

fn fraction_len(text: &[u8], class: Class) -> usize
    ensures value { result ≡ spec.fraction_length class text.now }
    ensures within { result ≤ length text.now }
{
    match text {
        [b'.', rest @ ..] => 1 + run_len(rest, class),
        _ => 0,
    }
}

fn plus_or_minus_len(text: &[u8]) -> usize
    ensures value { result ≡ spec.sign_length text.now }
    ensures within { result ≤ length text.now }
{
    match text {
        [b'+' | b'-', ..] => 1,
        _ => 0,
    }
}

fn exponent_len(text: &[u8]) -> usize
    ensures value { result ≡ spec.exponent_length text.now }
    ensures within { result ≤ length text.now }
{
    match text {
        [b'e' | b'E' | b'p' | b'P', rest @ ..] => {
            let sign = plus_or_minus_len(rest);
            1 + sign + run_len(&rest[sign..], Class::DecimalDigits)
        }
        _ => 0,
    }
}

fn imaginary_len(text: &[u8]) -> usize
    ensures value { result ≡ spec.imaginary_length text.now }
    ensures within { result ≤ length text.now }
{
    match text {
        [b'i', ..] => 1,
        _ => 0,
    }
}

fn parts_len(text: &[u8], class: Class) -> usize
    ensures value { result ≡ spec.parts_length class text.now }
    ensures within { result ≤ length text.now }
{
    let whole = run_len(text, class);
    let rest = &text[whole..];
    let fraction = fraction_len(rest, class);
    let rest = &rest[fraction..];
    let exponent = exponent_len(rest);
    whole + (fraction + (exponent + imaginary_len(&rest[exponent..])))
}

/// How many bytes the number at the start of a text has, right or wrong.
#[tactic(auto, unfolding(crate::specs::Numbers::number_length))]
pub fn number_len(text: &[u8]) -> usize
    ensures value { result ≡ spec.number_length text.now }
    ensures within { result ≤ length text.now }
{
    let base = base_of(text);
    let prefix = base.prefix_len();
    prefix + parts_len(&text[prefix..], base.digits())
}

#[tactic(auto, unfolding(crate::specs::Numbers::is_spaced))]
fn is_spaced(digits: &[u8], radix: u32, after: bool) -> bool
    requires least { 2 ≤ radix }
    requires most { radix ≤ 36 }
    ensures { result ≡ spec.is_spaced radix after digits.now }
{
    let mut after = after;
    for byte in digits {
        if is_digit(*byte, radix) {
            after = true;
        } else if after && *byte == b'_' {
            after = false;
        } else {
            return false;
        }
    }
    after
}

fn is_integer(base: Base, digits: &[u8]) -> bool
    ensures { result ≡ spec.is_integer base digits.now }
{
    match base {
        Base::Decimal => is_spaced(digits, 10, false)
            && (digits.len() == 1 || !begins_with(digits, b'0')),
        _ => !digits.is_empty() && is_spaced(digits, base.radix(), true),
    }
}

fn is_spaced_or_empty(digits: &[u8], radix: u32, after: bool) -> bool
    requires least { 2 ≤ radix }
    requires most { radix ≤ 36 }
    ensures { result ≡ spec.is_spaced_or_empty radix after digits.now }
{
    digits.is_empty() || is_spaced(digits, radix, after)
}

fn are_exponent_digits(exponent: &[u8]) -> bool
    ensures { result ≡ spec.is_spaced 10 false (spec.exponent_digits exponent.now) }
{
    let rest = match exponent {
        [] => exponent,
        [_, rest @ ..] => rest,
    };
    is_spaced(&rest[plus_or_minus_len(rest)..], 10, false)
}

fn is_decimal_float(whole: &[u8], fraction: &[u8], exponent: &[u8]) -> bool
    ensures { result ≡ spec.is_decimal_float whole.now fraction.now exponent.now }
{
    is_spaced_or_empty(whole, 10, false)
        && is_spaced_or_empty(fraction, 10, false)
        && !(whole.is_empty() && fraction.is_empty())
        && (exponent.is_empty() || begins_with_e(exponent) && are_exponent_digits(exponent))
}

fn begins_with_e(text: &[u8]) -> bool
    ensures { result ≡ spec.is_e (slice_index text.now 0) }
{
    match text {
        [first, ..] => *first == b'e' || *first == b'E',
        [] => false,
    }
}

fn is_hex_float(whole: &[u8], fraction: &[u8], exponent: &[u8]) -> bool
    ensures { result ≡ spec.is_hex_float whole.now fraction.now exponent.now }
{
    is_spaced_or_empty(whole, 16, true)
        && is_spaced_or_empty(fraction, 16, false)
        && !(whole.is_empty() && fraction.is_empty())
        && !exponent.is_empty()
        && are_exponent_digits(exponent)
}

fn is_float(base: Base, whole: &[u8], fraction: &[u8], exponent: &[u8]) -> bool
    ensures { result ≡ spec.is_float base whole.now fraction.now exponent.now }
{
    match base {
        Base::Decimal => is_decimal_float(whole, fraction, exponent),
        Base::Hex => is_hex_float(whole, fraction, exponent),
        Base::Binary | Base::Octal => false,
    }
}

fn is_other(base: Base, parts: &Parts<'_>) -> bool
    ensures { result ≡ spec.is_other base parts.now.whole.now parts.now.fraction.now
        parts.now.exponent.now parts.now.imaginary.now }
{
    if !parts.fraction.is_empty() || !parts.exponent.is_empty() {
        return is_float(
            base,
            parts.whole,
            after_point(parts.fraction),
            parts.exponent,
        );
    }
    if parts.imaginary.is_empty() {
        return base == Base::Decimal && is_spaced(parts.whole, 8, false);
    }
    is_integer(base, parts.whole) || base == Base::Decimal && is_spaced(parts.whole, 10, false)
}

fn after_point(fraction: &[u8]) -> &[u8]
    ensures { result.now ≡ drop 1 fraction.now }
{
    match fraction {
        [] => fraction,
        [_, rest @ ..] => rest,
    }
}

// The parts of a number after its prefix.
#[derive(Drop)]
struct Parts<'a> {
    whole: &'a [u8],
    fraction: &'a [u8],
    exponent: &'a [u8],
    imaginary: &'a [u8],
}

fn parts_fault(base: Base, parts: &Parts<'_>) -> Option<Code>
    ensures { result ≡ spec.parts_fault base parts.now.whole.now parts.now.fraction.now
        parts.now.exponent.now parts.now.imaginary.now }
{
    if is_integer(base, parts.whole)
        && parts.fraction.is_empty()
        && parts.exponent.is_empty()
        && parts.imaginary.is_empty()
    {
        return match word_of(parts.whole, base.radix()) {
            Some(_) => None,
            None => Some(Code::BadNumber),
        };
    }
    if is_other(base, parts) {
        Some(Code::NotInProfile)
    } else {
        Some(Code::BadNumber)
    }
}

/// The fault of a number, where it has one.
#[tactic(auto, unfolding(crate::specs::Numbers::number_fault))]
pub fn number_fault(bytes: &[u8]) -> Option<Code>
    ensures { result ≡ spec.number_fault bytes.now }
{
    let base = base_of(bytes);
    let class = base.digits();
    let body = &bytes[base.prefix_len()..];
    let (whole, rest) = body.split_at(run_len(body, class));
    let (fraction, rest) = rest.split_at(fraction_len(rest, class));
    let (exponent, imaginary) = rest.split_at(exponent_len(rest));
    let parts = Parts {
        whole,
        fraction,
        exponent,
        imaginary,
    };
    parts_fault(base, &parts)
}
