//! Operators over the values of constants.

ghost use Rattle.std.specs.Prelude.{◌≡◌, ◌<◌, ◌+◌, ◌-◌, ◌*◌, ◌/◌, ◌%◌, ◌^◌, bit_and, Some};
ghost use Rattle.gv_operands.specs.Operators as op;

use crate::types::{Kind, Value};
use gv_gosyntax::generated::gosyntax_table::{
    CLASS_AMP, CLASS_AMP_CARET, CLASS_AND_AND, CLASS_AT_LEAST, CLASS_AT_MOST, CLASS_BAR,
    CLASS_CARET, CLASS_EQUAL, CLASS_GREATER, CLASS_LESS, CLASS_MINUS, CLASS_OR_OR, CLASS_PERCENT,
    CLASS_PLUS, CLASS_SHIFT_LEFT, CLASS_SLASH, CLASS_STAR,
};

// A number below 2^64.
fn word_within(n: u128) -> Option<Value>
    ensures { result ≡ op.word_within n }
{
    if n <= u128::from(u64::MAX) {
        Some(Value::Count(n as u64))
    } else {
        None
    }
}

fn sum(a: u64, b: u64) -> Option<Value>
    ensures { result ≡ op.word_within (a + b) }
{
    word_within(u128::from(a) + u128::from(b))
}

fn product(a: u64, b: u64) -> Option<Value>
    ensures { result ≡ op.word_within (a * b) }
{
    word_within(u128::from(a) * u128::from(b))
}

fn difference(a: u64, b: u64) -> Option<Value>
    ensures { result ≡ op.difference a b }
{
    if b <= a {
        Some(Value::Count(a - b))
    } else {
        None
    }
}

fn quotient(a: u64, b: u64) -> Option<Value>
    ensures { result ≡ op.divided (λ m n. m / n) a b }
{
    if b == 0 {
        None
    } else {
        Some(Value::Count(a / b))
    }
}

fn remainder(a: u64, b: u64) -> Option<Value>
    ensures { result ≡ op.divided (λ m n. m % n) a b }
{
    if b == 0 {
        None
    } else {
        Some(Value::Count(a % b))
    }
}

// A number moved by so many bits, fewer than 64.
fn moved_left(a: u64, n: u64) -> u128
    requires { n < 64 }
    ensures { result ≡ a * 2 ^ n }
{
    u128::from(a) * (1u128 << n)
}

fn shifted_left(a: u64, n: u64) -> Option<Value>
    ensures { result ≡ op.shifted_left a n }
{
    if a == 0 {
        Some(Value::Count(0))
    } else if n < 64 {
        word_within(moved_left(a, n))
    } else {
        None
    }
}

fn shifted_right(a: u64, n: u64) -> Option<Value>
    ensures { result ≡ op.shifted_right a n }
{
    if n < 64 {
        Some(Value::Count(a >> n))
    } else {
        Some(Value::Count(0))
    }
}

// `a &^ b`
fn without_bits(a: u64, b: u64) -> u64
    ensures { result ≡ a - bit_and a b }
{
    a - (a & b)
}

// An operator on bits, or a shift.
fn computed_bits(sign: u8, a: u64, b: u64) -> Option<Value>
    ensures { result ≡ op.computed_bits sign a b }
{
    match sign {
        CLASS_AMP => Some(Value::Count(a & b)),
        CLASS_BAR => Some(Value::Count(a | b)),
        CLASS_CARET => Some(Value::Count(a ^ b)),
        CLASS_AMP_CARET => Some(Value::Count(without_bits(a, b))),
        CLASS_SHIFT_LEFT => shifted_left(a, b),
        _ => shifted_right(a, b),
    }
}

// An operator on two numbers; without a value where that is outside 0 to 2^64-1.
fn computed(sign: u8, a: u64, b: u64) -> Option<Value>
    ensures { result ≡ op.computed sign a b }
{
    match sign {
        CLASS_PLUS => sum(a, b),
        CLASS_MINUS => difference(a, b),
        CLASS_STAR => product(a, b),
        CLASS_SLASH => quotient(a, b),
        CLASS_PERCENT => remainder(a, b),
        _ => computed_bits(sign, a, b),
    }
}

fn compared(sign: u8, a: u64, b: u64) -> Value
    ensures { result ≡ op.compared sign a b }
{
    Value::Truth(match sign {
        CLASS_LESS => a < b,
        CLASS_AT_MOST => a <= b,
        CLASS_GREATER => b < a,
        CLASS_AT_LEAST => b <= a,
        CLASS_EQUAL => a == b,
        _ => a != b,
    })
}

fn joined(sign: u8, p: bool, q: bool) -> Value
    ensures { result ≡ op.joined sign p q }
{
    Value::Truth(match sign {
        CLASS_AND_AND => p && q,
        CLASS_OR_OR => p || q,
        CLASS_EQUAL => p == q,
        _ => p != q,
    })
}

/// What an operator makes of two numbers, where both are there and the value is within 0 to 2^64-1.
pub fn computed_of(sign: u8, a: Option<Value>, b: Option<Value>) -> Option<Value>
    ensures { result ≡ op.of_counts (op.computed sign) a b }
{
    match (a, b) {
        (Some(Value::Count(a)), Some(Value::Count(b))) => computed(sign, a, b),
        _ => None,
    }
}

/// How two numbers compare, where both are there.
pub fn compared_of(sign: u8, a: Option<Value>, b: Option<Value>) -> Option<Value>
    ensures { result ≡ op.of_counts (λ m n. Some (op.compared sign m n)) a b }
{
    match (a, b) {
        (Some(Value::Count(a)), Some(Value::Count(b))) => Some(compared(sign, a, b)),
        _ => None,
    }
}

/// What an operator makes of two truth values, where both are there.
pub fn joined_of(sign: u8, a: Option<Value>, b: Option<Value>) -> Option<Value>
    ensures { result ≡ op.of_truths (op.joined sign) a b }
{
    match (a, b) {
        (Some(Value::Truth(a)), Some(Value::Truth(b))) => Some(joined(sign, a, b)),
        _ => None,
    }
}

// A number up to 255.
fn byte_within(n: u64) -> Option<Value>
    ensures { result ≡ op.byte_within n }
{
    if n < 256 { Some(Value::Count(n)) } else { None }
}

/// The value of a constant as one of this kind: a byte is at most 255.
pub fn as_byte(kind: Kind, value: Option<Value>) -> Option<Value>
    ensures { result ≡ op.as_byte kind value }
{
    match (kind, value) {
        (Kind::OfByte, Some(Value::Count(n))) => byte_within(n),
        _ => value,
    }
}
