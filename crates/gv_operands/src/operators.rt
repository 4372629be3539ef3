//! What operators make of operands, by what these are.

ghost use Rattle.std.specs.Prelude.{◌≡◌, ◌-◌, ◌^◌};
ghost use Rattle.gv_operands.specs.Operators as op;
ghost use Rattle.gv_operands.specs.Types as ty;

use crate::constants::{as_byte, compared_of, computed_of, joined_of};
use crate::types::{Class, GoType, Kind, Value};
use gv_gosyntax::generated::gosyntax_table::{
    CLASS_AND_AND, CLASS_AT_LEAST, CLASS_AT_MOST, CLASS_BANG, CLASS_EQUAL, CLASS_GREATER,
    CLASS_LESS, CLASS_NOT_EQUAL, CLASS_OR_OR, CLASS_SHIFT_LEFT, CLASS_SHIFT_RIGHT,
};

// ---- operands of one type

/// It may stand where a `uint64` is wanted.
pub fn takes_word(class: Class) -> bool
    ensures { result ≡ op.takes_word class }
{
    match class {
        Class::Run(GoType::Word) => true,
        Class::Fixed(Kind::Untyped, _) => true,
        Class::Fixed(Kind::OfWord, _) => true,
        Class::Shifted => true,
        _ => false,
    }
}

// It may stand where a byte is compared.
fn takes_byte(class: Class) -> bool
    ensures { result ≡ op.takes_byte class }
{
    match class {
        Class::Run(GoType::Byte) => true,
        Class::Fixed(Kind::Untyped, _) => true,
        Class::Fixed(Kind::OfByte, _) => true,
        _ => false,
    }
}

fn takes_truth(class: Class) -> bool
    ensures { result ≡ op.takes_truth class }
{
    match class {
        Class::Run(GoType::Boolean) => true,
        Class::Fixed(Kind::OfBool, _) => true,
        _ => false,
    }
}

// It has no type of its own.
fn is_untyped(class: Class) -> bool
    ensures { result ≡ op.is_untyped class }
{
    match class {
        Class::Fixed(Kind::Untyped, _) => true,
        Class::Shifted => true,
        _ => false,
    }
}

/// It is a constant.
pub fn is_fixed(class: Class) -> bool
    ensures { result ≡ op.is_fixed class }
{
    match class {
        Class::Fixed(_, _) => true,
        _ => false,
    }
}

fn value_in(class: Class) -> Option<Value>
    ensures { result ≡ op.value_in class }
{
    match class {
        Class::Fixed(_, value) => value,
        _ => None,
    }
}

// The kind of two constants of one type, of which one may be without.
fn common(a: Class, b: Class) -> Kind
    ensures { result ≡ op.common a b }
{
    match (a, b) {
        (Class::Fixed(Kind::Untyped, _), Class::Fixed(kind, _)) => kind,
        (Class::Fixed(kind, _), _) => kind,
        _ => Kind::Untyped,
    }
}

// `nil` is compared with it.
fn meets_nil(kind: GoType) -> bool
    ensures { result ≡ ty.meets_nil kind }
{
    match kind {
        GoType::Pointer(_) => true,
        GoType::Map => true,
        _ => false,
    }
}

// A pointer or a map beside `nil`.
fn is_with_nil(a: Class, b: Class) -> bool
    ensures { result ≡ op.is_with_nil a b }
{
    match (a, b) {
        (Class::Run(kind), Class::Nil) => meets_nil(kind),
        (Class::Nil, Class::Run(kind)) => meets_nil(kind),
        _ => false,
    }
}

// ---- two operands

fn arithmetic(sign: u8, a: Class, b: Class) -> Option<Class>
    ensures { result ≡ op.arithmetic sign a b }
{
    if !(takes_word(a) && takes_word(b)) {
        None
    } else if is_fixed(a) && is_fixed(b) {
        let value = computed_of(sign, value_in(a), value_in(b));
        Some(Class::Fixed(common(a, b), value))
    } else if is_untyped(a) && is_untyped(b) {
        Some(Class::Shifted)
    } else {
        Some(Class::Run(GoType::Word))
    }
}

// What is shifted gives the type.
fn shift(sign: u8, a: Class, b: Class) -> Option<Class>
    ensures { result ≡ op.shift sign a b }
{
    if !(takes_word(a) && takes_word(b)) {
        None
    } else if is_fixed(a) && is_fixed(b) {
        let value = computed_of(sign, value_in(a), value_in(b));
        Some(Class::Fixed(common(a, a), value))
    } else if is_untyped(a) {
        Some(Class::Shifted)
    } else {
        Some(Class::Run(GoType::Word))
    }
}

// How two constants of one type compare.
fn compared_constants(sign: u8, a: Class, b: Class) -> Option<Value>
    ensures { result ≡ op.compared_constants sign a b }
{
    let kind = common(a, b);
    compared_of(sign, as_byte(kind, value_in(a)), as_byte(kind, value_in(b)))
}

// Words, or bytes.
fn comparison(sign: u8, a: Class, b: Class) -> Option<Class>
    ensures { result ≡ op.comparison sign a b }
{
    let words = takes_word(a) && takes_word(b);
    let bytes = takes_byte(a) && takes_byte(b);
    if !(words || bytes) {
        None
    } else if is_fixed(a) && is_fixed(b) {
        Some(Class::Fixed(Kind::OfBool, compared_constants(sign, a, b)))
    } else if is_untyped(a) && is_untyped(b) {
        None
    } else {
        Some(Class::Run(GoType::Boolean))
    }
}

fn logic(sign: u8, a: Class, b: Class) -> Option<Class>
    ensures { result ≡ op.logic sign a b }
{
    if !(takes_truth(a) && takes_truth(b)) {
        None
    } else if is_fixed(a) && is_fixed(b) {
        let value = joined_of(sign, value_in(a), value_in(b));
        Some(Class::Fixed(Kind::OfBool, value))
    } else {
        Some(Class::Run(GoType::Boolean))
    }
}

fn equation(sign: u8, a: Class, b: Class) -> Option<Class>
    ensures { result ≡ op.equation sign a b }
{
    if is_with_nil(a, b) {
        Some(Class::Run(GoType::Boolean))
    } else if takes_truth(a) && takes_truth(b) {
        logic(sign, a, b)
    } else {
        comparison(sign, a, b)
    }
}

/// What a binary operator, by the class of its sign, makes of two operands, or nothing where it doesn't take them. A
/// constant whose value is outside 0 to 2^64-1, or is divided by zero, has no value. Operators of the Go specification,
/// as this project's profile has them.
pub fn binary(sign: u8, a: Class, b: Class) -> Option<Class>
    ensures { result ≡ op.binary sign a b }
{
    match sign {
        CLASS_AND_AND | CLASS_OR_OR => logic(sign, a, b),
        CLASS_EQUAL | CLASS_NOT_EQUAL => equation(sign, a, b),
        CLASS_LESS | CLASS_AT_MOST | CLASS_GREATER | CLASS_AT_LEAST => comparison(sign, a, b),
        CLASS_SHIFT_LEFT | CLASS_SHIFT_RIGHT => shift(sign, a, b),
        _ => arithmetic(sign, a, b),
    }
}

// ---- one operand

fn negated(class: Class) -> Option<Class>
    ensures { result ≡ op.negated class }
{
    match class {
        Class::Run(GoType::Boolean) => Some(Class::Run(GoType::Boolean)),
        Class::Fixed(Kind::OfBool, Some(Value::Truth(p))) => {
            Some(Class::Fixed(Kind::OfBool, Some(Value::Truth(!p))))
        }
        Class::Fixed(Kind::OfBool, _) => Some(Class::Fixed(Kind::OfBool, None)),
        _ => None,
    }
}

fn inverted(class: Class) -> Option<Class>
    ensures { result ≡ op.inverted class }
{
    match class {
        Class::Run(GoType::Word) => Some(Class::Run(GoType::Word)),
        Class::Fixed(Kind::Untyped, _) => Some(Class::Fixed(Kind::Untyped, None)),
        Class::Fixed(Kind::OfWord, Some(Value::Count(c))) => {
            Some(Class::Fixed(Kind::OfWord, Some(Value::Count(u64::MAX - c))))
        }
        Class::Fixed(Kind::OfWord, _) => Some(Class::Fixed(Kind::OfWord, None)),
        Class::Shifted => Some(Class::Shifted),
        _ => None,
    }
}

/// What `!` or `^`, by the class of its sign, makes of an operand, or nothing where it doesn't take it.
pub fn unary(sign: u8, class: Class) -> Option<Class>
    ensures { result ≡ op.unary sign class }
{
    if sign == CLASS_BANG {
        negated(class)
    } else {
        inverted(class)
    }
}

// ---- conversions

/// What `uint64( )` makes of an operand.
pub fn to_word(class: Class) -> Option<Class>
    ensures { result ≡ op.to_word class }
{
    match class {
        Class::Run(GoType::Word) => Some(Class::Run(GoType::Word)),
        Class::Run(GoType::Byte) => Some(Class::Run(GoType::Word)),
        Class::Fixed(Kind::OfBool, _) => None,
        Class::Fixed(_, value) => Some(Class::Fixed(Kind::OfWord, value)),
        Class::Shifted => Some(Class::Run(GoType::Word)),
        Class::Length => Some(Class::Run(GoType::Word)),
        _ => None,
    }
}

/// What `byte( )` makes of an operand.
pub fn to_byte(class: Class) -> Option<Class>
    ensures { result ≡ op.to_byte class }
{
    match class {
        Class::Run(GoType::Word) => Some(Class::Run(GoType::Byte)),
        Class::Run(GoType::Byte) => Some(Class::Run(GoType::Byte)),
        Class::Fixed(Kind::OfBool, _) => None,
        Class::Fixed(_, value) => { Some(Class::Fixed(Kind::OfByte, as_byte(Kind::OfByte, value))) }
        _ => None,
    }
}
