//! Types of packages, and what an operand is.

ghost use Rattle.std.specs.Prelude.{◌≡◌};
ghost use Rattle.gv_operands.specs.Types as ty;

/// What a pointer points to: a struct, by its number among the declared ones in order of text, or a mutex.
#[derive(Clone, Copy, Debug, PartialEq, Eq)]
pub enum Base {
    Struct(u32),
    Mutex,
}

/// A type of the profile of Go.
#[derive(Clone, Copy, Debug, PartialEq, Eq)]
pub enum GoType {
    /// `uint64`
    Word,
    Byte,
    /// `bool`
    Boolean,
    /// `[]byte`
    Bytes,
    /// `[]uint64`
    Words,
    /// A slice of pointers.
    Pointers(Base),
    /// `map[uint64]uint64`
    Map,
    Pointer(Base),
}

/// The value of a constant.
#[derive(Clone, Copy, Debug, PartialEq, Eq)]
pub enum Value {
    Count(u64),
    Truth(bool),
}

/// What a constant is: a number without a type, or of one of these types.
#[derive(Clone, Copy, Debug, PartialEq, Eq)]
pub enum Kind {
    Untyped,
    OfWord,
    OfByte,
    OfBool,
}

/// What an operand is. One with a fault in it is nothing of these.
#[derive(Clone, Copy, Debug, PartialEq, Eq)]
pub enum Class {
    /// A value of a type, which only a run computes.
    Run(GoType),
    /// A constant, with its value; without one where a value in it is outside 0 to 2^64-1, a divisor of it is zero, or it
    /// makes a byte of more than 255.
    Fixed(Kind, Option<Value>),
    /// `1 << n`: a number without a type that only a run computes.
    Shifted,
    Nil,
    /// `len(e)`, which Go makes an int.
    Length,
}

// The two point to one thing.
fn same_base(a: Base, b: Base) -> bool
    ensures { result ≡ ty.same_base a b }
{
    match (a, b) {
        (Base::Struct(m), Base::Struct(n)) => m == n,
        (Base::Mutex, Base::Mutex) => true,
        _ => false,
    }
}

/// The two are one type.
pub fn same_type(a: GoType, b: GoType) -> bool
    ensures { result ≡ ty.same_type a b }
{
    match (a, b) {
        (GoType::Pointers(a), GoType::Pointers(b)) => same_base(a, b),
        (GoType::Pointer(a), GoType::Pointer(b)) => same_base(a, b),
        (GoType::Word, GoType::Word) => true,
        (GoType::Byte, GoType::Byte) => true,
        (GoType::Boolean, GoType::Boolean) => true,
        (GoType::Bytes, GoType::Bytes) => true,
        (GoType::Words, GoType::Words) => true,
        (GoType::Map, GoType::Map) => true,
        _ => false,
    }
}

/// The type of the items of a slice.
pub fn item_of(kind: GoType) -> Option<GoType>
    ensures { result ≡ ty.item_of kind }
{
    match kind {
        GoType::Bytes => Some(GoType::Byte),
        GoType::Words => Some(GoType::Word),
        GoType::Pointers(base) => Some(GoType::Pointer(base)),
        _ => None,
    }
}

/// What `e[i]` is: an item of a slice, or a value of a map.
pub fn indexed(kind: GoType) -> Option<GoType>
    ensures { result ≡ ty.indexed kind }
{
    match kind {
        GoType::Map => Some(GoType::Word),
        _ => item_of(kind),
    }
}

/// `nil` may stand for it.
pub fn has_nil(kind: GoType) -> bool
    ensures { result ≡ ty.has_nil kind }
{
    match kind {
        GoType::Word => false,
        GoType::Byte => false,
        GoType::Boolean => false,
        _ => true,
    }
}

// The type of a constant.
fn type_of_kind(kind: Kind) -> Option<GoType>
    ensures { result ≡ ty.type_of_kind kind }
{
    match kind {
        Kind::Untyped => None,
        Kind::OfWord => Some(GoType::Word),
        Kind::OfByte => Some(GoType::Byte),
        Kind::OfBool => Some(GoType::Boolean),
    }
}

/// The type that an operand has by itself.
pub fn own_type(class: Class) -> Option<GoType>
    ensures { result ≡ ty.own_type class }
{
    match class {
        Class::Run(kind) => Some(kind),
        Class::Fixed(kind, _) => type_of_kind(kind),
        _ => None,
    }
}
