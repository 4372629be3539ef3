//! Kinds of values.

ghost use Rattle.std.specs.Prelude.{◌≡◌};
ghost use Rattle.gv_lowering.specs.Operands as lower;

use gv_lang::LocalKind;
use gv_operands::GoType;

/// The kind of a type's values.
pub fn kind_of(of: GoType) -> LocalKind
    ensures { result ≡ lower.kind_of of }
{
    match of {
        GoType::Word => LocalKind::Word,
        GoType::Byte => LocalKind::Word,
        GoType::Boolean => LocalKind::Bool,
        GoType::Bytes => LocalKind::Slice,
        GoType::Words => LocalKind::Slice,
        GoType::Pointers(_) => LocalKind::Slice,
        GoType::Map => LocalKind::Ref,
        GoType::Pointer(_) => LocalKind::Ref,
    }
}

/// The kind of a type's values, where there is a type.
pub fn kind_if(of: Option<GoType>) -> LocalKind
    ensures { result ≡ lower.kind_if of }
{
    match of {
        Some(of) => kind_of(of),
        None => LocalKind::Word,
    }
}
