//! What is found of operands where they stand.

ghost use Rattle.std.specs.Prelude.{◌≡◌, nat_lt, Some};
ghost use Rattle.gv_gotypes.specs.Places as spec;
ghost use Rattle.gv_gotypes.specs.Types.{unless};
ghost use Rattle.gv_operands.specs.Types.{has_nil};
ghost use Rattle.gv_base.specs.declared.answers.Code.TheVariants as code;
ghost use Rattle.gv_operands.specs.declared.types.Class.TheVariants.{Fixed, Shifted};
ghost use Rattle.gv_operands.specs.declared.types.GoType.TheVariants.{Byte};
ghost use Rattle.gv_operands.specs.declared.types.Kind.TheVariants.{Untyped};
ghost use Rattle.gv_gotyped.specs.First.{first_of};

use crate::fault::Fault;
use gv_base::Code;
use gv_operands::{
    Class, GoType, Kind, Part, Spot, Value, Want, has_nil, item_of, own_type, same_type,
};

pub(crate) fn wrong_type(start: u32) -> Option<Fault>
    ensures { result ≡ Some (record { start = start; code = code.WrongType }) }
{
    Some(Fault {
        start,
        code: Code::WrongType,
    })
}

pub(crate) fn too_large(start: u32) -> Option<Fault>
    ensures { result ≡ Some (record { start = start; code = code.ConstTooLarge }) }
{
    Some(Fault {
        start,
        code: Code::ConstTooLarge,
    })
}

/// What an operand is refused for wherever it stands.
pub fn refusal(spot: Spot, class: Class) -> Option<Fault>
    ensures { result ≡ first_of (spec.refusal spot class) }
{
    match class {
        Class::Fixed(_, None) => too_large(spot.start),
        Class::Length => wrong_type(spot.inner),
        _ => None,
    }
}

/// The same of a part of a form.
pub fn part_refusal(part: Part) -> Option<Fault>
    ensures { result ≡ first_of (spec.part_refusal part) }
{
    match part.class {
        Some(class) => refusal(part.spot, class),
        None => None,
    }
}

// One that is no operand of a type.
fn unless_same(spot: Spot, kind: GoType, own: Option<GoType>) -> Option<Fault>
    ensures { result ≡ first_of (spec.unlike spot kind own) }
{
    match own {
        None => wrong_type(spot.start),
        Some(own) => {
            if same_type(kind, own) {
                None
            } else {
                wrong_type(spot.start)
            }
        }
    }
}

// A number that stands for a byte.
fn byte_fits(spot: Spot, n: u64) -> Option<Fault>
    ensures { result ≡ first_of (unless (nat_lt n 256) spot.start code.ConstTooLarge) }
{
    if n < 256 { None } else { too_large(spot.start) }
}

fn nil_fits(spot: Spot, kind: GoType) -> Option<Fault>
    ensures { result ≡ first_of (unless (has_nil kind) spot.start code.WrongType) }
{
    if has_nil(kind) {
        None
    } else {
        wrong_type(spot.start)
    }
}

// What a number that only a run computes has against a type.
fn shifted_misfit(spot: Spot, kind: GoType) -> Option<Fault>
    ensures { result ≡ first_of (spec.misfit spot kind Shifted) }
{
    match kind {
        GoType::Word => None,
        _ => wrong_type(spot.start),
    }
}

// What a constant number without a type has against a byte.
fn byte_misfit(spot: Spot, value: Option<Value>) -> Option<Fault>
    ensures { result ≡ first_of (spec.misfit spot Byte (Fixed Untyped value)) }
{
    match value {
        Some(Value::Count(n)) => byte_fits(spot, n),
        _ => wrong_type(spot.start),
    }
}

// What it has against a type.
fn number_misfit(spot: Spot, kind: GoType, value: Option<Value>) -> Option<Fault>
    ensures { result ≡ first_of (spec.misfit spot kind (Fixed Untyped value)) }
{
    match kind {
        GoType::Word => None,
        GoType::Byte => byte_misfit(spot, value),
        _ => wrong_type(spot.start),
    }
}

// What a constant has against a type.
fn fixed_misfit(spot: Spot, kind: GoType, of: Kind, value: Option<Value>) -> Option<Fault>
    ensures { result ≡ first_of (spec.misfit spot kind (Fixed of value)) }
{
    match of {
        Kind::Untyped => number_misfit(spot, kind, value),
        Kind::OfWord => unless_same(spot, kind, Some(GoType::Word)),
        Kind::OfByte => unless_same(spot, kind, Some(GoType::Byte)),
        Kind::OfBool => unless_same(spot, kind, Some(GoType::Boolean)),
    }
}

// What an operand that is not refused wherever it stands has against a type.
fn misfit(spot: Spot, kind: GoType, class: Class) -> Option<Fault>
    ensures { result ≡ first_of (spec.misfit spot kind class) }
{
    match class {
        Class::Run(own) => unless_same(spot, kind, Some(own)),
        Class::Fixed(of, value) => fixed_misfit(spot, kind, of, value),
        Class::Shifted => shifted_misfit(spot, kind),
        Class::Nil => nil_fits(spot, kind),
        Class::Length => unless_same(spot, kind, None),
    }
}

fn is_slice(class: Class) -> bool
    ensures { result ≡ spec.is_slice class }
{
    match class {
        Class::Run(kind) => item_of(kind).is_some(),
        _ => false,
    }
}

fn is_map(class: Class) -> bool
    ensures { result ≡ spec.is_map class }
{
    match class {
        Class::Run(GoType::Map) => true,
        _ => false,
    }
}

fn unless_fault(holds: bool, start: u32) -> Option<Fault>
    ensures { result ≡ first_of (unless holds start code.WrongType) }
{
    if holds { None } else { wrong_type(start) }
}

fn against(spot: Spot, want: Want, class: Class) -> Option<Fault>
    ensures { result ≡ first_of (spec.against spot want class) }
{
    match want {
        Want::Unknown => None,
        Want::AnyTyped => match own_type(class) {
            Some(_) => None,
            None => wrong_type(spot.start),
        },
        Want::Exactly(kind) => misfit(spot, kind, class),
        Want::ASlice => unless_fault(is_slice(class), spot.start),
        Want::AMap => unless_fault(is_map(class), spot.start),
    }
}

// What an operand that is something has where it stands.
fn standing(spot: Spot, want: Want, class: Class) -> Option<Fault>
    ensures { result ≡ first_of (spec.unless_refused (spec.refusal spot class) (spec.against spot want class)) }
{
    match refusal(spot, class) {
        Some(fault) => Some(fault),
        None => against(spot, want, class),
    }
}

/// What is found of an operand where it stands: nothing of one that is nothing.
pub fn in_place(part: Part, want: Want) -> Option<Fault>
    ensures { result ≡ first_of (spec.in_place part.spot want part.class) }
{
    match part.class {
        None => None,
        Some(class) => standing(part.spot, want, class),
    }
}
