//! How each form of an operand ends.

ghost use Rattle.std.specs.Prelude.{◌≡◌, IfOk, Option as Maybe, is_some, option_map, option_and_then};
ghost use Rattle.gv_lang.specs.Plain.{expr_of};
ghost use Rattle.gv_lang.specs.Tree as lang;
ghost use Rattle.gv_lang.specs.declared.program.LocalKind.TheVariants as kinds;
ghost use Rattle.gv_operands.specs.Types as types;
ghost use Rattle.gv_gotypes.specs.Members.{Member as AnyMember};
ghost use Rattle.gv_lowering.specs.Operands as lower;
ghost use Rattle.gv_lowerops.specs.Fields.{field_in};
ghost use Rattle.gv_lowerops.specs.Tails.{last_of};

use crate::fields::{Field, Fields};
use crate::kinds::kind_if;
use crate::last::{Last, Reading};
use crate::places::Places;
use gv_base::NoMemory;
use gv_gosyntax::Lexeme;
use gv_gotypes::{Entity, Found};
use gv_lang::{LocalKind, Pure};
use gv_operands::{Base, Class, GoType, Value, item_of, own_type};

// ---- constants, nil and names

// The value of a constant.
#[tactic(auto, using(gv_lang::proofs::Trees::expressions))]
pub(crate) fn constant_of(class: Option<Class>) -> Option<Pure>
    ensures { option_map expr_of result ≡ lower.constant_of class }
{
    match class {
        Some(Class::Fixed(_, Some(Value::Count(n)))) => Some(Pure::Word(n)),
        Some(Class::Fixed(_, Some(Value::Truth(b)))) => Some(Pure::Bool(b)),
        _ => None,
    }
}

fn is_slice(want: Option<GoType>) -> bool
    ensures { result ≡ is_some (option_and_then types.item_of want) }
{
    match want {
        Some(want) => item_of(want).is_some(),
        None => false,
    }
}

// `nil` where such a type is wanted.
#[tactic(auto, using(gv_lang::proofs::Trees::expressions))]
pub(crate) fn nil_of(want: Option<GoType>) -> Pure
    ensures { expr_of result ≡ lower.nil_of want }
{
    if is_slice(want) {
        Pure::NilSlice
    } else {
        Pure::Nil
    }
}

// What a name stands for.
#[tactic(auto, using(gv_lang::proofs::Trees::expressions))]
pub(crate) fn variable<P: Places>(places: &P, found: Option<Found>) -> Result<Pure, NoMemory>
    ensures { IfOk result (λ value. expr_of value ≡ lower.variable_in (P.context places.now) (option_map (λ f. f.entity) found)) }
{
    match found {
        Some(found) => match found.entity {
            Entity::Variable(declared, _) => Ok(Pure::Local(places.variable(declared)?)),
            _ => Ok(Pure::Nil),
        },
        None => Ok(Pure::Nil),
    }
}

// ---- conversions

// `byte(e)`
#[tactic(auto, using(gv_lang::proofs::Trees::expressions))]
pub(crate) fn byte_of(e: Pure) -> Last
    ensures { last_of result ≡ lower.Reads kinds.Word (λ x. lang.Rem x (expr_of e) (lang.Number 256)) }
{
    Last::Reads(
        LocalKind::Word,
        Reading::Rem {
            a: e,
            b: Pure::Word(256),
        },
    )
}

// `len(e)`
pub(crate) fn length_of(e: Pure) -> Last
    ensures { last_of result ≡ lower.Reads kinds.Word (λ x. lang.Len x (expr_of e)) }
{
    Last::Reads(LocalKind::Word, Reading::Len { s: e })
}

// ---- fields and items

// The type that an operand has by itself.
pub(crate) fn own_type_of(class: Option<Class>) -> Option<GoType>
    ensures { result ≡ types.own_type_of class }
{
    match class {
        Some(class) => own_type(class),
        None => None,
    }
}

fn field_read(p: Pure, of: u32, field: Option<Field>) -> Last
    ensures { (m : Maybe AnyMember) → field ≡ field_in m → last_of result ≡ lower.field_read (expr_of p) of m }
{
    match field {
        Some(field) => Last::Reads(
            kind_if(field.kind),
            Reading::Load {
                p,
                of,
                field: field.number,
            },
        ),
        None => Last::Value(p),
    }
}

// A member of an operand of this class.
pub(crate) fn selected<N: Fields>(names: &N, name: Lexeme, class: Option<Class>, p: Pure) -> Last
    ensures { last_of result ≡ lower.selected (N.env names.now) name class (expr_of p) }
{
    match class {
        Some(Class::Run(GoType::Pointer(Base::Struct(of)))) => {
            let field = names.field(of, name);
            field_read(p, of, field)
        }
        _ => Last::Value(p),
    }
}

fn item_kind_of(whole: Option<GoType>) -> LocalKind
    ensures { result ≡ lower.kind_if (option_and_then types.item_of whole) }
{
    match whole {
        Some(whole) => kind_if(item_of(whole)),
        None => LocalKind::Word,
    }
}

// An item of what has this type.
pub(crate) fn indexed(whole: Option<GoType>, s: Pure, i: Pure) -> Last
    ensures { last_of result ≡ lower.indexed whole (expr_of s) (expr_of i) }
{
    match whole {
        Some(GoType::Map) => Last::ReadsMap(s, i),
        _ => Last::Reads(item_kind_of(whole), Reading::At { s, i }),
    }
}
