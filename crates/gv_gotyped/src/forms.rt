//! What forms are made of, by what their parts are.

ghost use Rattle.std.specs.Prelude.{◌≡◌, List as Seq, [], ◌∷◌, ◌++◌, Some};
ghost use Rattle.gv_gotypes.specs.Types.{Finding};
ghost use Rattle.gv_gotypes.specs.Places as place;
ghost use Rattle.gv_gotypes.specs.Expressions as expr;
ghost use Rattle.gv_gotyped.specs.First.{first_of, AreFaults, IsMade};
ghost use Rattle.gv_gotyped.specs.Parts.{listed};

use crate::fault::{Fault, earliest};
use crate::outcomes::Made;
use crate::places::{part_refusal, refusal, too_large, wrong_type};
use gv_gosyntax::Lexeme;
use gv_gosyntax::generated::gosyntax_table::{
    CLASS_AT_LEAST, CLASS_AT_MOST, CLASS_EQUAL, CLASS_GREATER, CLASS_LEN, CLASS_LESS,
    CLASS_NOT_EQUAL, CLASS_PERCENT, CLASS_PERCENT_ASSIGN, CLASS_SLASH, CLASS_SLASH_ASSIGN,
    CLASS_UINT64,
};
use gv_operands::{
    Class, GoType, Kind, Part, Spot, Value, binary, indexed, is_fixed, item_of, takes_word,
    to_byte, to_word, unary,
};

// ---- any form

// What is told of a form that is no constant, whose parts are all something.
fn run_form(refused: Option<Fault>, made: Option<Class>, start: u32) -> Made
    ensures { (fs : Seq Finding) → AreFaults fs → refused ≡ first_of fs → IsMade result (place.run_form fs made start) }
{
    match (refused, made) {
        (None, Some(class)) => Made {
            class: Some(class),
            first: None,
        },
        (None, None) => Made {
            class: None,
            first: wrong_type(start),
        },
        (Some(fault), _) => Made {
            class: None,
            first: Some(fault),
        },
    }
}

// What a form is whose parts are all something.
fn whole_form(refused: Option<Fault>, made: Option<Class>, start: u32) -> Made
    ensures { (fs : Seq Finding) → AreFaults fs → refused ≡ first_of fs → IsMade result (place.whole_form fs made start) }
{
    match made {
        Some(class) => {
            if is_fixed(class) {
                Made {
                    class: Some(class),
                    first: None,
                }
            } else {
                run_form(refused, made, start)
            }
        }
        None => run_form(refused, None, start),
    }
}

// What stands beside a part, where another part is nothing.
fn beside_nothing(part: Part) -> Made
    ensures { IsMade result (expr.nothing (place.refusals (part ∷ []))) }
{
    Made {
        class: None,
        first: part_refusal(part),
    }
}

// ---- two operands

// A number without a type that is too large for the byte that it stands beside.
fn too_large_beside(beside: Class, spot: Spot, class: Class) -> Option<Fault>
    ensures { result ≡ first_of (expr.too_large_beside beside spot class) }
{
    match (beside, class) {
        (Class::Run(GoType::Byte), Class::Fixed(Kind::Untyped, Some(Value::Count(n)))) => {
            if n < 256 { None } else { too_large(spot.start) }
        }
        _ => None,
    }
}

fn is_dividing(sign: u8) -> bool
    ensures { result ≡ expr.is_dividing sign }
{
    sign == CLASS_SLASH
        || sign == CLASS_PERCENT
        || sign == CLASS_SLASH_ASSIGN
        || sign == CLASS_PERCENT_ASSIGN
}

/// A constant divisor that is zero.
pub fn zero_divisor(sign: u8, spot: Spot, class: Class) -> Option<Fault>
    ensures { result ≡ first_of (expr.zero_divisor sign spot class) }
{
    match class {
        Class::Fixed(_, Some(Value::Count(n))) => {
            if is_dividing(sign) && n == 0 {
                too_large(spot.start)
            } else {
                None
            }
        }
        _ => None,
    }
}

fn is_comparing(sign: u8) -> bool
    ensures { result ≡ expr.is_comparing sign }
{
    sign == CLASS_LESS
        || sign == CLASS_AT_MOST
        || sign == CLASS_GREATER
        || sign == CLASS_AT_LEAST
        || sign == CLASS_EQUAL
        || sign == CLASS_NOT_EQUAL
}

fn both_beside(a: Spot, b: Spot, c: Class, d: Class) -> Option<Fault>
    ensures { result ≡ first_of (expr.too_large_beside c b d ++ expr.too_large_beside d a c) }
{
    let right = too_large_beside(c, b, d);
    let left = too_large_beside(d, a, c);
    earliest(right, left)
}

fn too_large_compared(sign: u8, a: Spot, b: Spot, c: Class, d: Class) -> Option<Fault>
    ensures { result ≡ first_of (expr.too_large_compared sign a b c d) }
{
    if is_comparing(sign) {
        both_beside(a, b, c, d)
    } else {
        None
    }
}

fn both_refusals(a: Spot, b: Spot, c: Class, d: Class) -> Option<Fault>
    ensures { result ≡ first_of (place.refusals (record { spot = a; class = Some c } ∷ record { spot = b; class = Some d } ∷ [])) }
{
    let left = refusal(a, c);
    let right = refusal(b, d);
    earliest(left, right)
}

fn binary_refusals(sign: u8, a: Spot, b: Spot, c: Class, d: Class) -> Option<Fault>
    ensures { result ≡ first_of (expr.binary_refusals sign a b c d) }
{
    let own = both_refusals(a, b, c, d);
    let compared = too_large_compared(sign, a, b, c, d);
    let zero = zero_divisor(sign, b, d);
    let more = earliest(compared, zero);
    earliest(own, more)
}

fn binary_something(sign: Lexeme, a: Spot, b: Spot, c: Class, d: Class) -> Made
    ensures { IsMade result (expr.binary_outcome sign a b (Some c) (Some d)) }
{
    let refused = binary_refusals(sign.class, a, b, c, d);
    let made = binary(sign.class, c, d);
    whole_form(refused, made, a.start)
}

/// What a binary operator makes of two operands.
pub fn binary_made(sign: Lexeme, a: Part, b: Part) -> Made
    ensures { IsMade result (expr.binary_outcome sign a.spot b.spot a.class b.class) }
{
    match (a.class, b.class) {
        (None, _) => beside_nothing(b),
        (Some(_), None) => beside_nothing(a),
        (Some(c), Some(d)) => binary_something(sign, a.spot, b.spot, c, d),
    }
}

// ---- one operand

fn unary_something(sign: Lexeme, spot: Spot, class: Class) -> Made
    ensures { IsMade result (expr.unary_outcome sign spot (Some class)) }
{
    let refused = refusal(spot, class);
    let made = unary(sign.class, class);
    whole_form(refused, made, sign.start)
}

/// What `!` or `^` makes of an operand.
pub fn unary_made(sign: Lexeme, part: Part) -> Made
    ensures { IsMade result (expr.unary_outcome sign part.spot part.class) }
{
    match part.class {
        None => Made {
            class: None,
            first: None,
        },
        Some(class) => unary_something(sign, part.spot, class),
    }
}

// ---- items and conversions

fn item_class(class: Class) -> Option<Class>
    ensures { result ≡ expr.item_class class }
{
    match class {
        Class::Run(kind) => match indexed(kind) {
            Some(item) => Some(Class::Run(item)),
            None => None,
        },
        _ => None,
    }
}

fn index_class(class: Class, index: Class) -> Option<Class>
    ensures { result ≡ expr.index_class class index }
{
    if takes_word(index) {
        item_class(class)
    } else {
        None
    }
}

fn index_something(a: Spot, b: Spot, c: Class, d: Class) -> Made
    ensures { IsMade result (expr.index_outcome a b (Some c) (Some d)) }
{
    let refused = both_refusals(a, b, c, d);
    let made = index_class(c, d);
    whole_form(refused, made, a.start)
}

/// What `e[i]` is.
pub fn index_made(a: Part, b: Part) -> Made
    ensures { IsMade result (expr.index_outcome a.spot b.spot a.class b.class) }
{
    match (a.class, b.class) {
        (None, _) => beside_nothing(b),
        (Some(_), None) => beside_nothing(a),
        (Some(c), Some(d)) => index_something(a.spot, b.spot, c, d),
    }
}

fn length_class(class: Class) -> Option<Class>
    ensures { result ≡ expr.length_class class }
{
    match class {
        Class::Run(kind) => match item_of(kind) {
            Some(_) => Some(Class::Length),
            None => None,
        },
        _ => None,
    }
}

fn converted(word: u8, class: Class) -> Option<Class>
    ensures { result ≡ expr.converted word class }
{
    if word == CLASS_LEN {
        length_class(class)
    } else if word == CLASS_UINT64 {
        to_word(class)
    } else {
        to_byte(class)
    }
}

fn convert_refusals(word: u8, spot: Spot, class: Class) -> Option<Fault>
    ensures { result ≡ first_of (expr.convert_refusals word spot class) }
{
    match class {
        Class::Length => {
            if word == CLASS_UINT64 {
                None
            } else {
                refusal(spot, class)
            }
        }
        _ => refusal(spot, class),
    }
}

fn convert_something(word: Lexeme, spot: Spot, class: Class) -> Made
    ensures { IsMade result (expr.convert_outcome word spot (Some class)) }
{
    let refused = convert_refusals(word.class, spot, class);
    let made = converted(word.class, class);
    whole_form(refused, made, word.start)
}

/// What `len( )`, `uint64( )` or `byte( )` makes of an operand.
pub fn convert_made(word: Lexeme, part: Part) -> Made
    ensures { IsMade result (expr.convert_outcome word part.spot part.class) }
{
    match part.class {
        None => Made {
            class: None,
            first: None,
        },
        Some(class) => convert_something(word, part.spot, class),
    }
}

// ---- subslices

fn bound_refusal(bound: Option<Part>) -> Option<Fault>
    ensures { result ≡ first_of (place.refusals (listed bound)) }
{
    match bound {
        Some(part) => part_refusal(part),
        None => None,
    }
}

fn slice_refusal(whole: Part, low: Option<Part>, high: Option<Part>) -> Option<Fault>
    ensures { result ≡ first_of (place.refusals (whole ∷ (listed low ++ listed high))) }
{
    let own = part_refusal(whole);
    let below = bound_refusal(low);
    let above = bound_refusal(high);
    let bounds = earliest(below, above);
    earliest(own, bounds)
}

// A bound that is there and nothing.
fn is_nothing(bound: Option<Part>) -> bool
    ensures { result ≡ place.some_is_nothing (listed bound) }
{
    match bound {
        Some(part) => part.class.is_none(),
        None => false,
    }
}

fn bound_fits(bound: Option<Part>) -> bool
    ensures { result ≡ expr.bounds_fit (listed bound) }
{
    match bound {
        Some(part) => match part.class {
            Some(class) => takes_word(class),
            None => false,
        },
        None => true,
    }
}

fn slice_class(class: Class) -> Option<Class>
    ensures { result ≡ expr.slice_class class }
{
    match class {
        Class::Run(kind) => match item_of(kind) {
            Some(_) => Some(class),
            None => None,
        },
        _ => None,
    }
}

fn sliced(class: Option<Class>, low: Option<Part>, high: Option<Part>) -> Option<Class>
    ensures { result ≡ expr.sliced class (listed low ++ listed high) }
{
    match class {
        Some(class) => {
            if bound_fits(low) && bound_fits(high) {
                slice_class(class)
            } else {
                None
            }
        }
        None => None,
    }
}

// Some part of a subslice is nothing.
fn some_nothing(whole: Part, low: Option<Part>, high: Option<Part>) -> bool
    ensures { result ≡ place.some_is_nothing (whole ∷ (listed low ++ listed high)) }
{
    whole.class.is_none() || is_nothing(low) || is_nothing(high)
}

/// What `e[a:b]` is, with the bounds that are there.
pub fn slice_made(whole: Part, low: Option<Part>, high: Option<Part>) -> Made
    ensures { IsMade result (expr.slice_outcome whole.spot whole.class (listed low ++ listed high)) }
{
    let refused = slice_refusal(whole, low, high);
    if some_nothing(whole, low, high) {
        Made {
            class: None,
            first: refused,
        }
    } else {
        let made = sliced(whole.class, low, high);
        whole_form(refused, made, whole.spot.start)
    }
}
