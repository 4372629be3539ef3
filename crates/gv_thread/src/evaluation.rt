//! The values of expressions.

ghost use Rattle.std.specs.Prelude.{◌≡◌, IfOk, slice_get};
ghost use Rattle.gv_words.specs.Words.{shifted_left, shifted_right};
ghost use Rattle.gv_lang.specs.Plain.{expr_of, exprs_of};
ghost use Rattle.gv_lang.specs.Values.{on_words, on_truths, compared, same_slice, one, two, value, values};

use gv_base::{List, NoMemory, SliceVal, Val};
use gv_lang::{Binary, Pure, Unary};
use std::alloc::Global;

/// The slice of no object.
pub const NIL_SLICE: SliceVal = SliceVal {
    object: 0,
    offset: 0,
    length: 0,
    capacity: 0,
};

fn shifted_left(a: u64, b: u64) -> u64
    ensures { result ≡ shifted_left a b }
{
    if b < 64 { a << b } else { 0 }
}

fn shifted_right(a: u64, b: u64) -> u64
    ensures { result ≡ shifted_right a b }
{
    if b < 64 { a >> b } else { 0 }
}

fn on_words(operator: Binary, a: u64, b: u64) -> Option<Val>
    ensures { result ≡ on_words operator a b }
{
    match operator {
        Binary::Or | Binary::And => None,
        Binary::Equal => Some(Val::Bool(a == b)),
        Binary::Less => Some(Val::Bool(a < b)),
        Binary::AtMost => Some(Val::Bool(a <= b)),
        Binary::Plus => Some(Val::Word(a.wrapping_add(b))),
        Binary::Minus => Some(Val::Word(a.wrapping_sub(b))),
        Binary::BitOr => Some(Val::Word(a | b)),
        Binary::BitXor => Some(Val::Word(a ^ b)),
        Binary::Times => Some(Val::Word(a.wrapping_mul(b))),
        Binary::ShiftLeft => Some(Val::Word(shifted_left(a, b))),
        Binary::ShiftRight => Some(Val::Word(shifted_right(a, b))),
        Binary::BitAnd => Some(Val::Word(a & b)),
        Binary::BitClear => Some(Val::Word(a & (u64::MAX - b))),
    }
}

fn on_truths(operator: Binary, a: bool, b: bool) -> Option<Val>
    ensures { result ≡ on_truths operator a b }
{
    match operator {
        Binary::Or => Some(Val::Bool(a || b)),
        Binary::And => Some(Val::Bool(a && b)),
        Binary::Equal => Some(Val::Bool(if a { b } else { !b })),
        _ => None,
    }
}

// Values of other kinds are only compared.
fn compared(operator: Binary, same: bool) -> Option<Val>
    ensures { result ≡ compared operator same }
{
    match operator {
        Binary::Equal => Some(Val::Bool(same)),
        _ => None,
    }
}

fn same_slice(s: SliceVal, t: SliceVal) -> bool
    ensures { result ≡ same_slice s t }
{
    s.object == t.object && s.offset == t.offset && s.length == t.length && s.capacity == t.capacity
}

fn one(operator: Unary, v: Option<Val>) -> Option<Val>
    ensures { result ≡ one operator v }
{
    match operator {
        Unary::Not => match v {
            Some(Val::Bool(b)) => Some(Val::Bool(!b)),
            _ => None,
        },
        Unary::Complement => match v {
            Some(Val::Word(n)) => Some(Val::Word(u64::MAX - n)),
            _ => None,
        },
    }
}

fn two(operator: Binary, a: Option<Val>, b: Option<Val>) -> Option<Val>
    ensures { result ≡ two operator a b }
{
    match (a, b) {
        (Some(Val::Word(a)), Some(Val::Word(b))) => on_words(operator, a, b),
        (Some(Val::Bool(a)), Some(Val::Bool(b))) => on_truths(operator, a, b),
        (Some(Val::Ref(a)), Some(Val::Ref(b))) => compared(operator, a == b),
        (Some(Val::Slice(a)), Some(Val::Slice(b))) => compared(operator, same_slice(a, b)),
        _ => None,
    }
}

// The value of a local by its place.
fn local_at(locals: &[Val], x: u32) -> Option<Val>
    ensures { result ≡ slice_get locals.now x }
{
    match locals.get(x as usize) {
        None => None,
        Some(v) => Some(*v),
    }
}

/// The value of an expression over these locals, where each of its operators has operands of its
/// kinds and each local is there.
#[tactic(auto, using(gv_lang::proofs::Trees::expressions))]
pub fn value(locals: &[Val], e: &Pure) -> Option<Val>
    ensures { result ≡ value locals.now (expr_of e.now) }
{
    match e {
        Pure::Word(n) => Some(Val::Word(*n)),
        Pure::Bool(b) => Some(Val::Bool(*b)),
        Pure::Nil => Some(Val::Ref(0)),
        Pure::NilSlice => Some(Val::Slice(NIL_SLICE)),
        Pure::Local(x) => local_at(locals, *x),
        Pure::Unary(operator, e) => one(*operator, value(locals, e)),
        Pure::Binary(operator, a, b) => two(*operator, value(locals, a), value(locals, b)),
    }
}

/// The values of all, where each has one.
#[tactic(auto, using(crate::proofs::Prefixes::prefixes))]
pub fn values(alloc: Global, locals: &[Val], es: &[Pure]) -> Result<Option<List<Val>>, NoMemory>
    ensures { IfOk result (λ found. found ≡ values locals.now (exprs_of es.now)) }
{
    let mut found = List::new(alloc);
    let mut rest = es;
    while let [first, tail @ ..] = rest {
        let Some(v) = value(locals, first) else {
            return Ok(None);
        };
        found.push(v)?;
        rest = tail;
    }
    Ok(Some(found))
}
