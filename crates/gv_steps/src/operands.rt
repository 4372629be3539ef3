//! Operands of commands, each of the kind that its command wants.

ghost use Rattle.std.specs.Prelude.{◌≡◌, ◌+◌, ◌^◌, ◌<◌, ◌≤◌, true, IfOk, IfSome};
ghost use Rattle.gv_lang.specs.Plain.{expr_of, exprs_of};
ghost use Rattle.gv_lang.specs.Table.{as_value, as_values, as_word, as_ref, as_slice, as_item};
ghost use Rattle.gv_lang.specs.Values as values;
ghost use Rattle.gv_steps.specs.Acting.{or_kind};
ghost use Rattle.gv_steps.specs.Bounds.{is_bounded_thread};
ghost use Rattle.gv_thread.specs.Frames.{thread_of};

use gv_base::{List, NoMemory, SliceVal, Val};
use gv_lang::{ItemKind, Pure};
use gv_thread::{Thread, value, values};
use std::alloc::Global;

/// An operand of any kind. This project's own.
pub fn any(thread: &Thread<'_>, e: &Pure) -> Option<Val>
    ensures { as_value (values.value (thread_of thread.now).top.locals (expr_of e.now)) ≡ or_kind result }
{
    value(thread.top.locals.as_slice(), e)
}

/// An operand that is a word. This project's own.
pub fn word(thread: &Thread<'_>, e: &Pure) -> Option<u64>
    ensures { as_word (values.value (thread_of thread.now).top.locals (expr_of e.now)) ≡ or_kind result }
{
    match value(thread.top.locals.as_slice(), e) {
        Some(Val::Word(n)) => Some(n),
        _ => None,
    }
}

/// An operand that is a reference, as the number of its object. This project's own.
pub fn reference(thread: &Thread<'_>, e: &Pure) -> Option<u32>
    ensures { as_ref (values.value (thread_of thread.now).top.locals (expr_of e.now)) ≡ or_kind result }
{
    match value(thread.top.locals.as_slice(), e) {
        Some(Val::Ref(object)) => Some(object),
        _ => None,
    }
}

/// An operand that is a slice. This project's own.
pub fn slice(thread: &Thread<'_>, e: &Pure) -> Option<SliceVal>
    ensures { as_slice (values.value (thread_of thread.now).top.locals (expr_of e.now)) ≡ or_kind result }
{
    match value(thread.top.locals.as_slice(), e) {
        Some(Val::Slice(s)) => Some(s),
        _ => None,
    }
}

/// An operand that is a slice, of a thread whose slices are bounded: it has no more items than room, and
/// ends below 2^63. This project's own.
pub fn bounded_slice(thread: &Thread<'_>, e: &Pure) -> Option<SliceVal>
    requires { is_bounded_thread (thread_of thread.now) ≡ true }
    ensures value { as_slice (values.value (thread_of thread.now).top.locals (expr_of e.now)) ≡ or_kind result }
    ensures fits { IfSome result (λ s. s.length ≤ s.capacity) }
    ensures ends { IfSome result (λ s. s.offset + s.capacity < 2 ^ 63) }
{
    slice(thread, e)
}

/// An operand as it stands in a cell of a slice of such items: of bytes a word modulo 256.
/// This project's own.
pub fn item(thread: &Thread<'_>, of: ItemKind, e: &Pure) -> Option<Val>
    ensures { as_item of (values.value (thread_of thread.now).top.locals (expr_of e.now)) ≡ or_kind result }
{
    match (of, value(thread.top.locals.as_slice(), e)) {
        (ItemKind::Byte, Some(Val::Word(n))) => Some(Val::Byte((n % 256) as u8)),
        (ItemKind::Word, Some(Val::Word(n))) => Some(Val::Word(n)),
        (ItemKind::Ref, Some(Val::Ref(object))) => Some(Val::Ref(object)),
        _ => None,
    }
}

/// The values of operands of any kinds. This project's own.
pub fn all(alloc: Global, thread: &Thread<'_>, es: &[Pure]) -> Result<Option<List<Val>>, NoMemory>
    ensures { let found = values.values (thread_of thread.now).top.locals (exprs_of es.now) in
        IfOk result (λ vs. as_values found ≡ or_kind vs) }
{
    values(alloc, thread.top.locals.as_slice(), es)
}
