//! Appending to a slice.

ghost use Rattle.std.specs.Prelude.{◌≡◌, true};
ghost use Rattle.gv_lang.specs.Plain.{expr_of};
ghost use Rattle.gv_lang.specs.Tree as tree;
ghost use Rattle.gv_lang.specs.Tree.{Program};
ghost use Rattle.gv_steps.specs.Bounds.{is_bounded_thread};
ghost use Rattle.gv_steps.specs.Growing.{ActsWithinIn};
ghost use Rattle.gv_thread.specs.Frames.{thread_of};

use crate::limit::within;
use crate::operands::{bounded_slice, item};
use gv_base::{Answer, Reason, Val};
use gv_lang::{ItemKind, Pure};
use gv_store::{Grow, Store, longer};
use gv_thread::Thread;
use std::alloc::Global;

/// The step of `x = append(s, v)`: into a spare cell the first or the second of its two; without one the only
/// step, which makes so much room besides, counted in cells. This project's own, after the Go specification,
/// "Appending to and copying slices".
pub fn append(
    thread: &mut Thread<'_>,
    store: &mut Store,
    alloc: Global,
    x: u32,
    of: ItemKind,
    s: &Pure,
    v: &Pure,
    extra: u64,
) -> Result<Answer<()>, Grow>
    requires { is_bounded_thread (thread_of thread.old) ≡ true }
    ensures { let action = tree.Append x of (expr_of s.now) (expr_of v.now) in
        (g : Program) → ActsWithinIn g extra action (thread_of thread.old) store.old result (thread_of thread.new) store.new }
{
    let Some(slice) = bounded_slice(thread, s) else {
        return Ok(Answer::Undefined(Reason::Kind));
    };
    let Some(v) = item(thread, of, v) else {
        return Ok(Answer::Undefined(Reason::Kind));
    };
    if thread.begun {
        match store.end_item(slice, slice.length, v) {
            Answer::Next(()) => {
                within(store);
                thread.finish_with(x, Val::Slice(longer(slice)));
                Ok(Answer::Next(()))
            }
            Answer::Blocked => Ok(Answer::Blocked),
            Answer::Undefined(reason) => Ok(Answer::Undefined(reason)),
        }
    } else if store.has_spare(slice, v) {
        match store.begin_item(slice, slice.length) {
            Answer::Next(()) => {
                thread.begin();
                Ok(Answer::Next(()))
            }
            Answer::Blocked => Ok(Answer::Blocked),
            Answer::Undefined(reason) => Ok(Answer::Undefined(reason)),
        }
    } else {
        match store.append_grow(alloc, slice, v, extra) {
            Ok(Answer::Next(grown)) => {
                thread.finish_with(x, Val::Slice(grown));
                Ok(Answer::Next(()))
            }
            Ok(Answer::Blocked) => Ok(Answer::Blocked),
            Ok(Answer::Undefined(reason)) => Ok(Answer::Undefined(reason)),
            Err(Grow::TooMany) => Err(Grow::TooMany),
            Err(Grow::NoMemory) => Err(Grow::NoMemory),
        }
    }
}
