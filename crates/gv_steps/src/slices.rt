//! Commands on the items of slices.

ghost use Rattle.std.specs.Prelude.{◌≡◌, true};
ghost use Rattle.gv_world.specs.Store.{Store as World};
ghost use Rattle.gv_lang.specs.Plain.{expr_of};
ghost use Rattle.gv_lang.specs.Tree as tree;
ghost use Rattle.gv_steps.specs.Acting.{Acts};
ghost use Rattle.gv_steps.specs.Bounds.{is_bounded_thread};
ghost use Rattle.gv_thread.specs.Frames.{thread_of};

use crate::operands::{any, bounded_slice, slice, word};
use gv_base::{Answer, Reason, Val};
use gv_lang::Pure;
use gv_store::{Store, sub};
use gv_thread::Thread;

/// The step of `x = s[i]`. This project's own.
pub fn at(thread: &mut Thread<'_>, store: &Store, x: u32, s: &Pure, i: &Pure) -> Answer<()>
    ensures { Acts (tree.At x (expr_of s.now) (expr_of i.now)) (thread_of thread.old) store.now result (thread_of thread.new) store.now }
{
    let Some(slice) = slice(thread, s) else {
        return Answer::Undefined(Reason::Kind);
    };
    let Some(index) = word(thread, i) else {
        return Answer::Undefined(Reason::Kind);
    };
    if slice.length <= index {
        return Answer::Undefined(Reason::OutOfRange);
    }
    match store.read_item(slice, index) {
        Answer::Next(v) => {
            thread.finish_with(x, v);
            Answer::Next(())
        }
        Answer::Blocked => Answer::Blocked,
        Answer::Undefined(reason) => Answer::Undefined(reason),
    }
}

/// The step of `s[i] = v`, the first or the second of its two. This project's own.
pub fn put(thread: &mut Thread<'_>, store: &mut Store, s: &Pure, i: &Pure, v: &Pure) -> Answer<()>
    ensures { let action = tree.Put (expr_of s.now) (expr_of i.now) (expr_of v.now) in
        Acts action (thread_of thread.old) store.old result (thread_of thread.new) store.new }
{
    let Some(slice) = slice(thread, s) else {
        return Answer::Undefined(Reason::Kind);
    };
    let Some(index) = word(thread, i) else {
        return Answer::Undefined(Reason::Kind);
    };
    let Some(v) = any(thread, v) else {
        return Answer::Undefined(Reason::Kind);
    };
    if slice.length <= index {
        return Answer::Undefined(Reason::OutOfRange);
    }
    if thread.begun {
        match store.end_item(slice, index, v) {
            Answer::Next(()) => {
                thread.finish();
                Answer::Next(())
            }
            Answer::Blocked => Answer::Blocked,
            Answer::Undefined(reason) => Answer::Undefined(reason),
        }
    } else {
        match store.begin_item(slice, index) {
            Answer::Next(()) => {
                thread.begin();
                Answer::Next(())
            }
            Answer::Blocked => Answer::Blocked,
            Answer::Undefined(reason) => Answer::Undefined(reason),
        }
    }
}

/// The step of `x = machine.UInt64Get(s)`. This project's own.
#[tactic(auto, using(crate::proofs::Chains::chained))]
pub fn get_word(thread: &mut Thread<'_>, store: &Store, x: u32, s: &Pure) -> Answer<()>
    ensures { Acts (tree.Get64 x (expr_of s.now)) (thread_of thread.old) store.now result (thread_of thread.new) store.now }
{
    let Some(slice) = slice(thread, s) else {
        return Answer::Undefined(Reason::Kind);
    };
    if slice.length < 8 {
        return Answer::Undefined(Reason::OutOfRange);
    }
    match store.read_word(slice) {
        Answer::Next(n) => {
            thread.finish_with(x, Val::Word(n));
            Answer::Next(())
        }
        Answer::Blocked => Answer::Blocked,
        Answer::Undefined(reason) => Answer::Undefined(reason),
    }
}

/// The step of `machine.UInt64Put(s, v)`, the first or the second of its two. This project's own.
pub fn put_word(thread: &mut Thread<'_>, store: &mut Store, s: &Pure, v: &Pure) -> Answer<()>
    ensures { Acts (tree.Put64 (expr_of s.now) (expr_of v.now)) (thread_of thread.old) store.old result (thread_of thread.new) store.new }
{
    let Some(slice) = slice(thread, s) else {
        return Answer::Undefined(Reason::Kind);
    };
    let Some(n) = word(thread, v) else {
        return Answer::Undefined(Reason::Kind);
    };
    if slice.length < 8 {
        return Answer::Undefined(Reason::OutOfRange);
    }
    if thread.begun {
        match store.end_word(slice, n) {
            Answer::Next(()) => {
                thread.finish();
                Answer::Next(())
            }
            Answer::Blocked => Answer::Blocked,
            Answer::Undefined(reason) => Answer::Undefined(reason),
        }
    } else {
        match store.begin_word(slice) {
            Answer::Next(()) => {
                thread.begin();
                Answer::Next(())
            }
            Answer::Blocked => Answer::Blocked,
            Answer::Undefined(reason) => Answer::Undefined(reason),
        }
    }
}

/// The step of `x = s[a:b]`. This project's own.
pub fn part(thread: &mut Thread<'_>, x: u32, s: &Pure, a: &Pure, b: &Pure) -> Answer<()>
    requires { is_bounded_thread (thread_of thread.old) ≡ true }
    ensures { let action = tree.Sub x (expr_of s.now) (expr_of a.now) (expr_of b.now) in
        (w : World) → Acts action (thread_of thread.old) w result (thread_of thread.new) w }
{
    let Some(slice) = bounded_slice(thread, s) else {
        return Answer::Undefined(Reason::Kind);
    };
    let Some(from) = word(thread, a) else {
        return Answer::Undefined(Reason::Kind);
    };
    let Some(to) = word(thread, b) else {
        return Answer::Undefined(Reason::Kind);
    };
    match sub(slice, from, to) {
        Answer::Next(part) => {
            thread.finish_with(x, Val::Slice(part));
            Answer::Next(())
        }
        Answer::Blocked => Answer::Blocked,
        Answer::Undefined(reason) => Answer::Undefined(reason),
    }
}
