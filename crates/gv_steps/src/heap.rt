//! Commands on the fields of structs.

ghost use Rattle.std.specs.Prelude.{ℕ};
ghost use Rattle.gv_lang.specs.Plain.{expr_of};
ghost use Rattle.gv_lang.specs.Tree as tree;
ghost use Rattle.gv_steps.specs.Acting.{Acts};
ghost use Rattle.gv_thread.specs.Frames.{thread_of};

use crate::operands::{any, reference};
use gv_base::{Answer, Reason};
use gv_lang::Pure;
use gv_store::Store;
use gv_thread::Thread;

/// The step of `x = p.f`. This project's own.
pub fn load(thread: &mut Thread<'_>, store: &Store, x: u32, p: &Pure, field: u32) -> Answer<()>
    ensures { (of : ℕ) → let action = tree.Load x (expr_of p.now) of field in
        Acts action (thread_of thread.old) store.now result (thread_of thread.new) store.now }
{
    let Some(object) = reference(thread, p) else {
        return Answer::Undefined(Reason::Kind);
    };
    match store.read_cell(object, field as u64) {
        Answer::Next(v) => {
            thread.finish_with(x, v);
            Answer::Next(())
        }
        Answer::Blocked => Answer::Blocked,
        Answer::Undefined(reason) => Answer::Undefined(reason),
    }
}

/// The step of `p.f = e`, the first or the second of its two. This project's own.
pub fn store(
    thread: &mut Thread<'_>,
    store: &mut Store,
    p: &Pure,
    field: u32,
    e: &Pure,
) -> Answer<()>
    ensures { (of : ℕ) → let action = tree.Store (expr_of p.now) of field (expr_of e.now) in
        Acts action (thread_of thread.old) store.old result (thread_of thread.new) store.new }
{
    let Some(object) = reference(thread, p) else {
        return Answer::Undefined(Reason::Kind);
    };
    let Some(v) = any(thread, e) else {
        return Answer::Undefined(Reason::Kind);
    };
    if thread.begun {
        match store.end_write(object, field as u64, &[v]) {
            Answer::Next(()) => {
                thread.finish();
                Answer::Next(())
            }
            Answer::Blocked => Answer::Blocked,
            Answer::Undefined(reason) => Answer::Undefined(reason),
        }
    } else {
        match store.begin_write(object, field as u64, 1) {
            Answer::Next(()) => {
                thread.begin();
                Answer::Next(())
            }
            Answer::Blocked => Answer::Blocked,
            Answer::Undefined(reason) => Answer::Undefined(reason),
        }
    }
}
