//! Commands on maps.

ghost use Rattle.gv_lang.specs.Plain.{expr_of};
ghost use Rattle.gv_lang.specs.Tree as tree;
ghost use Rattle.gv_steps.specs.Acting.{Acts};
ghost use Rattle.gv_steps.specs.Growing.{ActsWithin};
ghost use Rattle.gv_thread.specs.Frames.{thread_of};

use crate::operands::{reference, word};
use gv_base::{Answer, Reason, Val};
use gv_lang::Pure;
use gv_store::{Grow, Store};
use gv_thread::Thread;

/// The step of `x, ok = m[k]`; a nil map has nothing under any key. This project's own.
pub fn map_get(
    thread: &mut Thread<'_>,
    store: &Store,
    x: u32,
    ok: u32,
    m: &Pure,
    k: &Pure,
) -> Answer<()>
    ensures { Acts (tree.MapGet x ok (expr_of m.now) (expr_of k.now)) (thread_of thread.old) store.now result (thread_of thread.new) store.now }
{
    let Some(object) = reference(thread, m) else {
        return Answer::Undefined(Reason::Kind);
    };
    let Some(key) = word(thread, k) else {
        return Answer::Undefined(Reason::Kind);
    };
    if object == 0 {
        thread.finish_with_both(x, Val::Word(0), ok, Val::Bool(false));
        return Answer::Next(());
    }
    match store.map_read(object, key) {
        Answer::Next(Some(n)) => {
            thread.finish_with_both(x, Val::Word(n), ok, Val::Bool(true));
            Answer::Next(())
        }
        Answer::Next(None) => {
            thread.finish_with_both(x, Val::Word(0), ok, Val::Bool(false));
            Answer::Next(())
        }
        Answer::Blocked => Answer::Blocked,
        Answer::Undefined(reason) => Answer::Undefined(reason),
    }
}

/// The step of `m[k] = v`, the first or the second of its two. This project's own.
pub fn map_put(
    thread: &mut Thread<'_>,
    store: &mut Store,
    m: &Pure,
    k: &Pure,
    v: &Pure,
) -> Result<Answer<()>, Grow>
    ensures { let action = tree.MapPut (expr_of m.now) (expr_of k.now) (expr_of v.now) in
        ActsWithin action (thread_of thread.old) store.old result (thread_of thread.new) store.new }
{
    let Some(object) = reference(thread, m) else {
        return Ok(Answer::Undefined(Reason::Kind));
    };
    let Some(key) = word(thread, k) else {
        return Ok(Answer::Undefined(Reason::Kind));
    };
    let Some(n) = word(thread, v) else {
        return Ok(Answer::Undefined(Reason::Kind));
    };
    if thread.begun {
        match store.map_end(object, key, Some(n)) {
            Ok(Answer::Next(())) => {
                thread.finish();
                Ok(Answer::Next(()))
            }
            Ok(Answer::Blocked) => Ok(Answer::Blocked),
            Ok(Answer::Undefined(reason)) => Ok(Answer::Undefined(reason)),
            Err(Grow::TooMany) => Err(Grow::TooMany),
            Err(Grow::NoMemory) => Err(Grow::NoMemory),
        }
    } else {
        match store.map_begin(object) {
            Answer::Next(()) => {
                thread.begin();
                Ok(Answer::Next(()))
            }
            Answer::Blocked => Ok(Answer::Blocked),
            Answer::Undefined(reason) => Ok(Answer::Undefined(reason)),
        }
    }
}

/// The step of `delete(m, k)`, the first or the second of its two; on nil both do nothing.
/// This project's own.
pub fn map_delete(
    thread: &mut Thread<'_>,
    store: &mut Store,
    m: &Pure,
    k: &Pure,
) -> Result<Answer<()>, Grow>
    ensures { let action = tree.MapDelete (expr_of m.now) (expr_of k.now) in
        ActsWithin action (thread_of thread.old) store.old result (thread_of thread.new) store.new }
{
    let Some(object) = reference(thread, m) else {
        return Ok(Answer::Undefined(Reason::Kind));
    };
    let Some(key) = word(thread, k) else {
        return Ok(Answer::Undefined(Reason::Kind));
    };
    if object == 0 {
        if thread.begun {
            thread.finish();
            return Ok(Answer::Next(()));
        }
        thread.begin();
        return Ok(Answer::Next(()));
    }
    if thread.begun {
        match store.map_end(object, key, None) {
            Ok(Answer::Next(())) => {
                thread.finish();
                Ok(Answer::Next(()))
            }
            Ok(Answer::Blocked) => Ok(Answer::Blocked),
            Ok(Answer::Undefined(reason)) => Ok(Answer::Undefined(reason)),
            Err(Grow::TooMany) => Err(Grow::TooMany),
            Err(Grow::NoMemory) => Err(Grow::NoMemory),
        }
    } else {
        match store.map_begin(object) {
            Answer::Next(()) => {
                thread.begin();
                Ok(Answer::Next(()))
            }
            Answer::Blocked => Ok(Answer::Blocked),
            Answer::Undefined(reason) => Ok(Answer::Undefined(reason)),
        }
    }
}
