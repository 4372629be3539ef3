//! Commands on mutexes.

ghost use Rattle.gv_lang.specs.Plain.{expr_of};
ghost use Rattle.gv_lang.specs.Tree as tree;
ghost use Rattle.gv_steps.specs.Acting.{Acts};
ghost use Rattle.gv_thread.specs.Frames.{thread_of};

use crate::operands::reference;
use gv_base::{Answer, Reason};
use gv_lang::Pure;
use gv_store::Store;
use gv_thread::Thread;

/// The step of `m.Lock()`, which waits while the mutex is locked. This project's own.
pub fn lock(thread: &mut Thread<'_>, store: &mut Store, m: &Pure) -> Answer<()>
    ensures { Acts (tree.Lock (expr_of m.now)) (thread_of thread.old) store.old result (thread_of thread.new) store.new }
{
    let Some(object) = reference(thread, m) else {
        return Answer::Undefined(Reason::Kind);
    };
    match store.lock(object) {
        Answer::Next(()) => {
            thread.finish();
            Answer::Next(())
        }
        Answer::Blocked => Answer::Blocked,
        Answer::Undefined(reason) => Answer::Undefined(reason),
    }
}

/// The step of `m.Unlock()`, of whichever thread locked the mutex. This project's own.
pub fn unlock(thread: &mut Thread<'_>, store: &mut Store, m: &Pure) -> Answer<()>
    ensures { Acts (tree.Unlock (expr_of m.now)) (thread_of thread.old) store.old result (thread_of thread.new) store.new }
{
    let Some(object) = reference(thread, m) else {
        return Answer::Undefined(Reason::Kind);
    };
    match store.unlock(object) {
        Answer::Next(()) => {
            thread.finish();
            Answer::Next(())
        }
        Answer::Blocked => Answer::Blocked,
        Answer::Undefined(reason) => Answer::Undefined(reason),
    }
}
