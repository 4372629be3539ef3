//! Commands on disks.

ghost use Rattle.gv_lang.specs.Plain.{expr_of};
ghost use Rattle.gv_lang.specs.Tree as tree;
ghost use Rattle.gv_steps.specs.Acting.{Acts};
ghost use Rattle.gv_thread.specs.Frames.{thread_of};

use crate::operands::{slice, word};
use gv_base::{Answer, Reason, Val};
use gv_lang::Pure;
use gv_store::Store;
use gv_thread::Thread;

/// The step of `twodisk.Write(d, a, s)`, which writes the whole block at once. This project's own.
pub fn disk_write(
    thread: &mut Thread<'_>,
    store: &mut Store,
    d: &Pure,
    a: &Pure,
    s: &Pure,
) -> Answer<()>
    ensures { let action = tree.DiskWrite (expr_of d.now) (expr_of a.now) (expr_of s.now) in
        Acts action (thread_of thread.old) store.old result (thread_of thread.new) store.new }
{
    let Some(disk) = word(thread, d) else {
        return Answer::Undefined(Reason::Kind);
    };
    let Some(block) = word(thread, a) else {
        return Answer::Undefined(Reason::Kind);
    };
    let Some(slice) = slice(thread, s) else {
        return Answer::Undefined(Reason::Kind);
    };
    match store.disk_write(disk, block, slice) {
        Answer::Next(()) => {
            thread.finish();
            Answer::Next(())
        }
        Answer::Blocked => Answer::Blocked,
        Answer::Undefined(reason) => Answer::Undefined(reason),
    }
}

/// The step of `x = disk.Size()`. This project's own.
pub fn disk_size(thread: &mut Thread<'_>, store: &Store, x: u32) -> Answer<()>
    ensures { Acts (tree.DiskSize x) (thread_of thread.old) store.now result (thread_of thread.new) store.now }
{
    thread.finish_with(x, Val::Word(store.disk_size()));
    Answer::Next(())
}
