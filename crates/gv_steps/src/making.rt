//! Commands that make objects.

ghost use Rattle.std.specs.Prelude.{◌≡◌, ℕ};
ghost use Rattle.gv_lang.specs.Plain.{expr_of, exprs_of};
ghost use Rattle.gv_lang.specs.Table as table;
ghost use Rattle.gv_lang.specs.Tree as tree;
ghost use Rattle.gv_steps.specs.Growing.{ActsWithin};
ghost use Rattle.gv_thread.specs.Frames.{thread_of};

use crate::operands::{all, word};
use gv_base::{Answer, Reason, Val};
use gv_lang::{ItemKind, Pure};
use gv_store::{Grow, Store, nil_slice, whole_of};
use gv_thread::Thread;
use std::alloc::Global;

// One more than the greatest length of a slice.
const TOO_LONG: u64 = 1 << 63;

// How many bytes a block has.
const BLOCK_BYTES: u64 = 4096;

// The zero of an item.
fn zero_item(item: ItemKind) -> Val
    ensures { result ≡ table.zero_item item }
{
    match item {
        ItemKind::Byte => Val::Byte(0),
        ItemKind::Word => Val::Word(0),
        ItemKind::Ref => Val::Ref(0),
    }
}

/// The step of `x = &T{v, ..}`. This project's own.
pub fn make_struct(
    thread: &mut Thread<'_>,
    store: &mut Store,
    alloc: Global,
    x: u32,
    vs: &[Pure],
) -> Result<Answer<()>, Grow>
    ensures { (of : ℕ) → let action = tree.New x of (exprs_of vs.now) in
        ActsWithin action (thread_of thread.old) store.old result (thread_of thread.new) store.new }
{
    let Some(items) = all(alloc, thread, vs)? else {
        return Ok(Answer::Undefined(Reason::Kind));
    };
    match store.new_struct(alloc, items.as_slice()) {
        Ok(object) => {
            thread.finish_with(x, Val::Ref(object));
            Ok(Answer::Next(()))
        }
        Err(Grow::TooMany) => Err(Grow::TooMany),
        Err(Grow::NoMemory) => Err(Grow::NoMemory),
    }
}

/// The step of `x = make([]T, n)`. This project's own.
pub fn make_slice(
    thread: &mut Thread<'_>,
    store: &mut Store,
    alloc: Global,
    x: u32,
    item: ItemKind,
    n: &Pure,
) -> Result<Answer<()>, Grow>
    ensures { let action = tree.MakeSlice x item (expr_of n.now) in
        ActsWithin action (thread_of thread.old) store.old result (thread_of thread.new) store.new }
{
    let Some(count) = word(thread, n) else {
        return Ok(Answer::Undefined(Reason::Kind));
    };
    if TOO_LONG <= count {
        return Ok(Answer::Undefined(Reason::OutOfRange));
    }
    match store.new_slice(alloc, zero_item(item), count) {
        Ok(object) => {
            thread.finish_with(x, Val::Slice(whole_of(object, count)));
            Ok(Answer::Next(()))
        }
        Err(Grow::TooMany) => Err(Grow::TooMany),
        Err(Grow::NoMemory) => Err(Grow::NoMemory),
    }
}

/// The step of `x = make(map[uint64]uint64)`. This project's own.
pub fn make_map(
    thread: &mut Thread<'_>,
    store: &mut Store,
    alloc: Global,
    x: u32,
) -> Result<Answer<()>, Grow>
    ensures { ActsWithin (tree.NewMap x) (thread_of thread.old) store.old result (thread_of thread.new) store.new }
{
    match store.new_map(alloc) {
        Ok(object) => {
            thread.finish_with(x, Val::Ref(object));
            Ok(Answer::Next(()))
        }
        Err(Grow::TooMany) => Err(Grow::TooMany),
        Err(Grow::NoMemory) => Err(Grow::NoMemory),
    }
}

/// The step of `x = new(sync.Mutex)`. This project's own.
pub fn make_mutex(
    thread: &mut Thread<'_>,
    store: &mut Store,
    alloc: Global,
    x: u32,
) -> Result<Answer<()>, Grow>
    ensures { ActsWithin (tree.NewMutex x) (thread_of thread.old) store.old result (thread_of thread.new) store.new }
{
    match store.new_mutex(alloc) {
        Ok(object) => {
            thread.finish_with(x, Val::Ref(object));
            Ok(Answer::Next(()))
        }
        Err(Grow::TooMany) => Err(Grow::TooMany),
        Err(Grow::NoMemory) => Err(Grow::NoMemory),
    }
}

/// The step of `x = disk.Read(a)`. This project's own.
pub fn disk_read(
    thread: &mut Thread<'_>,
    store: &mut Store,
    alloc: Global,
    x: u32,
    a: &Pure,
) -> Result<Answer<()>, Grow>
    ensures { let action = tree.DiskRead x (expr_of a.now) in
        ActsWithin action (thread_of thread.old) store.old result (thread_of thread.new) store.new }
{
    let Some(block) = word(thread, a) else {
        return Ok(Answer::Undefined(Reason::Kind));
    };
    match store.disk_read(alloc, 0, block) {
        Ok(Answer::Next(Some(object))) => {
            thread.finish_with(x, Val::Slice(whole_of(object, BLOCK_BYTES)));
            Ok(Answer::Next(()))
        }
        Ok(Answer::Next(None)) => {
            thread.finish_with(x, Val::Slice(nil_slice()));
            Ok(Answer::Next(()))
        }
        Ok(Answer::Blocked) => Ok(Answer::Blocked),
        Ok(Answer::Undefined(reason)) => Ok(Answer::Undefined(reason)),
        Err(Grow::TooMany) => Err(Grow::TooMany),
        Err(Grow::NoMemory) => Err(Grow::NoMemory),
    }
}

/// The step of `x, ok = twodisk.Read(d, a)`. This project's own.
pub fn disk_read_of(
    thread: &mut Thread<'_>,
    store: &mut Store,
    alloc: Global,
    x: u32,
    ok: u32,
    d: &Pure,
    a: &Pure,
) -> Result<Answer<()>, Grow>
    ensures { let action = tree.DiskRead2 x ok (expr_of d.now) (expr_of a.now) in
        ActsWithin action (thread_of thread.old) store.old result (thread_of thread.new) store.new }
{
    let Some(disk) = word(thread, d) else {
        return Ok(Answer::Undefined(Reason::Kind));
    };
    let Some(block) = word(thread, a) else {
        return Ok(Answer::Undefined(Reason::Kind));
    };
    match store.disk_read(alloc, disk, block) {
        Ok(Answer::Next(Some(object))) => {
            thread.finish_with_both(
                x,
                Val::Slice(whole_of(object, BLOCK_BYTES)),
                ok,
                Val::Bool(true),
            );
            Ok(Answer::Next(()))
        }
        Ok(Answer::Next(None)) => {
            thread.finish_with_both(x, Val::Slice(nil_slice()), ok, Val::Bool(false));
            Ok(Answer::Next(()))
        }
        Ok(Answer::Blocked) => Ok(Answer::Blocked),
        Ok(Answer::Undefined(reason)) => Ok(Answer::Undefined(reason)),
        Err(Grow::TooMany) => Err(Grow::TooMany),
        Err(Grow::NoMemory) => Err(Grow::NoMemory),
    }
}
