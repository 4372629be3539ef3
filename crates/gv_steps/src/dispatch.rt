//! The step of a thread, whatever its next command.

ghost use Rattle.std.specs.Prelude.{◌≡◌, true, Some, IfOk};
ghost use Rattle.gv_lang.specs.Plain.{tree_of, program_of};
ghost use Rattle.gv_lang.specs.Step.{stepped};
ghost use Rattle.gv_lang.specs.Todo.{head};
ghost use Rattle.gv_thread.specs.Frames.{thread_of};
ghost use Rattle.gv_steps.specs.Bounds.{is_bounded_thread, is_bounded_store};
ghost use Rattle.gv_steps.specs.Outcomes.{StepsOrRefuses, StepsWithin, is_bounded_after};

use crate::after::After;
use crate::appending::append;
use crate::calls::{call, give_back, spawn};
use crate::disks::{disk_size, disk_write};
use crate::heap::{load, store as store_field};
use crate::limit::within;
use crate::making::{disk_read, disk_read_of, make_map, make_mutex, make_slice, make_struct};
use crate::maps::{map_delete, map_get, map_put};
use crate::mutexes::{lock, unlock};
use crate::outcomes::{begun_in_memory, given_back_in_memory, gone, gone_in_memory, gone_within};
use crate::plain::{divide, length, local, remainder};
use crate::slices::{at, get_word, part, put, put_word};
use gv_base::{Answer, Reason};
use gv_lang::{Cmd, Program};
use gv_store::{Grow, Store};
use gv_thread::Thread;
use std::alloc::Global;

/// One step of a thread of a program: its next command's, or the first of its two. `extra` is the room that an
/// append without a spare cell makes, counted in cells, and no other command looks at it. Where the step can't be
/// taken now, is undefined or is refused, thread and store are as they were. `TooMany` comes where it would leave
/// more than 2^24 live cells. This project's own.
pub fn step<'p>(
    thread: &mut Thread<'p>,
    store: &mut Store,
    alloc: Global,
    g: &'p Program,
    extra: u64,
) -> Result<Answer<After<'p>>, Grow>
    requires thread { is_bounded_thread (thread_of thread.old) ≡ true }
    requires store { is_bounded_store store.old ≡ true }
    ensures step { let wanted = stepped (program_of g.now) extra (thread_of thread.old) store.old in
        StepsWithin wanted (thread_of thread.old) store.old result (thread_of thread.new) store.new }
    ensures store { is_bounded_store store.new ≡ true }
    ensures after { IfOk result (λ answer. is_bounded_after (thread_of thread.new) answer ≡ true) }
{
    let Some(c) = thread.top.todo.head() else {
        return Ok(Answer::Undefined(Reason::Kind));
    };
    let result = act(thread, store, alloc, g, extra, c);
    within(store);
    result
}

// The step of a thread whose next command is this one.
fn act<'p>(
    thread: &mut Thread<'p>,
    store: &mut Store,
    alloc: Global,
    g: &'p Program,
    extra: u64,
    c: &'p Cmd,
) -> Result<Answer<After<'p>>, Grow>
    requires thread { is_bounded_thread (thread_of thread.old) ≡ true }
    requires next { head (thread_of thread.old).top.todo ≡ Some (tree_of c.now) }
    ensures { let wanted = stepped (program_of g.now) extra (thread_of thread.old) store.old in
        StepsOrRefuses wanted (thread_of thread.old) store.old result (thread_of thread.new) store.new }
{
    match c {
        Cmd::Let { x, e, .. } => gone(local(thread, *x, e)),
        Cmd::Div { x, a, b, .. } => gone(divide(thread, *x, a, b)),
        Cmd::Rem { x, a, b, .. } => gone(remainder(thread, *x, a, b)),
        Cmd::Len { x, s, .. } => gone(length(thread, *x, s)),
        Cmd::New { x, vs, .. } => gone_within(make_struct(thread, store, alloc, *x, vs.as_slice())),
        Cmd::Load { x, p, field, .. } => gone(load(thread, store, *x, p, *field)),
        Cmd::Store { p, field, e, .. } => gone(store_field(thread, store, p, *field, e)),
        Cmd::MakeSlice { x, item, n, .. } => gone_within(make_slice(
            thread, store, alloc, *x, *item, n,
        )),
        Cmd::At { x, s, i, .. } => gone(at(thread, store, *x, s, i)),
        Cmd::Put { s, i, v, .. } => gone(put(thread, store, s, i, v)),
        Cmd::Get64 { x, s, .. } => gone(get_word(thread, store, *x, s)),
        Cmd::Put64 { s, v, .. } => gone(put_word(thread, store, s, v)),
        Cmd::Sub { x, s, a, b, .. } => gone(part(thread, *x, s, a, b)),
        Cmd::Append { x, item, s, v, .. } => gone_within(append(
            thread, store, alloc, *x, *item, s, v, extra,
        )),
        Cmd::NewMap { x, .. } => gone_within(make_map(thread, store, alloc, *x)),
        Cmd::MapGet { x, ok, m, k, .. } => gone(map_get(thread, store, *x, *ok, m, k)),
        Cmd::MapPut { m, k, v, .. } => gone_within(map_put(thread, store, m, k, v)),
        Cmd::MapDelete { m, k, .. } => gone_within(map_delete(thread, store, m, k)),
        Cmd::NewMutex { x, .. } => gone_within(make_mutex(thread, store, alloc, *x)),
        Cmd::Lock { m, .. } => gone(lock(thread, store, m)),
        Cmd::Unlock { m, .. } => gone(unlock(thread, store, m)),
        Cmd::DiskRead { x, a, .. } => gone_within(disk_read(thread, store, alloc, *x, a)),
        Cmd::DiskRead2 { x, ok, d, a, .. } => gone_within(disk_read_of(
            thread, store, alloc, *x, *ok, d, a,
        )),
        Cmd::DiskWrite { d, a, s, .. } => gone(disk_write(thread, store, d, a, s)),
        Cmd::DiskSize { x, .. } => gone(disk_size(thread, store, *x)),
        Cmd::Call { xs, f, es, .. } => {
            gone_in_memory(call(thread, alloc, g, xs.as_slice(), *f, es.as_slice()))
        }
        Cmd::Spawn { f, es, .. } => begun_in_memory(spawn(thread, alloc, g, *f, es.as_slice())),
        Cmd::If { .. } | Cmd::Loop { .. } | Cmd::Break { .. } | Cmd::Continue { .. } => {
            gone_in_memory(thread.turn(c))
        }
        Cmd::Return { es, .. } => given_back_in_memory(give_back(thread, alloc, es.as_slice())),
    }
}
