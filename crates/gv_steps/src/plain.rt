//! Commands that neither read nor change the store.

ghost use Rattle.gv_world.specs.Store.{Store as World};
ghost use Rattle.gv_lang.specs.Plain.{expr_of};
ghost use Rattle.gv_lang.specs.Tree as tree;
ghost use Rattle.gv_steps.specs.Acting.{Acts};
ghost use Rattle.gv_thread.specs.Frames.{thread_of};

use crate::operands::{any, slice, word};
use gv_base::{Answer, Reason, Val};
use gv_lang::Pure;
use gv_thread::Thread;

/// The step of `x = e`. This project's own.
pub fn local(thread: &mut Thread<'_>, x: u32, e: &Pure) -> Answer<()>
    ensures { (w : World) → Acts (tree.Let x (expr_of e.now)) (thread_of thread.old) w result (thread_of thread.new) w }
{
    let Some(v) = any(thread, e) else {
        return Answer::Undefined(Reason::Kind);
    };
    thread.finish_with(x, v);
    Answer::Next(())
}

/// The step of `x = a / b`. This project's own.
pub fn divide(thread: &mut Thread<'_>, x: u32, a: &Pure, b: &Pure) -> Answer<()>
    ensures { (w : World) → Acts (tree.Div x (expr_of a.now) (expr_of b.now)) (thread_of thread.old) w result (thread_of thread.new) w }
{
    let Some(m) = word(thread, a) else {
        return Answer::Undefined(Reason::Kind);
    };
    let Some(n) = word(thread, b) else {
        return Answer::Undefined(Reason::Kind);
    };
    if n == 0 {
        return Answer::Undefined(Reason::DivideByZero);
    }
    thread.finish_with(x, Val::Word(m / n));
    Answer::Next(())
}

/// The step of `x = a % b`. This project's own.
pub fn remainder(thread: &mut Thread<'_>, x: u32, a: &Pure, b: &Pure) -> Answer<()>
    ensures { (w : World) → Acts (tree.Rem x (expr_of a.now) (expr_of b.now)) (thread_of thread.old) w result (thread_of thread.new) w }
{
    let Some(m) = word(thread, a) else {
        return Answer::Undefined(Reason::Kind);
    };
    let Some(n) = word(thread, b) else {
        return Answer::Undefined(Reason::Kind);
    };
    if n == 0 {
        return Answer::Undefined(Reason::DivideByZero);
    }
    thread.finish_with(x, Val::Word(m % n));
    Answer::Next(())
}

/// The step of `x = len(s)`. This project's own.
pub fn length(thread: &mut Thread<'_>, x: u32, s: &Pure) -> Answer<()>
    ensures { (w : World) → Acts (tree.Len x (expr_of s.now)) (thread_of thread.old) w result (thread_of thread.new) w }
{
    let Some(s) = slice(thread, s) else {
        return Answer::Undefined(Reason::Kind);
    };
    thread.finish_with(x, Val::Word(s.length));
    Answer::Next(())
}
