//! Frames, and threads as stacks of them.

ghost use Rattle.std.specs.Prelude.{◌≡◌, drop, slice_set, IfOk, IfSome, IsNone, OnErr, OnOk};
ghost use Rattle.gv_lang.specs.Plain.{proc_of};
ghost use Rattle.gv_lang.specs.Threads.{new_frame, zero_of, thread_of as plain_thread_of};
ghost use Rattle.gv_lang.specs.Step.{assigned};
ghost use Rattle.gv_thread.specs.Frames.{frame_of, frames_of, thread_of};
ghost use Rattle.gv_thread.specs.Settling.{gone_on, begun_by, first_past_head, called_by, returned_from};

use crate::evaluation::NIL_SLICE;
use crate::todo::Todo;
use gv_base::{NoMemory, Val};
use gv_lang::{Local, LocalKind, Proc};
use std::alloc::Global;

/// A procedure that runs: the values of its locals, what it has still to do, and the locals of the
/// frame below that its results are for. This project's own.
#[derive(Drop)]
pub struct Frame<'p> {
    pub proc: u32,
    pub locals: Vec<Val>,
    pub todo: Todo<'p>,
    pub results: &'p [u32],
}

/// A thread: its frames, of which the last in `below` is next to the top, and whether the next
/// command has made the first of its two steps. This project's own.
#[derive(Drop)]
pub struct Thread<'p> {
    pub top: Frame<'p>,
    pub below: Vec<Frame<'p>>,
    pub begun: bool,
}

// The zero of a kind.
fn zero_of(kind: LocalKind) -> Val
    ensures { result ≡ zero_of kind }
{
    match kind {
        LocalKind::Word => Val::Word(0),
        LocalKind::Bool => Val::Bool(false),
        LocalKind::Ref => Val::Ref(0),
        LocalKind::Slice => Val::Slice(NIL_SLICE),
    }
}

// The locals of a procedure behind its parameters.
fn others(p: &Proc) -> &[Local]
    ensures { result.now ≡ drop p.now.params p.now.locals }
{
    let locals = p.locals.as_slice();
    let count = p.params as usize;
    if count < locals.len() {
        &locals[count..]
    } else {
        &[]
    }
}

impl<'p> Frame<'p> {
    /// A local is set.
    pub fn set(&mut self, x: u32, v: Val)
        ensures { frame_of self.new ≡ record (frame_of self.old) { locals = slice_set (frame_of self.old).locals x v } }
    {
        let at = x as usize;
        if at < self.locals.len() {
            self.locals[at] = v;
        }
    }

    /// Locals are set, as many as there are results for them, one after another.
    pub fn assign(&mut self, xs: &[u32], values: &[Val])
        ensures { frame_of self.new ≡ record (frame_of self.old) { locals = assigned (frame_of self.old).locals xs.now values.now } }
    {
        let mut places = xs;
        let mut rest = values;
        while let [x, other_places @ ..] = places {
            let [v, others @ ..] = rest else {
                return;
            };
            self.set(*x, *v);
            places = other_places;
            rest = others;
        }
    }

    /// A frame about to run a procedure, on its place in the program, its arguments and the locals
    /// that its results are for.
    pub fn new(
        alloc: Global,
        place: u32,
        proc: &'p Proc,
        args: Vec<Val>,
        results: &'p [u32],
    ) -> Result<Frame<'p>, NoMemory>
        ensures { IfOk result (λ f. frame_of f ≡ new_frame place (proc_of proc.now) args.items results.now) }
    {
        let todo = Todo::of(alloc, proc.body.as_slice())?;
        let mut locals = args;
        let mut rest = others(proc);
        while let [first, tail @ ..] = rest {
            locals.push(zero_of(first.kind))?;
            rest = tail;
        }
        Ok(Frame {
            proc: place,
            locals,
            todo,
            results,
        })
    }
}

impl<'p> Thread<'p> {
    /// A thread about to run this frame.
    pub fn of(alloc: Global, frame: Frame<'p>) -> Thread<'p>
        ensures { thread_of result ≡ plain_thread_of (frame_of frame.entry) }
    {
        Thread {
            top: frame,
            below: Vec::new(alloc),
            begun: false,
        }
    }

    /// The first of the next command's two steps is done.
    pub fn begin(&mut self)
        ensures { thread_of self.new ≡ begun_by (thread_of self.old) }
    {
        self.begun = true;
    }

    /// The next command is done, and has set no local.
    pub fn finish(&mut self)
        ensures { thread_of self.new ≡ gone_on (thread_of self.old) (thread_of self.old).top.locals }
    {
        self.top.todo.advance();
        self.begun = false;
    }

    /// The next command is done, and has set a local.
    pub fn finish_with(&mut self, x: u32, v: Val)
        ensures { thread_of self.new ≡ gone_on (thread_of self.old) (slice_set (thread_of self.old).top.locals x v) }
    {
        self.top.set(x, v);
        self.finish();
    }

    /// The next command is done, and has set two locals, the first one first.
    pub fn finish_with_both(&mut self, x: u32, v: Val, y: u32, u: Val)
        ensures { thread_of self.new ≡ gone_on (thread_of self.old) (slice_set (slice_set (thread_of self.old).top.locals x v) y u) }
    {
        self.top.set(x, v);
        self.top.set(y, u);
        self.finish();
    }

    /// The next command, a call, has made this frame.
    #[tactic(auto, using(crate::proofs::Stacks::stacked))]
    pub fn push(&mut self, frame: Frame<'p>) -> Result<(), NoMemory>
        ensures ok { OnOk result (thread_of self.new ≡ called_by (thread_of self.old) (frame_of frame.entry)) }
        ensures kept { OnErr result (thread_of self.new ≡ thread_of self.old) }
    {
        let caller = std::mem::replace(&mut self.top, frame);
        match self.below.push(caller) {
            Ok(()) => {
                advance_last(&mut self.below);
                self.begun = false;
                Ok(())
            }
            Err(refused) => {
                self.top = refused.value;
                Err(NoMemory)
            }
        }
    }

    /// The next command has returned these: the frame below takes them, where there is one; else the
    /// thread has ended, and they are handed back.
    #[tactic(auto, using(crate::proofs::Stacks::stacked))]
    pub fn pop(&mut self, values: Vec<Val>) -> Option<Vec<Val>>
        ensures goes_on { IsNone result → returned_from (thread_of self.old) values.items ≡ Some (thread_of self.new) }
        ensures ends { IfSome result (λ vs. (returned_from (thread_of self.old) values.items ≡ None) × (vs.items ≡ values.items)) }
    {
        let Some(mut caller) = self.below.pop() else {
            return Some(values);
        };
        caller.assign(self.top.results, values.as_slice());
        self.top = caller;
        self.begun = false;
        None
    }
}

// The last frame goes on past its next command.
fn advance_last(frames: &mut Vec<Frame<'_>>)
    ensures { frames_of frames.new.items ≡ first_past_head (frames_of frames.old.items) }
{
    let count = frames.len();
    if count == 0 {
        return;
    }
    frames[count - 1].todo.advance();
}
