//! Whether every path of a body ends in a return.

ghost use Rattle.std.specs.Prelude.{◌≡◌};
ghost use Rattle.gv_lang.specs.Plain.{tree_of, body_of};
ghost use Rattle.gv_lang.specs.Shape.{breaks, command_breaks, repeats, command_repeats, ends, command_ends, is_continue, ends_in_continue, loops_end, command_loops_end, is_shaped};

use crate::cmd::Cmd;
use crate::outline::Outline;

// Whether there is a Break of the loop that the block stands in.
#[tactic(auto, using(crate::proofs::Outlines::outlines))]
#[cycle(breaks)]
fn breaks(cs: &[Cmd]) -> bool
    ensures { result ≡ breaks (body_of cs.now) }
{
    let mut rest = cs;
    while let [first, tail @ ..] = rest {
        if command_breaks(first) {
            return true;
        }
        rest = tail;
    }
    false
}

#[tactic(auto, using(crate::proofs::Outlines::outlines))]
#[cycle(breaks)]
fn command_breaks(c: &Cmd) -> bool
    ensures { result ≡ command_breaks (tree_of c.now) }
{
    match c.outline() {
        Outline::Break => true,
        Outline::If(then, other) => breaks(then) || breaks(other),
        _ => false,
    }
}

// Whether there is a Continue of the loop that the block stands in.
#[tactic(auto, using(crate::proofs::Outlines::outlines))]
#[cycle(repeats)]
fn repeats(cs: &[Cmd]) -> bool
    ensures { result ≡ repeats (body_of cs.now) }
{
    let mut rest = cs;
    while let [first, tail @ ..] = rest {
        if command_repeats(first) {
            return true;
        }
        rest = tail;
    }
    false
}

#[tactic(auto, using(crate::proofs::Outlines::outlines))]
#[cycle(repeats)]
fn command_repeats(c: &Cmd) -> bool
    ensures { result ≡ command_repeats (tree_of c.now) }
{
    match c.outline() {
        Outline::Continue => true,
        Outline::If(then, other) => repeats(then) || repeats(other),
        _ => false,
    }
}

// Whether no path goes past the end.
#[tactic(auto, using(crate::proofs::Outlines::outlines))]
#[cycle(ends)]
fn ends(cs: &[Cmd]) -> bool
    ensures { result ≡ ends (body_of cs.now) }
{
    let mut rest = cs;
    while let [first, tail @ ..] = rest {
        if tail.is_empty() {
            return command_ends(first);
        }
        rest = tail;
    }
    false
}

#[tactic(auto, using(crate::proofs::Outlines::outlines))]
#[cycle(ends)]
fn command_ends(c: &Cmd) -> bool
    ensures { result ≡ command_ends (tree_of c.now) }
{
    match c.outline() {
        Outline::Return => true,
        Outline::Loop(body) => !breaks(body),
        Outline::If(then, other) => ends(then) && ends(other),
        _ => false,
    }
}

#[tactic(auto, using(crate::proofs::Outlines::outlines))]
fn is_continue(c: &Cmd) -> bool
    ensures { result ≡ is_continue (tree_of c.now) }
{
    matches!(c.outline(), Outline::Continue)
}

#[tactic(auto, using(crate::proofs::Outlines::outlines))]
fn ends_in_continue(cs: &[Cmd]) -> bool
    ensures { result ≡ ends_in_continue (body_of cs.now) }
{
    let mut rest = cs;
    while let [first, tail @ ..] = rest {
        if tail.is_empty() {
            return is_continue(first);
        }
        rest = tail;
    }
    false
}

// Whether each Loop's body ends in Continue.
#[tactic(auto, using(crate::proofs::Outlines::outlines))]
#[cycle(loops)]
fn loops_end(cs: &[Cmd]) -> bool
    ensures { result ≡ loops_end (body_of cs.now) }
{
    let mut rest = cs;
    while let [first, tail @ ..] = rest {
        if !command_loops_end(first) {
            return false;
        }
        rest = tail;
    }
    true
}

#[tactic(auto, using(crate::proofs::Outlines::outlines))]
#[cycle(loops)]
fn command_loops_end(c: &Cmd) -> bool
    ensures { result ≡ command_loops_end (tree_of c.now) }
{
    match c.outline() {
        Outline::If(then, other) => loops_end(then) && loops_end(other),
        Outline::Loop(body) => ends_in_continue(body) && loops_end(body),
        _ => true,
    }
}

/// Whether each Break and Continue stands within a Loop, each Loop's body ends in Continue, and the
/// body itself in a way out: a Return, a Loop without a Break of its own, or an If whose two
/// branches end so.
pub fn is_shaped(cs: &[Cmd]) -> bool
    ensures { result ≡ is_shaped (body_of cs.now) }
{
    !breaks(cs) && !repeats(cs) && loops_end(cs) && ends(cs)
}
