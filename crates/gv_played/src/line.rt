//! The events of one line.

ghost use Rattle.std.specs.Prelude.{◌≡◌, ◌+◌, ◌≤◌, ◌^◌, length};
ghost use Rattle.gv_spec.specs.History.{IsEventOf, event_of};
ghost use Rattle.gv_machine.specs.Machines.{program_in, spec_in, state_in};
ghost use Rattle.gv_played.specs.Playing.{Happens, Plays};

use gv_base::Reason;
use gv_machine::{Event, Machine, Outcome};
use std::alloc::Global;

/// What comes of one event: the next one may be tried; or it is undefined, would leave too many live cells, or
/// memory was refused. This project's own.
#[derive(Clone, Copy, Debug, PartialEq, Eq)]
pub enum Once {
    Goes,
    Undefined(Reason),
    TooMany,
    NoMemory,
}

/// What comes of the events of a line: they were run through, none of them undefined; or the one under this
/// number, counted from 1, is undefined; or the one after so many would leave too many live cells; or memory
/// was refused. This project's own.
#[derive(Clone, Copy, Debug, PartialEq, Eq)]
pub enum Played {
    Through,
    Undefined(u32, Reason),
    TooMany(u32),
    NoMemory,
}

// One event. One that isn't possible changes nothing.
fn try_once(alloc: Global, machine: &mut Machine<'_>, e: &Event) -> Once
    requires of_spec { IsEventOf (spec_in machine.old) e.now }
    requires few { length (state_in machine.old).threads + 1 ≤ 2 ^ 32 }
    ensures event { Happens (program_in machine.old) (spec_in machine.old) (state_in machine.old) (event_of e.now) result (state_in machine.new) }
    ensures threads { length (state_in machine.new).threads ≤ length (state_in machine.old).threads + 1 }
    ensures program { program_in machine.new ≡ program_in machine.old }
    ensures spec { spec_in machine.new ≡ spec_in machine.old }
{
    match machine.event(alloc, e) {
        Outcome::Done => Once::Goes,
        Outcome::Blocked => Once::Goes,
        Outcome::Undefined(reason) => Once::Undefined(reason),
        Outcome::TooMany => Once::TooMany,
        Outcome::NoMemory => Once::NoMemory,
    }
}

/// The same event so many times. One that isn't possible changes nothing, and the next one is tried.
pub fn play(alloc: Global, machine: &mut Machine<'_>, e: &Event, count: u32) -> Played
    requires of_spec { IsEventOf (spec_in machine.old) e.now }
    requires few { length (state_in machine.old).threads + count ≤ 2 ^ 32 }
    ensures events { Plays (program_in machine.old) (spec_in machine.old) (state_in machine.old) (event_of e.now) count result (state_in machine.new) }
    ensures threads { length (state_in machine.new).threads ≤ length (state_in machine.old).threads + count }
    ensures program { program_in machine.new ≡ program_in machine.old }
    ensures spec { spec_in machine.new ≡ spec_in machine.old }
{
    let mut done = 0;
    while done < count {
        match try_once(alloc, machine, e) {
            Once::Goes => done += 1,
            Once::Undefined(reason) => return Played::Undefined(done + 1, reason),
            Once::TooMany => return Played::TooMany(done),
            Once::NoMemory => return Played::NoMemory,
        }
    }
    Played::Through
}
