//! The first of the faults that are met.

ghost use Rattle.gv_specs.specs.Told.{Adds, IsFault, IsFaultUnless};

use gv_base::Code;
use gv_typing::Fault;

// The first of a fault and one that was met before.
fn first_of(old: Option<Fault>, fault: Fault) -> Option<Fault>
    ensures { Adds (IsFault fault.start fault.code) old result }
{
    match old {
        None => Some(fault),
        Some(earlier) => Some(earlier.or_earlier(fault)),
    }
}

/// Keeps the first of this fault and one that was met before.
pub fn note(first: &mut Option<Fault>, start: u32, code: Code)
    ensures { Adds (IsFault start code) first.old first.new }
{
    *first = first_of(*first, Fault { start, code });
}

/// The same, where something doesn't hold.
pub fn want(holds: bool, first: &mut Option<Fault>, start: u32, code: Code)
    ensures { Adds (IsFaultUnless holds start code) first.old first.new }
{
    if holds {
        return;
    }
    note(first, start, code);
}
