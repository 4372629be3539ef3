//! The least of the faults that were met.

ghost use Rattle.std.specs.Prelude.{◌≡◌};
ghost use Rattle.gv_scriptnames.specs.Found.{unless};
ghost use Rattle.gv_scriptfaults.specs.Least.{after, is_before, with_one};

use gv_base::Code;
use gv_typing::Fault;

// Whether a fault stands before another, or at its place with a lower number.
fn comes_before(fault: Fault, other: Fault) -> bool
    ensures { result ≡ is_before fault.start fault.code other }
{
    fault.start < other.start
        || (fault.start == other.start && fault.code.number() < other.code.number())
}

/// Keeps the lesser of this fault and the one that was kept before.
pub fn note(first: &mut Option<Fault>, start: u32, code: Code)
    ensures { first.new ≡ with_one first.old start code }
{
    let fault = Fault { start, code };
    *first = match *first {
        None => Some(fault),
        Some(earlier) => Some(if comes_before(fault, earlier) {
            fault
        } else {
            earlier
        }),
    };
}

/// The same, where something doesn't hold.
pub fn want(holds: bool, first: &mut Option<Fault>, start: u32, code: Code)
    ensures { first.new ≡ after first.old (unless holds start code) }
{
    if holds {
        return;
    }
    note(first, start, code);
}
