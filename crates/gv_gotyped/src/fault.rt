//! The fault that is told.

ghost use Rattle.std.specs.Prelude.{◌≡◌};
ghost use Rattle.gv_gotyped.specs.First as spec;

use gv_base::Code;

/// A fault of a package: the byte at which it stands, and its code. This project's own.
#[derive(Clone, Copy, Debug, PartialEq, Eq)]
pub struct Fault {
    pub start: u32,
    pub code: Code,
}

impl Fault {
    /// Of two faults the one that is told: that at the earlier place, at one place that with the lower number.
    pub fn or_earlier(self, other: Fault) -> Fault
        ensures { result ≡ spec.earlier self other }
    {
        if self.start < other.start
            || (self.start == other.start && self.code.number() <= other.code.number())
        {
            self
        } else {
            other
        }
    }
}

/// The fault that is told, of two parts that have one or none.
pub fn earliest(first: Option<Fault>, other: Option<Fault>) -> Option<Fault>
    ensures { result ≡ spec.earliest first other }
{
    match (first, other) {
        (Some(first), Some(other)) => Some(first.or_earlier(other)),
        (Some(first), None) => Some(first),
        (None, other) => other,
    }
}
