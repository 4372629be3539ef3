//! Laws of the definitions in this crate. Each function does nothing: its contract is the law.

ghost use Rattle.gv_certs.specs.Examples.{AreRows};
ghost use Rattle.gv_certs.specs.Laws.{NeverBoth, OneCause, AlwaysOne, ProofsAreTrue, AbsurdIsTrue};

/// What a certificate proves from facts is true under every valuation that meets them, and where it proves `false`, no
/// valuation meets them. Its terms are those of a store: they have sorts, and their numbers are words.
pub fn proofs_are_true()
    ensures proved { ProofsAreTrue }
    ensures absurd { AbsurdIsTrue }
{}

/// Each certificate proves its formula from the facts, or its first premise that fails has a cause; not both, and one cause alone.
pub fn proofs_hold_or_fail()
    ensures apart { NeverBoth }
    ensures one { OneCause }
    ensures always { AlwaysOne }
{}

/// Small certificates with what they come to: one that shows its formula, and a factor below 0, a sum that may wrap, and a number that
/// no axiom has.
pub fn worked_certificates()
    ensures { AreRows }
{}
