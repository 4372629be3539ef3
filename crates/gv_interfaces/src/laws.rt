//! Laws of the definitions in this crate. Each function does nothing: its contract is the law.

ghost use Rattle.gv_interfaces.specs.Laws.{NoneWhereSame, OneDifference, SameForBoth};

/// The operations of a package and of a specification that a text spells differ at one place first, or nowhere; the store of the
/// specification's terms is of no account.
pub fn differences_are_decided()
    ensures one { OneDifference }
    ensures none { NoneWhereSame }
    ensures both { SameForBoth }
{}
