//! Laws of the definitions in this crate. Each function does nothing: its contract is the law.

ghost use Rattle.gv_instances.specs.Laws.{AgreementLaw, AlikeLaw, AssertionsLaw, ClosedLaw, SameStandLaw, TermsLaw};

/// A term has one value under valuations that agree on its variables.
pub fn agreement()
    ensures { AgreementLaw }
{}

/// A term with terms put in for variables means what it means where the variables have their values.
pub fn put_in_terms()
    ensures { TermsLaw }
{}

/// The same of assertions, whose bound numbers nothing captures.
pub fn put_in_assertions()
    ensures { AssertionsLaw }
{}

/// Assertions are stood for alike under valuations that agree on their variables.
pub fn assertion_agreement()
    ensures { SameStandLaw }
{}

/// What speaks of some variables alone hangs on their values alone: terms and assertions.
pub fn closed_terms()
    ensures { ClosedLaw }
{}

/// Assertions that differ in the names of bound numbers alone mean the same.
pub fn alike_assertions()
    ensures { AlikeLaw }
{}
