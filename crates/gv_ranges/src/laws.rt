//! Laws of the definitions in this crate. Each function does nothing: its contract is the law.

ghost use Rattle.gv_ranges.specs.Laws.{DropsLaw, TakesNumberLaw, PutsNumberLaw, SplitsLaw, JoinsLaw, AddsEmptyLaw, MakesOneLaw};

/// What is owned may be given away.
pub fn drops_sound()
    ensures { DropsLaw }
{}

/// A number that is in a range, and not left out, is left out from now on, and what the range says of it stands by itself.
pub fn numbers_taken_sound()
    ensures { TakesNumberLaw }
{}

/// A number that was left out goes back.
pub fn numbers_put_sound()
    ensures { PutsNumberLaw }
{}

/// A range falls into two at a number between its ends.
pub fn splits_sound()
    ensures { SplitsLaw }
{}

/// Two ranges of which the one ends where the other begins are one.
pub fn joins_sound()
    ensures { JoinsLaw }
{}

/// A range that holds no number is there for nothing.
pub fn empty_ranges_sound()
    ensures { AddsEmptyLaw }
{}

/// What a range would say of one number is that range.
pub fn ranges_of_one_sound()
    ensures { MakesOneLaw }
{}
