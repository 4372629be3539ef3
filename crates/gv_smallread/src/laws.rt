//! What is so of every text. The function does nothing: its contract is the law.

ghost use Rattle.gv_smallread.specs.Reading.{AreReadOnce};

/// A text spells one script of the small form at most, or is refused at one place by one code, and not both, for a specification and a
/// program.
#[tactic(auto, using(crate::proofs::Decided::all_read_once))]
pub fn small_scripts_are_read_once()
    ensures { AreReadOnce }
{}
