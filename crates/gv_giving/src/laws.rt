//! Laws of the definitions in this crate. Each function does nothing: its contract is the law.

ghost use Rattle.gv_giving.specs.Laws.{AnswersLaw, CallsLaw, FoldsLaw, ReturnsLaw, SpawnsLaw, UnfoldsLaw};

/// A case of a predicate is given up for its instance.
pub fn folds_sound()
    ensures { FoldsLaw }
{}

/// Where an instance of a predicate is there, one of its cases holds.
pub fn unfolds_sound()
    ensures { UnfoldsLaw }
{}

/// A call's new frame stands where its procedure's block begins, with what the procedure is given, and the
/// caller waits with what it keeps.
pub fn calls_sound()
    ensures { CallsLaw }
{}

/// A new thread's frame stands where its procedure's block begins, and the frame that started it goes on.
pub fn spawns_sound()
    ensures { SpawnsLaw }
{}

/// A return leaves what its procedure owes, under the values of its results.
pub fn returns_sound()
    ensures { ReturnsLaw }
{}

/// A caller that waits goes on behind its call, with what the callee owed under new names.
pub fn answers_sound()
    ensures { AnswersLaw }
{}
