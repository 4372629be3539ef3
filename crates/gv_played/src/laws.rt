//! Laws of the definitions in this crate. Each function does nothing: its contract is the law.

ghost use Rattle.gv_played.specs.Laws.{NotBoth, OneLine, OneRun};

/// A schedule comes to one run at most: one history, and one undefined event or none; or to too many live cells at
/// the line of one event; and never to both.
pub fn schedules_are_decided()
    ensures run { OneRun }
    ensures line { OneLine }
    ensures not_both { NotBoth }
{}
