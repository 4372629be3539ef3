//! What is proved of programs and their steps.

ghost use Rattle.gv_lang.specs.Rows.{Rows};

/// What each command does, row by row.
pub fn worked()
    ensures { Rows }
{}
