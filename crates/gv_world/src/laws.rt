//! What is proved of the accesses.

ghost use Rattle.gv_world.specs.Laws.{WritesEnd};
ghost use Rattle.gv_world.specs.Rows.{Rows};

/// What the accesses of a small store answer, row by row.
#[tactic(auto, using(crate::proofs::Rows::rows))]
pub fn worked()
    ensures { Rows }
{}

/// A write that has begun can be ended.
#[tactic(auto, using(crate::proofs::Writes::writes_end))]
pub fn writes_end()
    ensures { WritesEnd }
{}
