//! What is proved of graphs. Each function does nothing: its contract is the law.

ghost use Rattle.gv_lockstep.specs.Lockstep.{NumbersAreAside, GraphLaw};
ghost use Rattle.gv_lockstep.specs.Ways.{LockstepLaw};
ghost use Rattle.gv_lockstep.specs.Worked.{Worked};

/// Of every body of a good shape the points are the sites, in order, and the successors of a point are exactly those sites to
/// which the table of steps leads from its own. The table goes the same ways with numbers as without.
#[tactic(auto, using(crate::proofs::Sites::numbers_are_aside))]
pub fn graphs()
    ensures numbers { NumbersAreAside }
    ensures graph { GraphLaw }
{}

/// In every program of a good shape each frame of a thread comes by one point after another of its procedure's graph: first the
/// entry, then always a successor of the one before, and its next command is the point's action.
pub fn lockstep()
    ensures { LockstepLaw }
{}

/// Two graphs, computed.
#[tactic(auto, using(crate::proofs::Computed::worked))]
pub fn worked()
    ensures { Worked }
{}
