//! Laws of the definitions in this crate. Each function does nothing: its contract is the law.

ghost use Rattle.gv_resources.specs.Laws.{SingleLaw, FrameLaw, ExcludesLaw};

/// The piece that has one resource has it once, and has no other.
pub fn single_laws()
    ensures { SingleLaw }
{}

/// A piece that changes only where nobody else owns anything leaves what others own in place: the sum with
/// it fits afterwards, at as many keys at once as one likes.
pub fn frame_laws()
    ensures { FrameLaw }
{}

/// What can't be owned at once: a cell that changes and is read-only, a call that may act and has acted, and so on.
pub fn exclusions()
    ensures { ExcludesLaw }
{}
