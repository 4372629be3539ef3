//! Laws of the definitions in this crate. Each function does nothing: its contract is the law.

ghost use Rattle.gv_blocks.specs.Laws.{ReadsLaw, WritesLaw};

/// Reading a block of one of two disks gives its bytes in a new slice, or shows that the disk has failed.
pub fn reads_sound()
    ensures { ReadsLaw }
{}

/// Writing a block whose master and lease are owned is never undefined, on a failed disk either, and changes
/// for nobody else anything.
pub fn writes_sound()
    ensures { WritesLaw }
{}
