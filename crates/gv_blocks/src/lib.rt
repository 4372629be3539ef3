//! Rules of a proof about the blocks of disks that are sound for one thread, whatever others own.
#![tactic(auto)]

mod laws;

pub use laws::{reads_sound, writes_sound};
