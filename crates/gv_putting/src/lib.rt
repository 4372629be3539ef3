//! Rules of a proof about writes of slices that are sound for one thread, whatever others own.
#![tactic(auto)]

mod laws;

pub use laws::puts_sound;
