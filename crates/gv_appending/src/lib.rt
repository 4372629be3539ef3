//! Rules of a proof about appends to slices that are sound for one thread, whatever others own.
#![tactic(auto)]

mod laws;

pub use laws::appends_sound;
