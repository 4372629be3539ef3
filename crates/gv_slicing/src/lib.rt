//! Rules of a proof about slices that are sound for one thread, whatever others own.
#![tactic(auto)]

mod laws;

pub use laws::{items_sound, makes_sound};
