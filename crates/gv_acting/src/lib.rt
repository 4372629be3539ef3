//! Rules of a proof about modes and acts that are sound for one thread, whatever others own.
#![tactic(auto)]

mod laws;

pub use laws::{acts_sound, boots_sound, sharing_sound};
