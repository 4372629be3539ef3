//! Rules of a proof that are sound for one thread, whatever others own.
#![tactic(auto)]

mod laws;

pub use laws::{
    closes_sound, copies_sound, lets_sound, loads_sound, locks_sound, opens_sound, stores_sound,
    unlocks_sound,
};
