//! Rules of a proof that give assertions for others: instances of predicates, calls, new threads and returns.
#![tactic(auto)]

mod laws;

pub use laws::{
    answers_sound, calls_sound, folds_sound, returns_sound, spawns_sound, unfolds_sound,
};
