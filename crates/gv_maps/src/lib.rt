//! Finite maps from words to words, in sorted vectors.
#![tactic(auto)]

mod map;

pub use map::WordMap;
