//! Definitions of arithmetic on words, of words as bytes and of finite maps from words, for contracts
//! above.
#![tactic(auto)]

mod entries;

pub use entries::find;
