//! The digest of a file, as reports name it.
#![tactic(auto)]

mod digests;

pub use digests::digest;
