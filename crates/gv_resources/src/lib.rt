//! Who owns what of a state: pieces, when they fit it, and how they change beside what others own.
#![tactic(auto)]

mod laws;

pub use laws::{exclusions, frame_laws, single_laws};
