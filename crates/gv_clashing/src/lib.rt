//! What nobody owns at once ends a path, and what is owned twice tells an equation; each is sound beside every rest.
#![tactic(auto)]

mod laws;

pub use laws::{agrees_sound, clashes_sound};
