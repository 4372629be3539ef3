//! Certificates as they were read, checked over terms of a store.
#![tactic(auto)]

mod having;
mod leaves;
mod proving;
mod scoping;
mod terms;

pub use having::{absurd, have};
pub use terms::{formula, resolve};
