//! Assertions over what is owned, and when a piece stands for them.
#![tactic(auto)]

mod laws;

pub use laws::{kept_parts, list_laws, range_laws};
