//! Walks over left sides of assignments, and over what is counted, by the nodes of a package's tree.
//!
//! What each wants, and what is found in it, is defined in gv_gotypes. Of what is found a walk knows the one fault that is told.
#![tactic(auto)]

mod counted;
mod lefts;
mod targets;

pub use counted::{counted_at, update_at};
pub use lefts::{defined_at, is_new_at, is_old_at, pair_target_at};
pub use targets::{Target, start_at, target_at};
