//! Which written specifications are of the small form, and their operations.
#![tactic(auto)]

mod forms;
mod laws;

pub use forms::{SmallFault, small_spec};
pub use laws::small_forms;
