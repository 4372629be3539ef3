//! Scripts that `check` takes: read whole for a specification and a program, and then of the small form or not.
#![tactic(auto)]

mod laws;
mod reading;

pub use laws::small_scripts_are_read_once;
pub use reading::read_small_script;
