//! Which scripts are of the small form, and their operations.
//!
//! `spelled` compares the texts of tokens, `forms` knows the form's words, and `laws` says what is so of every text.
#![tactic(auto)]

mod forms;
mod laws;
mod spelled;

pub use forms::{SmallBlock, SmallFault, SmallScript, small_script};
pub use laws::one_small_script;
