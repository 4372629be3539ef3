//! The program, over files and a sink that are handed in.
#![tactic(auto)]

mod check;
mod commands;
mod comparing;
mod explain;
mod files;
mod forms;
mod judge;
mod laws;
mod outcome;
mod program;
mod replay;
mod replay_forms;
mod small_script;

pub use laws::{one_package, one_script, one_specification};
pub use program::run;
pub use small_script::{SmallBlock, SmallScript, read_small_script};
