//! The grammar's stage of reading a package: the tree of its tokens, or where they cease to be a package.
//!
//! `specs/Language` has the grammar as it is published, with the trees that tokens spell. `seen` gives each token its
//! class, and `reading` reads packages and refuses other texts. Tables and trees stand in gv_gosyntax.
#![tactic(auto)]

mod laws;
mod reading;
mod seen;

pub use laws::tokens_spell_one_package;
pub use reading::{MAX_LEVELS, parse};
