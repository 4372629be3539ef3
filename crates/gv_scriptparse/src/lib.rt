//! The grammar's stage of reading a script: the tree of its tokens, or where they cease to be a script.
//!
//! `seen` gives each token its class, and `reading` reads scripts and refuses other texts. The published grammar, tables and
//! trees stand in gv_scriptsyntax.
#![tactic(auto)]

mod laws;
mod reading;
mod seen;

pub use laws::tokens_spell_one_script;
pub use reading::parse_script;
