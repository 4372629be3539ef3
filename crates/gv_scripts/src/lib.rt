//! Proof scripts from their texts, with names, types and counts tested.
//!
//! gv_scriptparse gives the tree of a text, gv_scriptnodes its outline, gv_scriptfaults the first fault of that and gv_scriptplaces the
//! places of its commands. `script` has what is read, `reading` reads it, and `laws` says what is so of every text.
#![tactic(auto)]

mod laws;
mod reading;
mod script;

pub use laws::texts_spell_one_script;
pub use reading::read_script;
pub use script::Script;
