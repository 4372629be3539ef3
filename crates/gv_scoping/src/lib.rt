//! Rules of a proof lead from paths that speak of their own variables alone to such paths.
#![tactic(auto)]

mod laws;

pub use laws::rules_keep_scope;
