//! Terms as they were read, and lists of them, from the nodes of a script's tree.
//!
//! `making` makes one term of its parts, by the acts of the grammar of terms; `terms` walks over nodes.
#![tactic(auto)]

mod making;
mod terms;

pub use terms::{maybe_term_at, placed_at, term_at, terms_at};
