//! The search for an explanation of one recorded history.
#![tactic(auto)]

mod calls;
mod choices;
mod fields;
mod judging;
mod laws;
mod node;
mod repeats;
mod search;
mod turn;

pub use judging::{Judged, judge};
pub use laws::{answers_exclude, few_nodes, search_order, worked_searches, written_search_order};
