//! What it is for a package to refine a specification: events, runs, histories and explanations.
#![tactic(auto)]

mod entry;
mod event;
mod explanation;
mod laws;
mod meaning;

pub use entry::Entry;
pub use event::Event;
pub use explanation::Move;
pub use gv_atomic::{Assign, Field, Op, Pick, Spec, SpecFault, State, Var, make_spec};
pub use laws::{
    choosing_nothing, explanations, impossible_events, lasting, worked, written_walks,
    wrong_definitions,
};
pub use meaning::{
    apply, crash_before, crash_parts, crashed, init, meets_where, op_before, operation, takes,
};
