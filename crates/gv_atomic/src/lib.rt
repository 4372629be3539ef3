//! Atomic specifications as they are written: their parts, when they are typed, and what they mean.
#![tactic(auto)]

mod bodies;
mod closing;
mod laws;
mod making;
mod names;
mod sorts;
mod spec;
mod typing;

pub use gv_terms::Var;
pub use laws::{allowed_choices, without_picks};
pub use making::make_spec;
pub use names::is_free;
pub use sorts::{is_field_sort, is_plain};
pub use spec::{Assign, Field, Op, Pick, Spec, SpecFault, State};
