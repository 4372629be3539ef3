//! Walks over the calls of a package, by the nodes of its tree.
//!
//! What a call gives, and what is found in it, is defined in gv_gotypes. Of what is found a walk knows the one fault that is told.
#![tactic(auto)]

mod answers;
mod arguments;
mod callees;
mod calls;
mod forms;
mod literals;
mod made;

pub use answers::{Answer, Callee, Results};
pub use arguments::{arguments_at, count_at};
pub use callees::callee_at;
pub use calls::answer_at;
pub use forms::{Form, form_at};
pub use made::{placed, want_of};
