//! Which locals the left sides of a statement set, and what sets them: whole right sides, `x++` and `x op= e`.
//!
//! What it is, is defined in gv_lowering. It stands on what operands become.
#![tactic(auto)]

mod counts;
mod lefts;
mod locals;
mod sets;

pub use counts::{counted_at, updated_at};
pub use lefts::target_at;
pub use locals::{Locals, Target, given};
pub use sets::set;
