//! Which formulas are known from facts, and one term put for another.
#![tactic(auto)]

mod comparing;
mod facts;
mod formulas;
mod indexed;
mod keys;
mod parts;
mod plain;
mod replacing;

pub use comparing::same;
pub use facts::{contains, is_reflexive};
pub use formulas::known;
pub use indexed::Facts;
pub use parts::{Pair, parts_under};
pub use plain::computes;
pub use replacing::replaced;
