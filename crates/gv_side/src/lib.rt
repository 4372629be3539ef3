//! Certificates that need no other one, checked over terms of a store.
#![tactic(auto)]

mod asking;
mod instances;
mod making;
mod opposites;
mod replacing;

pub use asking::{ask, ask_known};
pub use instances::by_axiom;
pub use making::{negation, over_two};
pub use opposites::contra;
pub use replacing::{subst, subst_in};
