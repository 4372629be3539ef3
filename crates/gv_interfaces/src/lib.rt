//! The operations of a package and of a specification beside each other.
//!
//! `differing` finds the first name under which they differ, over tables of `names`; `signatures` says whether two operations take and
//! reply the same; `places` tells where a name stands in a text. `difference` has the call.
#![tactic(auto)]

mod difference;
mod differing;
mod laws;
mod names;
mod places;
mod signatures;

pub use difference::{Difference, first_difference};
pub use laws::differences_are_decided;
