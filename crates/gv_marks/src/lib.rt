//! A step of a thread marks nothing but what it begins to write.
#![tactic(auto)]

mod laws;

pub use laws::steps_mark_what_they_write;
