//! The constants that an expression outside of functions names, and what it is by them.
#![tactic(auto)]

mod named;

pub use named::push_named;
