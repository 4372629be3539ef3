//! What a walk over calls and statements asks of the names that are seen where it stands, and how it tells what it declares.
//!
//! What a name stands for, where a scope begins, and what a declaration adds, is defined in gv_gotypes. The trait `Scopes` adds to
//! `Names` what is called, and the scopes that a walk opens, fills and closes.
#![tactic(auto)]

mod called;
mod scopes;

pub use called::{Called, Key, Signature};
pub use scopes::Scopes;
