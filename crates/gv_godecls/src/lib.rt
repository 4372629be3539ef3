//! The declarations of a package by the nodes of its tree, in order of text.
#![tactic(auto)]

mod decls;

pub use decls::decls_at;
