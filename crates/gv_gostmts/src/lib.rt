//! Walks over statements and blocks, by the nodes of a package's tree.
//!
//! What is found in them, and what each declares, is defined in gv_gotypes. Of what is found a walk knows the one fault that is told.
//! It goes over a list of statements in a loop, and calls itself for what stands within braces alone, so no deeper than these are
//! nested.
#![tactic(auto)]

mod blocks;
mod lists;
mod returns;
mod vars;

pub use blocks::{block_fault, declare_part, declare_stmt, statements_in};
pub use lists::{rights_at, statements_at};
pub use vars::name_fault;
