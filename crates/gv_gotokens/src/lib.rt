//! The tokens of a package by where they stand.
//!
//! What stands beside a token is defined in gv_gotypes. A search takes a number of steps that grows by one where there are twice as
//! many tokens.
#![tactic(auto)]

mod starts;
mod token_table;

pub use token_table::TokenTable;
