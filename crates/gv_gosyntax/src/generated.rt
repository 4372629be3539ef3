//! The tables and acts that tools/grammar.py makes from gosyntax.grammar.

pub mod gosyntax_acts;
pub mod gosyntax_table;
