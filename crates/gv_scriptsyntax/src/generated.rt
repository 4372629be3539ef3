//! The tables and acts that tools/grammar.py makes from script.grammar.

pub mod script_acts;
pub mod script_table;
