//! The tables and acts that tools/grammar.py makes from term.grammar.

pub mod term_acts;
pub mod term_table;
