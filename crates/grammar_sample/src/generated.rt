//! The tables and acts that tools/grammar.py makes from sample.grammar.

pub mod sample_acts;
pub mod sample_table;
