//! The tables and acts that tools/grammar.py makes from spec.grammar.

pub mod spec_acts;
pub mod spec_table;
