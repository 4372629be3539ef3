//! Tests of the sample of a grammar.
#![tactic(auto)]

#[cfg(test)]
mod reading;
