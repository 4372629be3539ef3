//! Tests of what no clause of `gv_lang` says: a small program, called through what the crate offers.
#![tactic(auto)]

#[cfg(test)]
mod tests;
