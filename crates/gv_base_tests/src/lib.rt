//! Tests of what no clause of `gv_base` says: real files and streams, what fails in memory, and each public call once.
#![tactic(auto)]

#[cfg(test)]
mod tests;
