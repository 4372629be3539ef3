//! Tests of what no clause of `gv_top` says: runs over files and sinks that fail.
#![tactic(auto)]

#[cfg(test)]
mod tests;
