//! Tests of `gv_gonames` and `gv_goseen`: each public call once on its happy path.
#![tactic(auto)]

#[cfg(test)]
mod tests;
