//! Tests of what no clause of `gv_known` says: each public call once, on its happy path.
#![tactic(auto)]

#[cfg(test)]
mod calls;
