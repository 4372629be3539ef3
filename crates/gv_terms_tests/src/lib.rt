//! Tests of what no clause of `gv_terms` says: each public call once, and nodes that no text has. Tables of terms with
//! their values and sorts are data of a program of cases.
#![tactic(auto)]

#[cfg(test)]
mod calls;
#[cfg(test)]
mod wrong_counts;
