//! Tests of what no clause of `gv_spec` says: worked specifications, made of terms. Walks along more of them are data of a
//! program of cases.
#![tactic(auto)]

#[cfg(test)]
mod meaning_rows;
