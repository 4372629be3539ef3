//! Tests of what no clause of `gv_typing` says: terms with places that no text gives. Terms of texts are data of a program
//! of cases.
#![tactic(auto)]

#[cfg(test)]
mod places;
