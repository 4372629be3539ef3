//! Tests of what no clause of `gv_text` says: one call of each public function.
#![tactic(auto)]

#[cfg(test)]
mod tests;
