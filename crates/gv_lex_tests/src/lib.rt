//! Tests of what no clause of `gv_lex` says: one call of each public function. The tables of texts are those of
//! `token_cases`.
#![tactic(auto)]

#[cfg(test)]
mod tests;
