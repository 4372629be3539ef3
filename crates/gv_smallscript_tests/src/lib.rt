//! Happy calls of `gv_smallscript`.
#![tactic(auto)]

#[cfg(test)]
mod tests;
