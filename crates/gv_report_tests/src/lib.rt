//! Tests of what no clause of `gv_report` says: the line and the status of each report, in both formats, and a report that is cut off.
#![tactic(auto)]

#[cfg(test)]
mod json_tests;
#[cfg(test)]
mod tests;
