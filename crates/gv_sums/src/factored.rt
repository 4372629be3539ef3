//! Formulas with their factors.

use gv_terms::Term;

/// A formula that is a row of a linear certificate, with its factor. This project's own.
#[derive(Clone, Copy, Debug, PartialEq, Eq)]
pub struct FactoredTerm {
    pub factor: i128,
    pub formula: Term,
}
