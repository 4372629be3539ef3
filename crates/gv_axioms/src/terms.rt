//! What an instance of an axiom is made of.

use gv_base::List;
use gv_terms::Term;

/// An instance of an axiom: the formulas that it asks for, in order, and the formula that they give. This project's own.
#[derive(Debug, PartialEq, Eq, Drop)]
pub struct Instance {
    pub premises: List<Term>,
    pub conclusion: Term,
}
