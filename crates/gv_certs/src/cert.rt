//! Certificates as they were read.

use gv_base::List;
use gv_terms::RawTerm;

/// How a script shows a formula. This project's own.
#[cycle(certs)]
#[derive(Debug, Drop)]
pub enum Cert {
    /// The formula is known.
    Known,
    /// It has no variable, is over words and truth values alone, and its value is true.
    Compute,
    /// It is what an axiom gives.
    Axiom {
        number: u32,
        parts: List<RawTerm>,
    },
    /// It is the formula `within`, once `from` has become `to` in both, by their equation.
    SubstIn {
        from: RawTerm,
        to: RawTerm,
        within: RawTerm,
    },
    /// It becomes `t == t` once `from` has become `to`, by their equation.
    Subst {
        from: RawTerm,
        to: RawTerm,
    },
    /// The formula here and its negation are both known.
    Contra(RawTerm),
    /// Rows with factors contradict its negation, where `sums` are read as sums and differences of whole numbers.
    Linear {
        sums: List<RawTerm>,
        rows: List<Factored>,
    },
    /// It is shown where the formula here holds, and where it doesn't.
    Cases {
        formula: RawTerm,
        holds: Box<Cert>,
        fails: Box<Cert>,
    },
    /// Formulas one after another, each shown by its certificate and added to what is known; then it.
    Steps {
        steps: List<Have>,
        last: Box<Cert>,
    },
}

/// A formula with the certificate that shows it. This project's own.
#[cycle(certs)]
#[derive(Debug, Drop)]
pub struct Have {
    pub formula: RawTerm,
    pub cert: Cert,
}

/// A formula that is a row of a sum, with its factor. This project's own.
#[derive(Debug, Drop)]
pub struct Factored {
    pub factor: i128,
    pub formula: RawTerm,
}
