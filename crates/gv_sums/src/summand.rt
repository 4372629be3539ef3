//! What a term is the sum of.

use gv_terms::Term;

/// A term that is added, or taken away where `negative`.
#[derive(Clone, Copy, Debug, PartialEq, Eq)]
pub(crate) struct Summand {
    pub negative: bool,
    pub term: Term,
}

/// A summand by its number, where it is a literal, and else by the place of its unknown.
#[derive(Clone, Copy, Debug, PartialEq, Eq)]
pub(crate) struct Numbered {
    pub negative: bool,
    pub number: Option<u64>,
    pub place: usize,
}
