//! Terms as they were read, with their places.

use gv_base::List;
use gv_terms::RawTerm;

/// Where the nodes of a term begin, as bytes of the text: a node's first token, and the same of its parts in order.
/// Parentheses round the node itself are passed over, those round its first part are not: the node of `(a) + b` begins at
/// the parenthesis, and so does that of `((a) + b)`, at the inner one.
///
/// What `a > b`, `a >= b` and `a != b` are read as, `b < a`, `b <= a` and `!(a == b)`, begins where they begin.
#[derive(Debug, PartialEq, Eq, Drop)]
pub enum Places {
    At(u32, List<Places>),
}

/// A whole term with the places of its nodes, and the byte at which its first token begins, which may be a parenthesis.
#[derive(Debug, PartialEq, Eq, Drop)]
pub struct PlacedTerm {
    pub start: u32,
    pub term: RawTerm,
    pub places: Places,
}
