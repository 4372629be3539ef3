//! What a store keeps of a term.

use crate::sort::Sort;
use crate::term::Term;
use crate::tree::Head;
use gv_base::List;

/// A term's head, its parts, which were made before it, and its sort.
#[derive(Debug, Drop)]
pub struct Stored {
    pub head: Head,
    pub parts: List<Term>,
    pub sort: Sort,
}
