//! What the parts of an axiom have to be.

use gv_terms::Sort;

/// What a part of an axiom has to be. Places count from 0. This project's own.
#[derive(Clone, Copy, Debug)]
pub enum Kind {
    /// A term of this sort.
    Of(Sort),
    /// Any term.
    Anything,
    /// A list of any sort.
    List,
    /// A map of either sort.
    Map,
    /// Of the sort of what the list or map at this place holds.
    Held(u8),
    /// Of the sort of the part at this place.
    Like(u8),
    /// One of the four makers of lists.
    Maker,
    /// A maker over the zero of its sort, as a term.
    ZeroMaker,
    /// `mapww` or `mapwb`.
    EmptyMap,
}
