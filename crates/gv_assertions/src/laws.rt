//! Laws of the definitions in this crate. Each function does nothing: its contract is the law.

ghost use Rattle.gv_assertions.specs.Laws.{ListsLaw, PartsLaw, RangesLaw};

/// Assertions stand in any order, and lists of them are put together and parted.
pub fn list_laws()
    ensures { ListsLaw }
{}

/// What is durable, persistent or free of tokens, through every case of every predicate, is stood for by the
/// durable, persistent or token-free part of a piece.
pub fn kept_parts()
    ensures { PartsLaw }
{}

/// Numbers come out of ranges and go back; ranges are split and joined.
pub fn range_laws()
    ensures { RangesLaw }
{}
