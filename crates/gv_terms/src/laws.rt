//! Laws of the definitions in this crate. Each function does nothing: its contract is the law.

ghost use Rattle.gv_terms.specs.Laws.{ValuesHaveSorts, ValuesInRange};

/// What is known of the value of a tree that has a sort: under every valuation it has this sort, and
/// under a valuation whose values are in range it is in range, where each number in the tree is a word.
#[tactic(auto, using(crate::proofs::ValueSorts::values_have_sorts, crate::proofs::ValueRanges::values_in_range))]
pub fn values_of_trees()
    ensures sorts { ValuesHaveSorts }
    ensures ranges { ValuesInRange }
{}
