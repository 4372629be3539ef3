//! Laws of specifications of the small form.

ghost use Rattle.gv_smallspec.specs.Laws.{AlikeHaveSame, HasOne};

/// A specification has at most one small form, and specifications that differ in their stores alone have the
/// same. These laws are only proved, and the function does nothing.
#[tactic(auto, using(crate::proofs::SmallLaws::one_small, crate::proofs::SmallLaws::alike_same))]
pub fn small_forms()
    ensures one { HasOne }
    ensures alike { AlikeHaveSame }
{}
