//! Laws of scripts of the small form.

ghost use Rattle.gv_smallscript.specs.Laws.{HasOne};

/// A text has at most one small form. The function does nothing: its contract is the law.
#[tactic(auto, using(crate::proofs::Once::one_small))]
pub fn one_small_script()
    ensures { HasOne }
{}
