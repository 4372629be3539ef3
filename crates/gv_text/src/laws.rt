//! Laws of the definitions in this crate. Each function does nothing: its contract is the law.

ghost use Rattle.std.specs.Prelude.{◌≡◌, ℕ};
ghost use Rattle.gv_base.specs.Codes.{code_number};
ghost use Rattle.gv_base.specs.declared.answers.Code.{Code};
ghost use Rattle.gv_text.specs.Answers.{IsNotAfter};
ghost use Rattle.gv_text.specs.Cutting.{Lexis};
ghost use Rattle.gv_text.specs.Judging.{DecidesTexts};

/// Whatever the pieces of a kind of text are: a text is read as one list of tokens at most, or is refused at one place by
/// one code at most, and not both.
pub fn texts_are_decided<F>()
    ensures { (kind : Lexis F) → DecidesTexts kind }
{}

/// Two faults of which neither is told before the other are one. So of any faults one alone comes first.
#[tactic(auto, using(crate::proofs::FirstOnes::both_first))]
pub fn faults_are_ordered()
    ensures { (m n : ℕ) (c d : Code) → IsNotAfter code_number m c n d → IsNotAfter code_number n d m c → (m ≡ n) × (c ≡ d) }
{}
