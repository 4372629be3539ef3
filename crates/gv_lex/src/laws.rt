//! Laws of the definitions in this crate. Each function does nothing: its contract is the law.

ghost use Rattle.gv_text.specs.Judging.{DecidesTexts};
ghost use Rattle.gv_lex.specs.Reading.{own};

/// A text of this project is read as one list of tokens at most, or is refused at one place by one code at most, and not
/// both.
#[tactic(auto, using(gv_text::proofs::FirstFaults::decided))]
pub fn own_texts_are_decided()
    ensures { DecidesTexts own }
{}
