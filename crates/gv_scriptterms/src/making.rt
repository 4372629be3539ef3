//! Terms from their parts.

ghost use Rattle.std.specs.Prelude.{◌≡◌, ◌≤◌, ◌<◌, ◌∷◌, [], List as Seq, true, reverse, IfOk};
ghost use Rattle.gv_grammar.specs.Building.{accepts, has_tops, made_by};
ghost use Rattle.gv_termread.specs.declared.generated.term_acts.Part.{Part as AnyPart};
ghost use Rattle.gv_termread.specs.declared.generated.term_acts.Part.TheVariants.{Term as PTerm};
ghost use Rattle.gv_termread.specs.declared.generated.term_acts.NoOther.{NoOther as Nothing};
ghost use Rattle.gv_termread.specs.declared.placed.PlacedTerm.{PlacedTerm as AnyTerm};
ghost use Rattle.gv_termread.specs.TermActs.{is_term, term_acts};
ghost use Rattle.gv_termread.specs.Trees as spec;

use gv_grammar::FIRST_ACT;
use gv_termread::generated::term_acts::{NoOther, Part, make, pop_term};
use gv_termread::generated::term_table::{
    ACT_BINARY, ACT_CONSTANT, ACT_MAKER, ACT_NUMBER, ACT_OF_ONE, ACT_OF_THREE, ACT_OF_TWO,
    ACT_PAREN, ACT_UNARY, ACT_VARIABLE, ACTS_END,
};
use gv_termread::{PlacedTerm, SeenToken};
use std::alloc::{AllocError, Global};

// The term that an act makes of these parts.
fn made(
    alloc: Global,
    text: &[u8],
    act: u8,
    mut parts: Vec<Part<NoOther>>,
) -> Result<PlacedTerm, AllocError>
    requires behind_marks { FIRST_ACT ≤ act }
    requires of_these { act < ACTS_END }
    requires accepted { accepts (term_acts text.now) act (reverse parts.items) ≡ true }
    requires term { has_tops (is_term ∷ []) (made_by (term_acts text.now) act (reverse parts.items)) ≡ true }
    ensures { IfOk result (λ t. (u : AnyTerm) (rest : Seq (AnyPart Nothing))
        → made_by (term_acts text.now) act (reverse parts.items) ≡ PTerm u ∷ rest → t ≡ u) }
{
    make(alloc, text, act, &mut parts)?;
    Ok(pop_term(&mut parts))
}

pub(crate) fn binary(
    alloc: Global,
    text: &[u8],
    left: PlacedTerm,
    sign: SeenToken,
    right: PlacedTerm,
) -> Result<PlacedTerm, AllocError>
    ensures { IfOk result (λ t. t ≡ spec.binary sign left right) }
{
    let parts = Vec::from_array(
        alloc,
        [Part::Term(left), Part::Token(sign), Part::Term(right)],
    )?;
    made(alloc, text, ACT_BINARY, parts)
}

pub(crate) fn unary(
    alloc: Global,
    text: &[u8],
    sign: SeenToken,
    inner: PlacedTerm,
) -> Result<PlacedTerm, AllocError>
    ensures { IfOk result (λ t. t ≡ spec.unary sign inner) }
{
    let parts = Vec::from_array(alloc, [Part::Token(sign), Part::Term(inner)])?;
    made(alloc, text, ACT_UNARY, parts)
}

pub(crate) fn number(alloc: Global, text: &[u8], token: SeenToken) -> Result<PlacedTerm, AllocError>
    ensures { IfOk result (λ t. t ≡ spec.number token) }
{
    let parts = Vec::from_array(alloc, [Part::Token(token)])?;
    made(alloc, text, ACT_NUMBER, parts)
}

pub(crate) fn constant(
    alloc: Global,
    text: &[u8],
    word: SeenToken,
) -> Result<PlacedTerm, AllocError>
    ensures { IfOk result (λ t. t ≡ spec.constant word) }
{
    let parts = Vec::from_array(alloc, [Part::Token(word)])?;
    made(alloc, text, ACT_CONSTANT, parts)
}

pub(crate) fn variable(
    alloc: Global,
    text: &[u8],
    name: SeenToken,
) -> Result<PlacedTerm, AllocError>
    ensures { IfOk result (λ t. t ≡ spec.variable text.now name) }
{
    let parts = Vec::from_array(alloc, [Part::Token(name)])?;
    made(alloc, text, ACT_VARIABLE, parts)
}

pub(crate) fn in_parens(
    alloc: Global,
    text: &[u8],
    brace: SeenToken,
    inner: PlacedTerm,
) -> Result<PlacedTerm, AllocError>
    ensures { IfOk result (λ t. t ≡ spec.in_parens brace inner) }
{
    let parts = Vec::from_array(
        alloc,
        [Part::Token(brace), Part::Term(inner), Part::Token(brace)],
    )?;
    made(alloc, text, ACT_PAREN, parts)
}

// What stands between the parts is passed over, so any token does.
pub(crate) fn maker(
    alloc: Global,
    text: &[u8],
    name: SeenToken,
    count: SeenToken,
    item: PlacedTerm,
) -> Result<PlacedTerm, AllocError>
    ensures { IfOk result (λ t. t ≡ spec.maker name count item) }
{
    let parts = Vec::from_array(
        alloc,
        [
            Part::Token(name),
            Part::Token(name),
            Part::Token(count),
            Part::Token(name),
            Part::Term(item),
            Part::Token(name),
        ],
    )?;
    made(alloc, text, ACT_MAKER, parts)
}

pub(crate) fn of_one(
    alloc: Global,
    text: &[u8],
    name: SeenToken,
    a: PlacedTerm,
) -> Result<PlacedTerm, AllocError>
    ensures { IfOk result (λ t. t ≡ spec.apply name (a ∷ [])) }
{
    let parts = Vec::from_array(
        alloc,
        [
            Part::Token(name),
            Part::Token(name),
            Part::Term(a),
            Part::Token(name),
        ],
    )?;
    made(alloc, text, ACT_OF_ONE, parts)
}

pub(crate) fn of_two(
    alloc: Global,
    text: &[u8],
    name: SeenToken,
    a: PlacedTerm,
    b: PlacedTerm,
) -> Result<PlacedTerm, AllocError>
    ensures { IfOk result (λ t. t ≡ spec.apply name (a ∷ b ∷ [])) }
{
    let parts = Vec::from_array(
        alloc,
        [
            Part::Token(name),
            Part::Token(name),
            Part::Term(a),
            Part::Token(name),
            Part::Term(b),
            Part::Token(name),
        ],
    )?;
    made(alloc, text, ACT_OF_TWO, parts)
}

pub(crate) fn of_three(
    alloc: Global,
    text: &[u8],
    name: SeenToken,
    a: PlacedTerm,
    b: PlacedTerm,
    c: PlacedTerm,
) -> Result<PlacedTerm, AllocError>
    ensures { IfOk result (λ t. t ≡ spec.apply name (a ∷ b ∷ c ∷ [])) }
{
    let parts = Vec::from_array(
        alloc,
        [
            Part::Token(name),
            Part::Token(name),
            Part::Term(a),
            Part::Token(name),
            Part::Term(b),
            Part::Token(name),
            Part::Term(c),
            Part::Token(name),
        ],
    )?;
    made(alloc, text, ACT_OF_THREE, parts)
}
