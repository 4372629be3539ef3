//! What the tokens of a term stand for: operators, and terms with the places of their nodes.

ghost use Rattle.std.specs.Prelude.{◌≡◌, ◌∷◌, [], IfOk};
ghost use Rattle.gv_termread.specs.Trees as spec;

use crate::generated::term_table::{
    CLASS_AMP, CLASS_AND_AND, CLASS_AT_LEAST, CLASS_AT_MOST, CLASS_AT_WORD, CLASS_BANG, CLASS_BAR,
    CLASS_BYTES_WORD, CLASS_CARET, CLASS_CAT_WORD, CLASS_DEL_WORD, CLASS_EQUAL, CLASS_FALSE_WORD,
    CLASS_FITS_WORD, CLASS_GET_WORD, CLASS_GREATER, CLASS_HAS_WORD, CLASS_IF_WORD, CLASS_IMP_WORD,
    CLASS_IS_ZERO_WORD, CLASS_LE64_WORD, CLASS_LEN_WORD, CLASS_LESS, CLASS_MAP_WW_WORD,
    CLASS_MINUS, CLASS_NIL_SLICE_WORD, CLASS_NIL_WORD, CLASS_NO_CALL_WORD, CLASS_NOT_EQUAL,
    CLASS_OR_OR, CLASS_PERCENT, CLASS_PLUS, CLASS_PUT_WORD, CLASS_PUT64_WORD, CLASS_REFS_WORD,
    CLASS_S_CAP_WORD, CLASS_S_LEN_WORD, CLASS_SHIFT_LEFT, CLASS_SHIFT_RIGHT, CLASS_SLASH,
    CLASS_STAR, CLASS_SUB_WORD, CLASS_TRUE_WORD, CLASS_UN64_WORD, CLASS_UPD_WORD, CLASS_WORDS_WORD,
};
use crate::placed::{PlacedTerm, Places};
use crate::seen::bytes_from;
use crate::token::SeenToken;
use gv_base::{List, Name, NoMemory};
use gv_terms::{Operator, RawTerm};
use std::alloc::{AllocError, Global};

fn constant_by(class: u8) -> Operator
    ensures { result ≡ spec.constant_by class }
{
    match class {
        CLASS_TRUE_WORD => Operator::True,
        CLASS_FALSE_WORD => Operator::False,
        CLASS_NIL_WORD => Operator::Nil,
        CLASS_NIL_SLICE_WORD => Operator::NilSlice,
        CLASS_NO_CALL_WORD => Operator::NoCall,
        CLASS_MAP_WW_WORD => Operator::MapWW,
        _ => Operator::MapWB,
    }
}

fn maker_by(class: u8, count: u64) -> Operator
    ensures { result ≡ spec.maker_by class count }
{
    match class {
        CLASS_BYTES_WORD => Operator::Bytes(count),
        CLASS_WORDS_WORD => Operator::Words(count),
        CLASS_REFS_WORD => Operator::Refs(count),
        _ => Operator::Blocks(count),
    }
}

fn function_by(class: u8) -> Operator
    ensures { result ≡ spec.function_by class }
{
    match class {
        CLASS_LEN_WORD => Operator::Len,
        CLASS_IS_ZERO_WORD => Operator::IsZero,
        CLASS_LE64_WORD => Operator::Le64,
        CLASS_UN64_WORD => Operator::Un64,
        CLASS_S_LEN_WORD => Operator::SLen,
        CLASS_IMP_WORD => Operator::Imp,
        CLASS_FITS_WORD => Operator::Fits,
        CLASS_AT_WORD => Operator::At,
        CLASS_CAT_WORD => Operator::Cat,
        CLASS_PUT64_WORD => Operator::Put64,
        CLASS_GET_WORD => Operator::Get,
        CLASS_HAS_WORD => Operator::Has,
        CLASS_DEL_WORD => Operator::Del,
        CLASS_IF_WORD => Operator::If,
        CLASS_UPD_WORD => Operator::Upd,
        CLASS_SUB_WORD => Operator::Sub,
        CLASS_PUT_WORD => Operator::Put,
        CLASS_S_CAP_WORD => Operator::SCap,
        _ => Operator::Sl,
    }
}

fn sign_by(class: u8) -> Operator
    ensures { result ≡ spec.sign_by class }
{
    match class {
        CLASS_OR_OR => Operator::Or,
        CLASS_AND_AND => Operator::And,
        CLASS_EQUAL => Operator::Equal,
        CLASS_LESS => Operator::Less,
        CLASS_AT_MOST => Operator::AtMost,
        CLASS_PLUS => Operator::Plus,
        CLASS_MINUS => Operator::Minus,
        CLASS_BAR => Operator::BitOr,
        CLASS_CARET => Operator::BitXor,
        CLASS_STAR => Operator::Times,
        CLASS_SLASH => Operator::Divide,
        CLASS_PERCENT => Operator::Remainder,
        CLASS_SHIFT_LEFT => Operator::ShiftLeft,
        CLASS_SHIFT_RIGHT => Operator::ShiftRight,
        CLASS_AMP => Operator::BitAnd,
        _ => Operator::BitClear,
    }
}

// An operator without parts.
fn alone(alloc: Global, start: u32, operator: Operator) -> PlacedTerm
    ensures { result ≡ spec.applied start operator [] }
{
    PlacedTerm {
        start,
        term: RawTerm::Apply(operator, List::new(alloc)),
        places: Places::At(start, List::new(alloc)),
    }
}

// An operator over one term.
fn over_one(
    alloc: Global,
    start: u32,
    operator: Operator,
    part: PlacedTerm,
) -> Result<PlacedTerm, AllocError>
    ensures { IfOk result (λ term. term ≡ spec.applied start operator (part ∷ [])) }
{
    let terms = Vec::from_array(alloc, [part.term])?;
    let places = Vec::from_array(alloc, [part.places])?;
    Ok(PlacedTerm {
        start,
        term: RawTerm::Apply(operator, List::from_vec(terms)),
        places: Places::At(start, List::from_vec(places)),
    })
}

// An operator over two terms.
fn over_two(
    alloc: Global,
    start: u32,
    operator: Operator,
    first: PlacedTerm,
    second: PlacedTerm,
) -> Result<PlacedTerm, AllocError>
    ensures { IfOk result (λ term. term ≡ spec.applied start operator (first ∷ second ∷ [])) }
{
    let terms = Vec::from_array(alloc, [first.term, second.term])?;
    let places = Vec::from_array(alloc, [first.places, second.places])?;
    Ok(PlacedTerm {
        start,
        term: RawTerm::Apply(operator, List::from_vec(terms)),
        places: Places::At(start, List::from_vec(places)),
    })
}

// An operator over three terms.
fn over_three(
    alloc: Global,
    start: u32,
    operator: Operator,
    first: PlacedTerm,
    second: PlacedTerm,
    third: PlacedTerm,
) -> Result<PlacedTerm, AllocError>
    ensures { IfOk result (λ term. term ≡ spec.applied start operator (first ∷ second ∷ third ∷ [])) }
{
    let terms = Vec::from_array(alloc, [first.term, second.term, third.term])?;
    let places = Vec::from_array(alloc, [first.places, second.places, third.places])?;
    Ok(PlacedTerm {
        start,
        term: RawTerm::Apply(operator, List::from_vec(terms)),
        places: Places::At(start, List::from_vec(places)),
    })
}

pub fn number(alloc: Global, token: SeenToken) -> PlacedTerm
    ensures { result ≡ spec.number token }
{
    alone(alloc, token.start, Operator::Number(token.value))
}

pub fn constant(alloc: Global, token: SeenToken) -> PlacedTerm
    ensures { result ≡ spec.constant token }
{
    alone(alloc, token.start, constant_by(token.class))
}

/// A variable, which bears the bytes of its token.
pub fn variable(alloc: Global, text: &[u8], token: SeenToken) -> Result<PlacedTerm, AllocError>
    ensures { IfOk result (λ term. term ≡ spec.variable text.now token) }
{
    match Name::from_slice(alloc, bytes_from(text, token.start, token.end)) {
        Ok(name) => Ok(PlacedTerm {
            start: token.start,
            term: RawTerm::Variable(name),
            places: Places::At(token.start, List::new(alloc)),
        }),
        Err(NoMemory) => Err(AllocError),
    }
}

/// The same term, which now begins at a parenthesis.
pub fn in_parens(brace: SeenToken, inner: PlacedTerm) -> PlacedTerm
    ensures { result ≡ spec.in_parens brace inner }
{
    PlacedTerm {
        start: brace.start,
        term: inner.term,
        places: inner.places,
    }
}

pub fn maker(
    alloc: Global,
    name: SeenToken,
    count: SeenToken,
    item: PlacedTerm,
) -> Result<PlacedTerm, AllocError>
    ensures { IfOk result (λ term. term ≡ spec.maker name count item) }
{
    over_one(alloc, name.start, maker_by(name.class, count.value), item)
}

pub fn of_one(alloc: Global, name: SeenToken, part: PlacedTerm) -> Result<PlacedTerm, AllocError>
    ensures { IfOk result (λ term. term ≡ spec.apply name (part ∷ [])) }
{
    over_one(alloc, name.start, function_by(name.class), part)
}

pub fn of_two(
    alloc: Global,
    name: SeenToken,
    first: PlacedTerm,
    second: PlacedTerm,
) -> Result<PlacedTerm, AllocError>
    ensures { IfOk result (λ term. term ≡ spec.apply name (first ∷ second ∷ [])) }
{
    over_two(alloc, name.start, function_by(name.class), first, second)
}

pub fn of_three(
    alloc: Global,
    name: SeenToken,
    first: PlacedTerm,
    second: PlacedTerm,
    third: PlacedTerm,
) -> Result<PlacedTerm, AllocError>
    ensures { IfOk result (λ term. term ≡ spec.apply name (first ∷ second ∷ third ∷ [])) }
{
    over_three(
        alloc,
        name.start,
        function_by(name.class),
        first,
        second,
        third,
    )
}

/// `!` or `^` before a term.
pub fn unary(alloc: Global, sign: SeenToken, inner: PlacedTerm) -> Result<PlacedTerm, AllocError>
    ensures { IfOk result (λ term. term ≡ spec.unary sign inner) }
{
    let operator = if sign.class == CLASS_BANG {
        Operator::Not
    } else {
        Operator::Complement
    };
    over_one(alloc, sign.start, operator, inner)
}

/// A sign between two terms.
pub fn binary(
    alloc: Global,
    sign: SeenToken,
    left: PlacedTerm,
    right: PlacedTerm,
) -> Result<PlacedTerm, AllocError>
    ensures { IfOk result (λ term. term ≡ spec.binary sign left right) }
{
    let start = left.start;
    match sign.class {
        CLASS_GREATER => over_two(alloc, start, Operator::Less, right, left),
        CLASS_AT_LEAST => over_two(alloc, start, Operator::AtMost, right, left),
        CLASS_NOT_EQUAL => {
            let equal = over_two(alloc, start, Operator::Equal, left, right)?;
            over_one(alloc, start, Operator::Not, equal)
        }
        _ => over_two(alloc, start, sign_by(sign.class), left, right),
    }
}
