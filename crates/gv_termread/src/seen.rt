//! Tokens of a text as the grammar of terms sees them.

ghost use Rattle.std.specs.Prelude.{◌≡◌, ◌≤◌, IfOk};
ghost use Rattle.gv_termread.specs.Seen as spec;

use crate::generated::term_table::{
    CLASS_AMP, CLASS_AMP_CARET, CLASS_AND_AND, CLASS_AT_LEAST, CLASS_AT_MOST, CLASS_AT_WORD,
    CLASS_BANG, CLASS_BAR, CLASS_BLOCKS_WORD, CLASS_BYTES_WORD, CLASS_CARET, CLASS_CAT_WORD,
    CLASS_COMMA, CLASS_DEL_WORD, CLASS_EQUAL, CLASS_FALSE_WORD, CLASS_FITS_WORD, CLASS_GET_WORD,
    CLASS_GREATER, CLASS_HAS_WORD, CLASS_IDENT, CLASS_IF_WORD, CLASS_IMP_WORD, CLASS_IS_ZERO_WORD,
    CLASS_L_PAREN, CLASS_LARGE_NUMBER, CLASS_LE64_WORD, CLASS_LEN_WORD, CLASS_LESS,
    CLASS_MAP_WB_WORD, CLASS_MAP_WW_WORD, CLASS_MINUS, CLASS_NIL_SLICE_WORD, CLASS_NIL_WORD,
    CLASS_NO_CALL_WORD, CLASS_NOT_EQUAL, CLASS_NUMBER, CLASS_OR_OR, CLASS_OTHER_TOKEN,
    CLASS_PERCENT, CLASS_PLUS, CLASS_PUT_WORD, CLASS_PUT64_WORD, CLASS_R_PAREN, CLASS_REFS_WORD,
    CLASS_S_CAP_WORD, CLASS_S_LEN_WORD, CLASS_SHIFT_LEFT, CLASS_SHIFT_RIGHT, CLASS_SL_WORD,
    CLASS_SLASH, CLASS_STAR, CLASS_SUB_WORD, CLASS_TRUE_WORD, CLASS_UN64_WORD, CLASS_UPD_WORD,
    CLASS_WORDS_WORD,
};
use crate::numbers::number_of;
use crate::token::SeenToken;
use gv_base::{Kind, Token};
use std::alloc::{AllocError, Global};

fn list_word(word: &[u8], other: u8) -> u8
    ensures { result ≡ spec.listed spec.list_words other word.now }
{
    match word {
        b"bytes" => CLASS_BYTES_WORD,
        b"words" => CLASS_WORDS_WORD,
        b"refs" => CLASS_REFS_WORD,
        b"len" => CLASS_LEN_WORD,
        b"at" => CLASS_AT_WORD,
        b"upd" => CLASS_UPD_WORD,
        b"sub" => CLASS_SUB_WORD,
        b"cat" => CLASS_CAT_WORD,
        _ => other,
    }
}

fn other_function(word: &[u8], other: u8) -> u8
    ensures { result ≡ spec.listed spec.other_functions other word.now }
{
    match word {
        b"if" => CLASS_IF_WORD,
        b"imp" => CLASS_IMP_WORD,
        b"fits" => CLASS_FITS_WORD,
        b"le64" => CLASS_LE64_WORD,
        b"un64" => CLASS_UN64_WORD,
        b"put64" => CLASS_PUT64_WORD,
        b"get" => CLASS_GET_WORD,
        b"has" => CLASS_HAS_WORD,
        b"put" => CLASS_PUT_WORD,
        b"del" => CLASS_DEL_WORD,
        _ => other,
    }
}

fn slice_word(word: &[u8], other: u8) -> u8
    ensures { result ≡ spec.listed spec.slice_words other word.now }
{
    match word {
        b"slen" => CLASS_S_LEN_WORD,
        b"scap" => CLASS_S_CAP_WORD,
        b"sl" => CLASS_SL_WORD,
        _ => other,
    }
}

fn constant_word(word: &[u8], other: u8) -> u8
    ensures { result ≡ spec.listed spec.constant_words other word.now }
{
    match word {
        b"true" => CLASS_TRUE_WORD,
        b"false" => CLASS_FALSE_WORD,
        b"nil" => CLASS_NIL_WORD,
        b"mapww" => CLASS_MAP_WW_WORD,
        b"mapwb" => CLASS_MAP_WB_WORD,
        _ => other,
    }
}

// The words of six letters or more.
fn long_word(word: &[u8]) -> u8
    ensures { result ≡ spec.listed spec.long_words CLASS_IDENT word.now }
{
    if word == b"blocks".as_slice() {
        CLASS_BLOCKS_WORD
    } else if word == b"iszero".as_slice() {
        CLASS_IS_ZERO_WORD
    } else if word == b"nilslice".as_slice() {
        CLASS_NIL_SLICE_WORD
    } else if word == b"nocall".as_slice() {
        CLASS_NO_CALL_WORD
    } else {
        CLASS_IDENT
    }
}

fn word_class(word: &[u8]) -> u8
    ensures { result ≡ spec.word_class word.now }
{
    let class = long_word(word);
    let class = constant_word(word, class);
    let class = slice_word(word, class);
    let class = other_function(word, class);
    list_word(word, class)
}

fn sign_of_one(sign: &[u8]) -> u8
    ensures { result ≡ spec.listed spec.signs_of_one CLASS_OTHER_TOKEN sign.now }
{
    match sign {
        b"(" => CLASS_L_PAREN,
        b")" => CLASS_R_PAREN,
        b"," => CLASS_COMMA,
        b"<" => CLASS_LESS,
        b">" => CLASS_GREATER,
        b"+" => CLASS_PLUS,
        b"-" => CLASS_MINUS,
        b"|" => CLASS_BAR,
        b"^" => CLASS_CARET,
        b"*" => CLASS_STAR,
        b"/" => CLASS_SLASH,
        b"%" => CLASS_PERCENT,
        b"&" => CLASS_AMP,
        b"!" => CLASS_BANG,
        _ => CLASS_OTHER_TOKEN,
    }
}

fn sign_of_two(sign: &[u8], other: u8) -> u8
    ensures { result ≡ spec.listed spec.signs_of_two other sign.now }
{
    match sign {
        b"||" => CLASS_OR_OR,
        b"&&" => CLASS_AND_AND,
        b"==" => CLASS_EQUAL,
        b"!=" => CLASS_NOT_EQUAL,
        b"<=" => CLASS_AT_MOST,
        b">=" => CLASS_AT_LEAST,
        b"<<" => CLASS_SHIFT_LEFT,
        b">>" => CLASS_SHIFT_RIGHT,
        b"&^" => CLASS_AMP_CARET,
        _ => other,
    }
}

fn sign_class(sign: &[u8]) -> u8
    ensures { result ≡ spec.sign_class sign.now }
{
    let class = sign_of_one(sign);
    sign_of_two(sign, class)
}

// The class and the value of a token.
#[tactic(auto, unfolding(crate::specs::Seen::class_of, crate::specs::Seen::value_for))]
fn class_of(kind: Kind, bytes: &[u8]) -> (u8, u64)
    ensures class { result.0 ≡ spec.class_of kind bytes.now }
    ensures value { result.1 ≡ spec.value_for kind bytes.now }
{
    match kind {
        Kind::Word => (word_class(bytes), 0),
        Kind::Number => match number_of(bytes) {
            Some(value) => (CLASS_NUMBER, value),
            None => (CLASS_LARGE_NUMBER, 0),
        },
        Kind::Text => (CLASS_OTHER_TOKEN, 0),
        Kind::Sign => (sign_class(bytes), 0),
        Kind::Semi => (CLASS_OTHER_TOKEN, 0),
    }
}

/// The bytes of a text from `start` on that come before `end`.
pub fn bytes_from(text: &[u8], start: u32, end: u32) -> &[u8]
    ensures { result.now ≡ spec.bytes_from text.now start end }
{
    let from = start as usize;
    let to = (end as usize).min(text.len());
    if from < to { &text[from..to] } else { &[] }
}

/// A token of a text as the grammar of terms sees it.
pub fn seen_as(text: &[u8], token: Token) -> SeenToken
    ensures { result ≡ spec.seen_as text.now token }
{
    let (class, value) = class_of(token.kind, bytes_from(text, token.start, token.end));
    SeenToken {
        class,
        start: token.start,
        end: token.end,
        value,
    }
}

/// Tokens of a text as the grammar of terms sees them.
pub fn seen(alloc: Global, text: &[u8], tokens: &[Token]) -> Result<Vec<SeenToken>, AllocError>
    ensures { IfOk result (λ seen. seen.items ≡ spec.seen text.now tokens.now) }
{
    tokens
        .iter()
        .map(|token| seen_as(text, *token))
        .collect(alloc)
}
