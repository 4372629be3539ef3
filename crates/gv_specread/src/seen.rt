//! Tokens of a text as the grammar of specifications sees them.

ghost use Rattle.std.specs.Prelude.{◌≡◌, IfOk};
ghost use Rattle.gv_termread.specs.Seen.{listed};
ghost use Rattle.gv_specread.specs.Seen as spec;

use crate::generated::spec_table::{
    CLASS_ARROW, CLASS_ASSIGN, CLASS_BELOW_WORD, CLASS_BLOCKS_SORT, CLASS_BOOL_SORT,
    CLASS_BYTES_SORT, CLASS_CALL_SORT, CLASS_COLON, CLASS_CRASH_WORD, CLASS_DEFINE,
    CLASS_DISKS_WORD, CLASS_FIELD_WORD, CLASS_L_BRACE, CLASS_LEASED_WORD, CLASS_MAP_WB_SORT,
    CLASS_MAP_WW_SORT, CLASS_NAME_SORT, CLASS_ONE_NUMBER, CLASS_OP_WORD, CLASS_PICK_WORD,
    CLASS_R_BRACE, CLASS_REF_SORT, CLASS_REFS_SORT, CLASS_REPLY_WORD, CLASS_SEMI,
    CLASS_SLICE_S_SORT, CLASS_SPEC_WORD, CLASS_TWO_NUMBER, CLASS_WHERE_WORD, CLASS_WORD_SORT,
    CLASS_WORDS_SORT, CLASS_ZERO_NUMBER,
};
use gv_base::{Kind, Token};
use gv_termread::{SeenToken, bytes_from, seen_as as seen_in_terms};
use std::alloc::{AllocError, Global};

fn spec_word(word: &[u8], other: u8) -> u8
    ensures { result ≡ listed spec.spec_words other word.now }
{
    match word {
        b"spec" => CLASS_SPEC_WORD,
        b"disks" => CLASS_DISKS_WORD,
        b"field" => CLASS_FIELD_WORD,
        b"op" => CLASS_OP_WORD,
        b"crash" => CLASS_CRASH_WORD,
        b"where" => CLASS_WHERE_WORD,
        b"reply" => CLASS_REPLY_WORD,
        b"pick" => CLASS_PICK_WORD,
        b"below" => CLASS_BELOW_WORD,
        _ => other,
    }
}

fn sort_word(word: &[u8], other: u8) -> u8
    ensures { result ≡ listed spec.sort_words other word.now }
{
    match word {
        b"Word" => CLASS_WORD_SORT,
        b"Bool" => CLASS_BOOL_SORT,
        b"Bytes" => CLASS_BYTES_SORT,
        b"Words" => CLASS_WORDS_SORT,
        b"Refs" => CLASS_REFS_SORT,
        b"MapWW" => CLASS_MAP_WW_SORT,
        b"MapWB" => CLASS_MAP_WB_SORT,
        b"Ref" => CLASS_REF_SORT,
        b"Call" => CLASS_CALL_SORT,
        b"Name" => CLASS_NAME_SORT,
        _ => other,
    }
}

// The words of six letters.
fn long_word(word: &[u8], other: u8) -> u8
    ensures { result ≡ listed spec.long_words other word.now }
{
    if word == b"leased".as_slice() {
        CLASS_LEASED_WORD
    } else if word == b"Blocks".as_slice() {
        CLASS_BLOCKS_SORT
    } else if word == b"SliceS".as_slice() {
        CLASS_SLICE_S_SORT
    } else {
        other
    }
}

fn disk_count(number: &[u8], other: u8) -> u8
    ensures { result ≡ listed spec.disk_counts other number.now }
{
    match number {
        b"0" => CLASS_ZERO_NUMBER,
        b"1" => CLASS_ONE_NUMBER,
        b"2" => CLASS_TWO_NUMBER,
        _ => other,
    }
}

fn sign(bytes: &[u8], other: u8) -> u8
    ensures { result ≡ listed spec.signs other bytes.now }
{
    match bytes {
        b"{" => CLASS_L_BRACE,
        b"}" => CLASS_R_BRACE,
        b":" => CLASS_COLON,
        b"=" => CLASS_ASSIGN,
        b":=" => CLASS_DEFINE,
        b"->" => CLASS_ARROW,
        _ => other,
    }
}

// The class of a token, where this is its class in a term.
#[tactic(auto, unfolding(crate::specs::Seen::class_of))]
fn class_of(kind: Kind, class: u8, bytes: &[u8]) -> u8
    ensures { result ≡ spec.class_of kind class bytes.now }
{
    match kind {
        Kind::Word => {
            let class = long_word(bytes, class);
            let class = sort_word(bytes, class);
            spec_word(bytes, class)
        }
        Kind::Number => disk_count(bytes, class),
        Kind::Text => class,
        Kind::Sign => sign(bytes, class),
        Kind::Semi => CLASS_SEMI,
    }
}

fn seen_as(text: &[u8], token: Token) -> SeenToken
    ensures { result ≡ spec.seen_as text.now token }
{
    let seen = seen_in_terms(text, token);
    let bytes = bytes_from(text, token.start, token.end);
    SeenToken {
        class: class_of(token.kind, seen.class, bytes),
        start: token.start,
        end: token.end,
        value: seen.value,
    }
}

/// The tokens of a text as the grammar sees them.
pub fn seen(alloc: Global, text: &[u8], tokens: &[Token]) -> Result<Vec<SeenToken>, AllocError>
    ensures { IfOk result (λ seen. seen.items ≡ spec.seen text.now tokens.now) }
{
    tokens
        .iter()
        .map(|token| seen_as(text, *token))
        .collect(alloc)
}
