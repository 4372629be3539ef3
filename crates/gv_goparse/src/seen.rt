//! Tokens of a text as the grammar of packages sees them.

ghost use Rattle.std.specs.Prelude.{◌≡◌, ◌≤◌, slice_range, IfOk};
ghost use Rattle.gv_goparse.specs.Seen as spec;

use gv_base::{Kind, Token};
use gv_gosyntax::Lexeme;
use gv_gosyntax::generated::gosyntax_table::{
    CLASS_AMP, CLASS_AMP_ASSIGN, CLASS_AMP_CARET, CLASS_AMP_CARET_ASSIGN, CLASS_AND_AND,
    CLASS_APPEND, CLASS_ASSIGN, CLASS_AT_LEAST, CLASS_AT_MOST, CLASS_BANG, CLASS_BAR,
    CLASS_BAR_ASSIGN, CLASS_BLOCK, CLASS_BOOL, CLASS_BREAK, CLASS_BYTE, CLASS_CARET,
    CLASS_CARET_ASSIGN, CLASS_COLON, CLASS_COMMA, CLASS_CONST, CLASS_CONTINUE, CLASS_DECREMENT,
    CLASS_DEFINE, CLASS_DELETE, CLASS_DISK, CLASS_DOT, CLASS_ELSE, CLASS_EQUAL, CLASS_FALSE,
    CLASS_FOR, CLASS_FUNC, CLASS_GO, CLASS_GREATER, CLASS_IDENT, CLASS_IF, CLASS_IMPORT,
    CLASS_INCREMENT, CLASS_L_BRACE, CLASS_L_BRACKET, CLASS_L_PAREN, CLASS_LEN, CLASS_LESS,
    CLASS_MAKE, CLASS_MAP, CLASS_MINUS, CLASS_MINUS_ASSIGN, CLASS_MUTEX, CLASS_NEW, CLASS_NIL,
    CLASS_NOT_EQUAL, CLASS_NUMBER, CLASS_OR_OR, CLASS_OUTSIDE, CLASS_PACKAGE, CLASS_PERCENT,
    CLASS_PERCENT_ASSIGN, CLASS_PLUS, CLASS_PLUS_ASSIGN, CLASS_R_BRACE, CLASS_R_BRACKET,
    CLASS_R_PAREN, CLASS_RETURN, CLASS_SEMI, CLASS_SHIFT_LEFT, CLASS_SHIFT_LEFT_ASSIGN,
    CLASS_SHIFT_RIGHT, CLASS_SHIFT_RIGHT_ASSIGN, CLASS_SLASH, CLASS_SLASH_ASSIGN, CLASS_STAR,
    CLASS_STAR_ASSIGN, CLASS_STRUCT, CLASS_SYNC, CLASS_TEXT, CLASS_TRUE, CLASS_TWODISK, CLASS_TYPE,
    CLASS_UINT64, CLASS_VAR,
};
use std::alloc::{AllocError, Global};

/// The class of a sign that isn't one of Go's: no rule of the grammar has it.
pub const CLASS_UNKNOWN: u8 = 255;

fn declaration_word(word: &[u8], other: u8) -> u8
    ensures { result ≡ spec.listed spec.declaration_words other word.now }
{
    match word {
        b"type" => CLASS_TYPE,
        b"const" => CLASS_CONST,
        b"func" => CLASS_FUNC,
        b"map" => CLASS_MAP,
        b"var" => CLASS_VAR,
        _ => other,
    }
}

fn statement_word(word: &[u8], other: u8) -> u8
    ensures { result ≡ spec.listed spec.statement_words other word.now }
{
    match word {
        b"if" => CLASS_IF,
        b"else" => CLASS_ELSE,
        b"for" => CLASS_FOR,
        b"break" => CLASS_BREAK,
        b"go" => CLASS_GO,
        _ => other,
    }
}

fn reserved_word(word: &[u8], other: u8) -> u8
    ensures { result ≡ spec.listed spec.reserved_words other word.now }
{
    match word {
        b"byte" => CLASS_BYTE,
        b"bool" => CLASS_BOOL,
        b"true" => CLASS_TRUE,
        b"false" => CLASS_FALSE,
        b"nil" => CLASS_NIL,
        b"make" => CLASS_MAKE,
        b"new" => CLASS_NEW,
        b"len" => CLASS_LEN,
        _ => other,
    }
}

fn quoted_word(word: &[u8], other: u8) -> u8
    ensures { result ≡ spec.listed spec.quoted_words other word.now }
{
    match word {
        b"sync" => CLASS_SYNC,
        b"Mutex" => CLASS_MUTEX,
        b"disk" => CLASS_DISK,
        b"Block" => CLASS_BLOCK,
        _ => other,
    }
}

fn outside_word(word: &[u8], other: u8) -> u8
    ensures { result ≡ spec.listed spec.outside_words other word.now }
{
    match word {
        b"case" => CLASS_OUTSIDE,
        b"chan" => CLASS_OUTSIDE,
        b"defer" => CLASS_OUTSIDE,
        b"goto" => CLASS_OUTSIDE,
        b"range" => CLASS_OUTSIDE,
        _ => other,
    }
}

fn long_word(word: &[u8], other: u8) -> u8
    ensures { result ≡ spec.listed spec.long_words other word.now }
{
    if word == b"package".as_slice() {
        CLASS_PACKAGE
    } else if word == b"import".as_slice() {
        CLASS_IMPORT
    } else if word == b"struct".as_slice() {
        CLASS_STRUCT
    } else if word == b"continue".as_slice() {
        CLASS_CONTINUE
    } else if word == b"return".as_slice() {
        CLASS_RETURN
    } else if word == b"uint64".as_slice() {
        CLASS_UINT64
    } else if word == b"delete".as_slice() {
        CLASS_DELETE
    } else if word == b"append".as_slice() {
        CLASS_APPEND
    } else {
        other
    }
}

fn longer_word(word: &[u8], other: u8) -> u8
    ensures { result ≡ spec.listed spec.longer_words other word.now }
{
    if word == b"twodisk".as_slice() {
        CLASS_TWODISK
    } else if word == b"default".as_slice() {
        CLASS_OUTSIDE
    } else if word == b"fallthrough".as_slice() {
        CLASS_OUTSIDE
    } else if word == b"interface".as_slice() {
        CLASS_OUTSIDE
    } else if word == b"select".as_slice() {
        CLASS_OUTSIDE
    } else if word == b"switch".as_slice() {
        CLASS_OUTSIDE
    } else {
        other
    }
}

fn mark(word: &[u8], other: u8) -> u8
    ensures { result ≡ spec.listed spec.marks other word.now }
{
    match word {
        b"(" => CLASS_L_PAREN,
        b")" => CLASS_R_PAREN,
        b"[" => CLASS_L_BRACKET,
        b"]" => CLASS_R_BRACKET,
        b"{" => CLASS_L_BRACE,
        b"}" => CLASS_R_BRACE,
        b"," => CLASS_COMMA,
        b"." => CLASS_DOT,
        b":" => CLASS_COLON,
        b"=" => CLASS_ASSIGN,
        _ => other,
    }
}

fn operator_of_one(word: &[u8], other: u8) -> u8
    ensures { result ≡ spec.listed spec.operators_of_one other word.now }
{
    match word {
        b"!" => CLASS_BANG,
        b"<" => CLASS_LESS,
        b">" => CLASS_GREATER,
        b"+" => CLASS_PLUS,
        b"-" => CLASS_MINUS,
        b"*" => CLASS_STAR,
        b"/" => CLASS_SLASH,
        b"%" => CLASS_PERCENT,
        b"&" => CLASS_AMP,
        b"|" => CLASS_BAR,
        b"^" => CLASS_CARET,
        _ => other,
    }
}

fn operator_of_two(word: &[u8], other: u8) -> u8
    ensures { result ≡ spec.listed spec.operators_of_two other word.now }
{
    match word {
        b":=" => CLASS_DEFINE,
        b"==" => CLASS_EQUAL,
        b"!=" => CLASS_NOT_EQUAL,
        b"<=" => CLASS_AT_MOST,
        b">=" => CLASS_AT_LEAST,
        b"&&" => CLASS_AND_AND,
        b"||" => CLASS_OR_OR,
        b"++" => CLASS_INCREMENT,
        b"--" => CLASS_DECREMENT,
        b"<<" => CLASS_SHIFT_LEFT,
        b">>" => CLASS_SHIFT_RIGHT,
        b"&^" => CLASS_AMP_CARET,
        _ => other,
    }
}

fn updating_sign(word: &[u8], other: u8) -> u8
    ensures { result ≡ spec.listed spec.updating_signs other word.now }
{
    match word {
        b"+=" => CLASS_PLUS_ASSIGN,
        b"-=" => CLASS_MINUS_ASSIGN,
        b"*=" => CLASS_STAR_ASSIGN,
        b"/=" => CLASS_SLASH_ASSIGN,
        b"%=" => CLASS_PERCENT_ASSIGN,
        b"&=" => CLASS_AMP_ASSIGN,
        b"|=" => CLASS_BAR_ASSIGN,
        b"^=" => CLASS_CARET_ASSIGN,
        b"<<=" => CLASS_SHIFT_LEFT_ASSIGN,
        b">>=" => CLASS_SHIFT_RIGHT_ASSIGN,
        b"&^=" => CLASS_AMP_CARET_ASSIGN,
        _ => other,
    }
}

fn outside_sign(word: &[u8], other: u8) -> u8
    ensures { result ≡ spec.listed spec.outside_signs other word.now }
{
    match word {
        b"<-" => CLASS_OUTSIDE,
        b"..." => CLASS_OUTSIDE,
        _ => other,
    }
}

fn word_class(word: &[u8]) -> u8
    ensures { result ≡ spec.word_class word.now }
{
    let class = longer_word(word, CLASS_IDENT);
    let class = long_word(word, class);
    let class = outside_word(word, class);
    let class = quoted_word(word, class);
    let class = reserved_word(word, class);
    let class = statement_word(word, class);
    declaration_word(word, class)
}

fn sign_class(sign: &[u8]) -> u8
    ensures { result ≡ spec.sign_class sign.now }
{
    let class = outside_sign(sign, CLASS_UNKNOWN);
    let class = updating_sign(sign, class);
    let class = operator_of_two(sign, class);
    let class = operator_of_one(sign, class);
    mark(sign, class)
}

#[tactic(auto, unfolding(crate::specs::Seen::class_of))]
fn class_of(kind: Kind, bytes: &[u8]) -> u8
    ensures { result ≡ spec.class_of kind bytes.now }
{
    match kind {
        Kind::Word => word_class(bytes),
        Kind::Number => CLASS_NUMBER,
        Kind::Text => CLASS_TEXT,
        Kind::Sign => sign_class(bytes),
        Kind::Semi => CLASS_SEMI,
    }
}

/// The bytes of a text from `start` on that come before `end`.
fn bytes_from(text: &[u8], start: u32, end: u32) -> &[u8]
    ensures { result.now ≡ slice_range text.now start end }
{
    let from = start as usize;
    let to = (end as usize).min(text.len());
    if from < to { &text[from..to] } else { &[] }
}

fn seen_as(text: &[u8], token: Token) -> Lexeme
    ensures { result ≡ spec.seen_as text.now token }
{
    let bytes = bytes_from(text, token.start, token.end);
    Lexeme {
        class: class_of(token.kind, bytes),
        start: token.start,
        end: token.end,
    }
}

/// The tokens of a text as the grammar sees them.
pub fn seen(alloc: Global, text: &[u8], tokens: &[Token]) -> Result<Vec<Lexeme>, AllocError>
    ensures { IfOk result (λ seen. seen.items ≡ spec.seen text.now tokens.now) }
{
    tokens
        .iter()
        .map(|token| seen_as(text, *token))
        .collect(alloc)
}
