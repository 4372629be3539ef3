//! Tokens of a text as the grammar of scripts sees them.

ghost use Rattle.std.specs.Prelude.{◌≡◌, IfOk};
ghost use Rattle.gv_termread.specs.Seen.{listed};
ghost use Rattle.gv_scriptparse.specs.Seen as spec;

use gv_base::{Kind, Token};
use gv_scriptsyntax::generated::script_table::{
    CLASS_ABSURD_WORD, CLASS_ALONE_WORD, CLASS_AS_WORD, CLASS_ASSIGN, CLASS_AXIOM_WORD,
    CLASS_BOOK_ATOM_WORD, CLASS_BOOK_WORD, CLASS_BOOT_WORD, CLASS_BY_WORD, CLASS_CASE_WORD,
    CLASS_CASES_WORD, CLASS_CELL_ATOM_WORD, CLASS_CLASH_WORD, CLASS_COLON, CLASS_CONTRA_WORD,
    CLASS_CRASH_WORD, CLASS_CUT_WORD, CLASS_DONE_WORD, CLASS_DOT_DOT, CLASS_DURING_WORD,
    CLASS_EACH_WORD, CLASS_EXCEPT_WORD, CLASS_FIELD_ATOM_WORD, CLASS_FOLD_WORD, CLASS_FORGET_WORD,
    CLASS_GIVEN_WORD, CLASS_GUARD_WORD, CLASS_HALVES_WORD, CLASS_HAVE_WORD, CLASS_HOLE,
    CLASS_IN_WORD, CLASS_INIT_WORD, CLASS_L_BRACE, CLASS_L_BRACKET, CLASS_LET_WORD,
    CLASS_LIMIT_NUMBER, CLASS_LINEAR_WORD, CLASS_LOCALS_WORD, CLASS_LOCK_WORD, CLASS_MAP_WORD,
    CLASS_MERGE_WORD, CLASS_NEW_WORD, CLASS_ON_ATOM_WORD, CLASS_ON_PAIR_WORD, CLASS_ONE_ATOM_WORD,
    CLASS_OP_WORD, CLASS_OWN_WORD, CLASS_POST_WORD, CLASS_PRE_WORD, CLASS_PRED_WORD,
    CLASS_PROC_WORD, CLASS_R_BRACE, CLASS_R_BRACKET, CLASS_RECOVER_WORD, CLASS_REWRITE_WORD,
    CLASS_ROOT_WORD, CLASS_SEMI, CLASS_SET_WORD, CLASS_SHARE_WORD, CLASS_SHARED_WORD,
    CLASS_SIM_WORD, CLASS_SORT_WORD, CLASS_SPLIT_PART_WORD, CLASS_STEP_WORD, CLASS_STEPS_WORD,
    CLASS_SUBST_WORD, CLASS_TAKE_WORD, CLASS_THREE_ATOM_WORD, CLASS_TO_WORD, CLASS_TOKEN_WORD,
    CLASS_TWO_ATOM_WORD, CLASS_UNFOLD_WORD, CLASS_VARS_WORD, CLASS_VOID_WORD, CLASS_WITH_WORD,
    CLASS_YIELD_WORD,
};
use gv_termread::generated::term_table::CLASS_LARGE_NUMBER;
use gv_termread::{SeenToken, bytes_from, seen_as as seen_in_terms};
use gv_text::value_of;
use std::alloc::{AllocError, Global};

// The largest factor without a sign before it.
const LARGEST_FACTOR: u128 = (1 << 127) - 1;

fn declaration_words(word: &[u8], other: u8) -> u8
    ensures { result ≡ listed spec.declaration_words other word.now }
{
    match word {
        b"book" => CLASS_BOOK_WORD,
        b"pred" => CLASS_PRED_WORD,
        b"crash" => CLASS_CRASH_WORD,
        b"root" => CLASS_ROOT_WORD,
        b"init" => CLASS_INIT_WORD,
        b"op" => CLASS_OP_WORD,
        b"proc" => CLASS_PROC_WORD,
        b"case" => CLASS_CASE_WORD,
        _ => other,
    }
}

fn part_words(word: &[u8], other: u8) -> u8
    ensures { result ≡ listed spec.part_words other word.now }
{
    match word {
        b"own" => CLASS_OWN_WORD,
        b"pre" => CLASS_PRE_WORD,
        b"post" => CLASS_POST_WORD,
        b"cut" => CLASS_CUT_WORD,
        b"vars" => CLASS_VARS_WORD,
        _ => other,
    }
}

fn atom_words(word: &[u8], other: u8) -> u8
    ensures { result ≡ listed spec.atom_words other word.now }
{
    match word {
        b"held" => CLASS_ONE_ATOM_WORD,
        b"down" => CLASS_ONE_ATOM_WORD,
        b"spare" => CLASS_ONE_ATOM_WORD,
        b"slice" => CLASS_TWO_ATOM_WORD,
        b"half" => CLASS_TWO_ATOM_WORD,
        b"lease" => CLASS_THREE_ATOM_WORD,
        b"cell" => CLASS_CELL_ATOM_WORD,
        _ => other,
    }
}

fn other_atoms(word: &[u8], other: u8) -> u8
    ensures { result ≡ listed spec.other_atoms other word.now }
{
    match word {
        b"ro" => CLASS_CELL_ATOM_WORD,
        b"field" => CLASS_FIELD_ATOM_WORD,
        b"map" => CLASS_MAP_WORD,
        b"lock" => CLASS_LOCK_WORD,
        b"token" => CLASS_TOKEN_WORD,
        b"done" => CLASS_DONE_WORD,
        b"each" => CLASS_EACH_WORD,
        _ => other,
    }
}

fn command_words(word: &[u8], other: u8) -> u8
    ensures { result ≡ listed spec.command_words other word.now }
{
    match word {
        b"fold" => CLASS_FOLD_WORD,
        b"have" => CLASS_HAVE_WORD,
        b"by" => CLASS_BY_WORD,
        b"let" => CLASS_LET_WORD,
        b"to" => CLASS_TO_WORD,
        b"clash" => CLASS_CLASH_WORD,
        b"cases" => CLASS_CASES_WORD,
        b"new" => CLASS_NEW_WORD,
        b"as" => CLASS_AS_WORD,
        b"set" => CLASS_SET_WORD,
        _ => other,
    }
}

fn more_commands(word: &[u8], other: u8) -> u8
    ensures { result ≡ listed spec.more_commands other word.now }
{
    match word {
        b"take" => CLASS_TAKE_WORD,
        b"with" => CLASS_WITH_WORD,
        b"sim" => CLASS_SIM_WORD,
        b"share" => CLASS_SHARE_WORD,
        b"boot" => CLASS_BOOT_WORD,
        b"guard" => CLASS_GUARD_WORD,
        b"step" => CLASS_STEP_WORD,
        b"merge" => CLASS_MERGE_WORD,
        b"void" => CLASS_VOID_WORD,
        b"yield" => CLASS_YIELD_WORD,
        _ => other,
    }
}

fn other_commands(word: &[u8], other: u8) -> u8
    ensures { result ≡ listed spec.other_commands other word.now }
{
    match word {
        b"axiom" => CLASS_AXIOM_WORD,
        b"subst" => CLASS_SUBST_WORD,
        b"in" => CLASS_IN_WORD,
        b"steps" => CLASS_STEPS_WORD,
        b"copy" => CLASS_ON_ATOM_WORD,
        b"drop" => CLASS_ON_ATOM_WORD,
        b"lenof" => CLASS_ON_ATOM_WORD,
        b"none" => CLASS_ON_ATOM_WORD,
        b"one" => CLASS_ON_ATOM_WORD,
        b"agree" => CLASS_ON_PAIR_WORD,
        _ => other,
    }
}

fn last_commands(word: &[u8], other: u8) -> u8
    ensures { result ≡ listed spec.last_commands other word.now }
{
    match word {
        b"join" => CLASS_ON_PAIR_WORD,
        b"split" => CLASS_SPLIT_PART_WORD,
        b"part" => CLASS_SPLIT_PART_WORD,
        b"open" => CLASS_ALONE_WORD,
        b"close" => CLASS_ALONE_WORD,
        b"known" => CLASS_GIVEN_WORD,
        b"mutex" => CLASS_ONE_ATOM_WORD,
        _ => other,
    }
}

fn sort_words(word: &[u8], other: u8) -> u8
    ensures { result ≡ listed spec.sort_words other word.now }
{
    match word {
        b"Word" => CLASS_SORT_WORD,
        b"Bool" => CLASS_SORT_WORD,
        b"Bytes" => CLASS_SORT_WORD,
        b"Words" => CLASS_SORT_WORD,
        b"Refs" => CLASS_SORT_WORD,
        b"MapWW" => CLASS_SORT_WORD,
        b"MapWB" => CLASS_SORT_WORD,
        b"Ref" => CLASS_SORT_WORD,
        b"Call" => CLASS_SORT_WORD,
        b"Name" => CLASS_SORT_WORD,
        _ => other,
    }
}

fn long_words(word: &[u8], other: u8) -> u8
    ensures { result ≡ listed spec.long_words other word.now }
{
    if word == b"recover".as_slice() {
        CLASS_RECOVER_WORD
    } else if word == b"shared".as_slice() {
        CLASS_SHARED_WORD
    } else if word == b"locals".as_slice() {
        CLASS_LOCALS_WORD
    } else if word == b"unfold".as_slice() {
        CLASS_UNFOLD_WORD
    } else if word == b"rewrite".as_slice() {
        CLASS_REWRITE_WORD
    } else if word == b"absurd".as_slice() {
        CLASS_ABSURD_WORD
    } else if word == b"halves".as_slice() {
        CLASS_HALVES_WORD
    } else {
        other
    }
}

fn longer_words(word: &[u8], other: u8) -> u8
    ensures { result ≡ listed spec.longer_words other word.now }
{
    if word == b"forget".as_slice() {
        CLASS_FORGET_WORD
    } else if word == b"during".as_slice() {
        CLASS_DURING_WORD
    } else if word == b"contra".as_slice() {
        CLASS_CONTRA_WORD
    } else if word == b"linear".as_slice() {
        CLASS_LINEAR_WORD
    } else if word == b"except".as_slice() {
        CLASS_EXCEPT_WORD
    } else if word == b"freeze".as_slice() {
        CLASS_ON_ATOM_WORD
    } else if word == b"called".as_slice() {
        CLASS_ON_ATOM_WORD
    } else {
        other
    }
}

fn other_long_words(word: &[u8], other: u8) -> u8
    ensures { result ≡ listed spec.other_long_words other word.now }
{
    if word == b"compute".as_slice() {
        CLASS_GIVEN_WORD
    } else if word == b"roslice".as_slice() {
        CLASS_TWO_ATOM_WORD
    } else if word == b"master".as_slice() {
        CLASS_THREE_ATOM_WORD
    } else if word == b"flease".as_slice() {
        CLASS_FIELD_ATOM_WORD
    } else if word == b"bmaster".as_slice() {
        CLASS_BOOK_ATOM_WORD
    } else if word == b"blease".as_slice() {
        CLASS_BOOK_ATOM_WORD
    } else if word == b"Blocks".as_slice() {
        CLASS_SORT_WORD
    } else {
        other
    }
}

fn last_long_words(word: &[u8], other: u8) -> u8
    ensures { result ≡ listed spec.last_long_words other word.now }
{
    if word == b"SliceS".as_slice() {
        CLASS_SORT_WORD
    } else {
        other
    }
}

fn ranks(word: &[u8], other: u64) -> u64
    ensures { result ≡ listed spec.ranks other word.now }
{
    match word {
        b"drop" => 1,
        b"lenof" => 4,
        b"none" => 5,
        b"one" => 6,
        b"join" => 1,
        b"part" => 1,
        b"close" => 1,
        b"held" => 1,
        _ => other,
    }
}

fn other_ranks(word: &[u8], other: u64) -> u64
    ensures { result ≡ listed spec.other_ranks other word.now }
{
    match word {
        b"down" => 2,
        b"spare" => 3,
        b"half" => 2,
        b"lease" => 1,
        b"ro" => 1,
        _ => other,
    }
}

fn sort_ranks(word: &[u8], other: u64) -> u64
    ensures { result ≡ listed spec.sort_ranks other word.now }
{
    match word {
        b"Bool" => 1,
        b"Bytes" => 2,
        b"Words" => 3,
        b"Refs" => 4,
        b"MapWW" => 6,
        b"MapWB" => 7,
        b"Ref" => 8,
        b"Call" => 10,
        b"Name" => 11,
        _ => other,
    }
}

fn long_ranks(word: &[u8], other: u64) -> u64
    ensures { result ≡ listed spec.long_ranks other word.now }
{
    if word == b"freeze".as_slice() {
        2
    } else if word == b"called".as_slice() {
        3
    } else if word == b"compute".as_slice() {
        1
    } else if word == b"roslice".as_slice() {
        1
    } else if word == b"flease".as_slice() {
        1
    } else if word == b"blease".as_slice() {
        1
    } else if word == b"Blocks".as_slice() {
        5
    } else if word == b"SliceS".as_slice() {
        9
    } else {
        other
    }
}

// The class of a word, where this is its class in a term.
fn word_class(class: u8, bytes: &[u8]) -> u8
    ensures { result ≡ spec.word_class class bytes.now }
{
    let class = last_long_words(bytes, class);
    let class = other_long_words(bytes, class);
    let class = longer_words(bytes, class);
    let class = long_words(bytes, class);
    let class = sort_words(bytes, class);
    let class = last_commands(bytes, class);
    let class = other_commands(bytes, class);
    let class = more_commands(bytes, class);
    let class = command_words(bytes, class);
    let class = other_atoms(bytes, class);
    let class = atom_words(bytes, class);
    let class = part_words(bytes, class);
    declaration_words(bytes, class)
}

fn rank_of(bytes: &[u8]) -> u64
    ensures { result ≡ spec.rank_of bytes.now }
{
    let rank = long_ranks(bytes, 0);
    let rank = sort_ranks(bytes, rank);
    let rank = other_ranks(bytes, rank);
    ranks(bytes, rank)
}

fn sign(bytes: &[u8], other: u8) -> u8
    ensures { result ≡ listed spec.signs other bytes.now }
{
    match bytes {
        b"{" => CLASS_L_BRACE,
        b"}" => CLASS_R_BRACE,
        b"[" => CLASS_L_BRACKET,
        b"]" => CLASS_R_BRACKET,
        b":" => CLASS_COLON,
        b"=" => CLASS_ASSIGN,
        b".." => CLASS_DOT_DOT,
        b"?" => CLASS_HOLE,
        _ => other,
    }
}

// The class of a number of 2^64 or more.
fn large_class(bytes: &[u8]) -> u8
    ensures { result ≡ spec.large_class bytes.now }
{
    let value = match bytes {
        [b'0', b'x', digits @ ..] => value_of(digits, 16, LARGEST_FACTOR),
        _ => value_of(bytes, 10, LARGEST_FACTOR),
    };
    if value.is_some() {
        CLASS_LARGE_NUMBER
    } else {
        CLASS_LIMIT_NUMBER
    }
}

fn number_class(class: u8, bytes: &[u8]) -> u8
    ensures { result ≡ spec.number_class class bytes.now }
{
    if class == CLASS_LARGE_NUMBER {
        large_class(bytes)
    } else {
        class
    }
}

// The class of a token, where this is its class in a term.
#[tactic(auto, unfolding(crate::specs::Seen::class_of))]
fn class_of(kind: Kind, class: u8, bytes: &[u8]) -> u8
    ensures { result ≡ spec.class_of kind class bytes.now }
{
    match kind {
        Kind::Word => word_class(class, bytes),
        Kind::Number => number_class(class, bytes),
        Kind::Text => class,
        Kind::Sign => sign(bytes, class),
        Kind::Semi => CLASS_SEMI,
    }
}

#[tactic(auto, unfolding(crate::specs::Seen::value_for))]
fn value_for(kind: Kind, value: u64, bytes: &[u8]) -> u64
    ensures { result ≡ spec.value_for kind value bytes.now }
{
    match kind {
        Kind::Word => rank_of(bytes),
        Kind::Number | Kind::Text | Kind::Sign | Kind::Semi => value,
    }
}

fn seen_as(text: &[u8], token: Token) -> SeenToken
    ensures { result ≡ spec.seen_as text.now token }
{
    let seen = seen_in_terms(text, token);
    let bytes = bytes_from(text, token.start, token.end);
    SeenToken {
        class: class_of(token.kind, seen.class, bytes),
        start: token.start,
        end: token.end,
        value: value_for(token.kind, seen.value, bytes),
    }
}

/// The tokens of a text as the grammar sees them.
pub(crate) fn seen(
    alloc: Global,
    text: &[u8],
    tokens: &[Token],
) -> Result<Vec<SeenToken>, AllocError>
    ensures { IfOk result (λ seen. seen.items ≡ spec.seen text.now tokens.now) }
{
    tokens
        .iter()
        .map(|token| seen_as(text, *token))
        .collect(alloc)
}
