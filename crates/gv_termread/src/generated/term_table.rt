//! The term grammar as tables. Made by tools/grammar.py from term.grammar: edit that.
ghost use Rattle.std.specs.Prelude.{◌≡◌};
ghost use Rattle.gv_grammar.specs.Derivation.{tables_of};
ghost use Rattle.gv_grammar.specs.Predictive.{MayBegin};
ghost use Rattle.gv_termread.specs.TermTable.{term_tables};

use gv_grammar::{Grammar, OPEN, RESTORE, SAVE, Symbol};

pub const CLASS_IDENT: u8 = 1;

pub const CLASS_BYTES_WORD: u8 = 2;

pub const CLASS_WORDS_WORD: u8 = 3;

pub const CLASS_REFS_WORD: u8 = 4;

pub const CLASS_BLOCKS_WORD: u8 = 5;

pub const CLASS_LEN_WORD: u8 = 6;

pub const CLASS_IS_ZERO_WORD: u8 = 7;

pub const CLASS_LE64_WORD: u8 = 8;

pub const CLASS_UN64_WORD: u8 = 9;

pub const CLASS_S_LEN_WORD: u8 = 10;

pub const CLASS_S_CAP_WORD: u8 = 11;

pub const CLASS_IMP_WORD: u8 = 12;

pub const CLASS_FITS_WORD: u8 = 13;

pub const CLASS_AT_WORD: u8 = 14;

pub const CLASS_CAT_WORD: u8 = 15;

pub const CLASS_PUT64_WORD: u8 = 16;

pub const CLASS_GET_WORD: u8 = 17;

pub const CLASS_HAS_WORD: u8 = 18;

pub const CLASS_DEL_WORD: u8 = 19;

pub const CLASS_IF_WORD: u8 = 20;

pub const CLASS_UPD_WORD: u8 = 21;

pub const CLASS_SUB_WORD: u8 = 22;

pub const CLASS_PUT_WORD: u8 = 23;

pub const CLASS_SL_WORD: u8 = 24;

pub const CLASS_TRUE_WORD: u8 = 25;

pub const CLASS_FALSE_WORD: u8 = 26;

pub const CLASS_NIL_WORD: u8 = 27;

pub const CLASS_NIL_SLICE_WORD: u8 = 28;

pub const CLASS_NO_CALL_WORD: u8 = 29;

pub const CLASS_MAP_WW_WORD: u8 = 30;

pub const CLASS_MAP_WB_WORD: u8 = 31;

pub const CLASS_NUMBER: u8 = 32;

pub const CLASS_L_PAREN: u8 = 33;

pub const CLASS_R_PAREN: u8 = 34;

pub const CLASS_COMMA: u8 = 35;

pub const CLASS_OR_OR: u8 = 36;

pub const CLASS_AND_AND: u8 = 37;

pub const CLASS_EQUAL: u8 = 38;

pub const CLASS_NOT_EQUAL: u8 = 39;

pub const CLASS_LESS: u8 = 40;

pub const CLASS_AT_MOST: u8 = 41;

pub const CLASS_GREATER: u8 = 42;

pub const CLASS_AT_LEAST: u8 = 43;

pub const CLASS_PLUS: u8 = 44;

pub const CLASS_MINUS: u8 = 45;

pub const CLASS_BAR: u8 = 46;

pub const CLASS_CARET: u8 = 47;

pub const CLASS_STAR: u8 = 48;

pub const CLASS_SLASH: u8 = 49;

pub const CLASS_PERCENT: u8 = 50;

pub const CLASS_SHIFT_LEFT: u8 = 51;

pub const CLASS_SHIFT_RIGHT: u8 = 52;

pub const CLASS_AMP: u8 = 53;

pub const CLASS_AMP_CARET: u8 = 54;

pub const CLASS_BANG: u8 = 55;

pub const CLASS_LARGE_NUMBER: u8 = 56;

pub const CLASS_OTHER_TOKEN: u8 = 57;

pub const SET_FREE: u8 = 0;

pub const SET_ANY_NUMBER: u8 = 1;

pub const SET_CONSTANT: u8 = 2;

pub const SET_MAKER: u8 = 3;

pub const SET_OF_ONE: u8 = 4;

pub const SET_OF_TWO: u8 = 5;

pub const SET_OF_THREE: u8 = 6;

pub const SET_COMPARING: u8 = 7;

pub const SET_ADDING: u8 = 8;

pub const SET_MULTIPLYING: u8 = 9;

pub const SET_INVERTING: u8 = 10;

pub const SET_OR_OR: u8 = 11;

pub const SET_AND_AND: u8 = 12;

pub const SET_L_PAREN: u8 = 13;

pub const SET_R_PAREN: u8 = 14;

pub const SET_COMMA: u8 = 15;

pub const NAME_WHOLE: u8 = 0;

pub const NAME_DISJUNCTION: u8 = 1;

pub const NAME_DISJUNCTION_TAIL: u8 = 2;

pub const NAME_CONJUNCTION: u8 = 3;

pub const NAME_CONJUNCTION_TAIL: u8 = 4;

pub const NAME_COMPARISON: u8 = 5;

pub const NAME_COMPARISON_TAIL: u8 = 6;

pub const NAME_SUM: u8 = 7;

pub const NAME_SUM_TAIL: u8 = 8;

pub const NAME_PRODUCT: u8 = 9;

pub const NAME_PRODUCT_TAIL: u8 = 10;

pub const NAME_UNARY: u8 = 11;

pub const NAME_PRIM: u8 = 12;

pub const NAME_MAKER_REST: u8 = 13;

pub const NAME_ONE_REST: u8 = 14;

pub const NAME_TWO_REST: u8 = 15;

pub const NAME_THREE_REST: u8 = 16;

pub const ACT_BINARY: u8 = 4;

pub const ACT_UNARY: u8 = 5;

pub const ACT_NUMBER: u8 = 6;

pub const ACT_CONSTANT: u8 = 7;

pub const ACT_VARIABLE: u8 = 8;

pub const ACT_PAREN: u8 = 9;

pub const ACT_MAKER: u8 = 10;

pub const ACT_OF_ONE: u8 = 11;

pub const ACT_OF_TWO: u8 = 12;

pub const ACT_OF_THREE: u8 = 13;

/// One more than the last act.
pub const ACTS_END: u8 = 14;

pub const RULE_WHOLE_TERM: u16 = 0;

pub const RULE_DISJUNCTION_FIRST: u16 = 1;

pub const RULE_DISJUNCTION_TAIL_MORE: u16 = 2;

pub const RULE_DISJUNCTION_TAIL_END: u16 = 3;

pub const RULE_CONJUNCTION_FIRST: u16 = 4;

pub const RULE_CONJUNCTION_TAIL_MORE: u16 = 5;

pub const RULE_CONJUNCTION_TAIL_END: u16 = 6;

pub const RULE_COMPARISON_FIRST: u16 = 7;

pub const RULE_COMPARISON_TAIL_MORE: u16 = 8;

pub const RULE_COMPARISON_TAIL_END: u16 = 9;

pub const RULE_SUM_FIRST: u16 = 10;

pub const RULE_SUM_TAIL_MORE: u16 = 11;

pub const RULE_SUM_TAIL_END: u16 = 12;

pub const RULE_PRODUCT_FIRST: u16 = 13;

pub const RULE_PRODUCT_TAIL_MORE: u16 = 14;

pub const RULE_PRODUCT_TAIL_END: u16 = 15;

pub const RULE_UNARY_SIGN: u16 = 16;

pub const RULE_UNARY_PRIM: u16 = 17;

pub const RULE_PRIM_NUMBER: u16 = 18;

pub const RULE_PRIM_CONSTANT: u16 = 19;

pub const RULE_PRIM_FREE: u16 = 20;

pub const RULE_PRIM_PAREN: u16 = 21;

pub const RULE_PRIM_MAKER: u16 = 22;

pub const RULE_PRIM_ONE: u16 = 23;

pub const RULE_PRIM_TWO: u16 = 24;

pub const RULE_PRIM_THREE: u16 = 25;

pub const RULE_MAKER_REST_CALL: u16 = 26;

pub const RULE_MAKER_REST_NAME: u16 = 27;

pub const RULE_ONE_REST_CALL: u16 = 28;

pub const RULE_ONE_REST_NAME: u16 = 29;

pub const RULE_TWO_REST_CALL: u16 = 30;

pub const RULE_TWO_REST_NAME: u16 = 31;

pub const RULE_THREE_REST_CALL: u16 = 32;

pub const RULE_THREE_REST_NAME: u16 = 33;

pub static ROOTS: [u8; 1] = [0];

pub static NAMES: [u8; 34] = [
    0, 1, 2, 2, 3, 4, 4, 5, 6, 6, 7, 8, 8, 9, 10, 10, 11, 11, 12, 12, 12, 12, 12, 12, 12, 12, 13,
    13, 14, 14, 15, 15, 16, 16,
];

pub static STARTS: [u16; 35] = [
    0, 3, 5, 10, 10, 12, 17, 17, 19, 24, 24, 26, 31, 31, 33, 38, 38, 42, 43, 45, 47, 49, 56, 58,
    60, 62, 64, 73, 74, 81, 82, 91, 92, 103, 104,
];

pub static SYMBOLS: [Symbol; 104] = [
    // Whole/term = {SAVE} Disjunction {RESTORE}
    Symbol::Act(SAVE),
    Symbol::Name(NAME_DISJUNCTION),
    Symbol::Act(RESTORE),
    // Disjunction/first = Conjunction DisjunctionTail
    Symbol::Name(NAME_CONJUNCTION),
    Symbol::Name(NAME_DISJUNCTION_TAIL),
    // DisjunctionTail/more = {OPEN} OrOr Conjunction {BINARY} DisjunctionTail
    Symbol::Act(OPEN),
    Symbol::Token(SET_OR_OR),
    Symbol::Name(NAME_CONJUNCTION),
    Symbol::Act(ACT_BINARY),
    Symbol::Name(NAME_DISJUNCTION_TAIL),
    // DisjunctionTail/end =
    // Conjunction/first = Comparison ConjunctionTail
    Symbol::Name(NAME_COMPARISON),
    Symbol::Name(NAME_CONJUNCTION_TAIL),
    // ConjunctionTail/more = {OPEN} AndAnd Comparison {BINARY} ConjunctionTail
    Symbol::Act(OPEN),
    Symbol::Token(SET_AND_AND),
    Symbol::Name(NAME_COMPARISON),
    Symbol::Act(ACT_BINARY),
    Symbol::Name(NAME_CONJUNCTION_TAIL),
    // ConjunctionTail/end =
    // Comparison/first = Sum ComparisonTail
    Symbol::Name(NAME_SUM),
    Symbol::Name(NAME_COMPARISON_TAIL),
    // ComparisonTail/more = {OPEN} Comparing Sum {BINARY} ComparisonTail
    Symbol::Act(OPEN),
    Symbol::Token(SET_COMPARING),
    Symbol::Name(NAME_SUM),
    Symbol::Act(ACT_BINARY),
    Symbol::Name(NAME_COMPARISON_TAIL),
    // ComparisonTail/end =
    // Sum/first = Product SumTail
    Symbol::Name(NAME_PRODUCT),
    Symbol::Name(NAME_SUM_TAIL),
    // SumTail/more = {OPEN} Adding Product {BINARY} SumTail
    Symbol::Act(OPEN),
    Symbol::Token(SET_ADDING),
    Symbol::Name(NAME_PRODUCT),
    Symbol::Act(ACT_BINARY),
    Symbol::Name(NAME_SUM_TAIL),
    // SumTail/end =
    // Product/first = Unary ProductTail
    Symbol::Name(NAME_UNARY),
    Symbol::Name(NAME_PRODUCT_TAIL),
    // ProductTail/more = {OPEN} Multiplying Unary {BINARY} ProductTail
    Symbol::Act(OPEN),
    Symbol::Token(SET_MULTIPLYING),
    Symbol::Name(NAME_UNARY),
    Symbol::Act(ACT_BINARY),
    Symbol::Name(NAME_PRODUCT_TAIL),
    // ProductTail/end =
    // Unary/sign = {OPEN} Inverting Unary {UNARY}
    Symbol::Act(OPEN),
    Symbol::Token(SET_INVERTING),
    Symbol::Name(NAME_UNARY),
    Symbol::Act(ACT_UNARY),
    // Unary/prim = Prim
    Symbol::Name(NAME_PRIM),
    // Prim/number = AnyNumber {NUMBER}
    Symbol::Token(SET_ANY_NUMBER),
    Symbol::Act(ACT_NUMBER),
    // Prim/constant = Constant {CONSTANT}
    Symbol::Token(SET_CONSTANT),
    Symbol::Act(ACT_CONSTANT),
    // Prim/free = Free {VARIABLE}
    Symbol::Token(SET_FREE),
    Symbol::Act(ACT_VARIABLE),
    // Prim/paren = {SAVE} {OPEN} LParen Whole RParen {RESTORE} {PAREN}
    Symbol::Act(SAVE),
    Symbol::Act(OPEN),
    Symbol::Token(SET_L_PAREN),
    Symbol::Name(NAME_WHOLE),
    Symbol::Token(SET_R_PAREN),
    Symbol::Act(RESTORE),
    Symbol::Act(ACT_PAREN),
    // Prim/maker = Maker MakerRest
    Symbol::Token(SET_MAKER),
    Symbol::Name(NAME_MAKER_REST),
    // Prim/one = OfOne OneRest
    Symbol::Token(SET_OF_ONE),
    Symbol::Name(NAME_ONE_REST),
    // Prim/two = OfTwo TwoRest
    Symbol::Token(SET_OF_TWO),
    Symbol::Name(NAME_TWO_REST),
    // Prim/three = OfThree ThreeRest
    Symbol::Token(SET_OF_THREE),
    Symbol::Name(NAME_THREE_REST),
    // MakerRest/call = {SAVE} {OPEN} LParen AnyNumber Comma Whole RParen {RESTORE} {MAKER}
    Symbol::Act(SAVE),
    Symbol::Act(OPEN),
    Symbol::Token(SET_L_PAREN),
    Symbol::Token(SET_ANY_NUMBER),
    Symbol::Token(SET_COMMA),
    Symbol::Name(NAME_WHOLE),
    Symbol::Token(SET_R_PAREN),
    Symbol::Act(RESTORE),
    Symbol::Act(ACT_MAKER),
    // MakerRest/name = {VARIABLE}
    Symbol::Act(ACT_VARIABLE),
    // OneRest/call = {SAVE} {OPEN} LParen Whole RParen {RESTORE} {OF_ONE}
    Symbol::Act(SAVE),
    Symbol::Act(OPEN),
    Symbol::Token(SET_L_PAREN),
    Symbol::Name(NAME_WHOLE),
    Symbol::Token(SET_R_PAREN),
    Symbol::Act(RESTORE),
    Symbol::Act(ACT_OF_ONE),
    // OneRest/name = {VARIABLE}
    Symbol::Act(ACT_VARIABLE),
    // TwoRest/call = {SAVE} {OPEN} LParen Whole Comma Whole RParen {RESTORE} {OF_TWO}
    Symbol::Act(SAVE),
    Symbol::Act(OPEN),
    Symbol::Token(SET_L_PAREN),
    Symbol::Name(NAME_WHOLE),
    Symbol::Token(SET_COMMA),
    Symbol::Name(NAME_WHOLE),
    Symbol::Token(SET_R_PAREN),
    Symbol::Act(RESTORE),
    Symbol::Act(ACT_OF_TWO),
    // TwoRest/name = {VARIABLE}
    Symbol::Act(ACT_VARIABLE),
    // ThreeRest/call = {SAVE} {OPEN} LParen Whole Comma Whole Comma Whole RParen {RESTORE} {OF_THREE}
    Symbol::Act(SAVE),
    Symbol::Act(OPEN),
    Symbol::Token(SET_L_PAREN),
    Symbol::Name(NAME_WHOLE),
    Symbol::Token(SET_COMMA),
    Symbol::Name(NAME_WHOLE),
    Symbol::Token(SET_COMMA),
    Symbol::Name(NAME_WHOLE),
    Symbol::Token(SET_R_PAREN),
    Symbol::Act(RESTORE),
    Symbol::Act(ACT_OF_THREE),
    // ThreeRest/name = {VARIABLE}
    Symbol::Act(ACT_VARIABLE),
];

pub static CLASSES: [u8; 56] = [
    1, 32, 25, 26, 27, 28, 29, 30, 31, 2, 3, 4, 5, 6, 7, 8, 9, 10, 11, 12, 13, 14, 15, 16, 17, 18,
    19, 20, 21, 22, 23, 24, 38, 39, 40, 41, 42, 43, 44, 45, 46, 47, 48, 49, 50, 51, 52, 53, 54, 55,
    47, 36, 37, 33, 34, 35,
];

pub static SET_STARTS: [u16; 17] = [
    0, 1, 2, 9, 13, 19, 27, 32, 38, 42, 49, 51, 52, 53, 54, 55, 56,
];

pub static TABLE: [u16; 986] = [
    0, 1, 1, 1, 1, 1, 1, 1, 1, 1, 1, 1, 1, 1, 1, 1, 1, 1, 1, 1, 1, 1, 1, 1, 1, 1, 1, 1, 1, 1, 1, 1,
    1, 1, 0, 0, 0, 0, 0, 0, 0, 0, 0, 0, 0, 0, 0, 1, 0, 0, 0, 0, 0, 0, 0, 1, 0, 0, 0, 2, 2, 2, 2, 2,
    2, 2, 2, 2, 2, 2, 2, 2, 2, 2, 2, 2, 2, 2, 2, 2, 2, 2, 2, 2, 2, 2, 2, 2, 2, 2, 2, 2, 0, 0, 0, 0,
    0, 0, 0, 0, 0, 0, 0, 0, 0, 2, 0, 0, 0, 0, 0, 0, 0, 2, 0, 0, 4, 0, 0, 0, 0, 0, 0, 0, 0, 0, 0, 0,
    0, 0, 0, 0, 0, 0, 0, 0, 0, 0, 0, 0, 0, 0, 0, 0, 0, 0, 0, 0, 0, 0, 4, 4, 3, 0, 0, 0, 0, 0, 0, 0,
    0, 0, 0, 0, 0, 0, 0, 0, 0, 0, 0, 0, 0, 0, 0, 5, 5, 5, 5, 5, 5, 5, 5, 5, 5, 5, 5, 5, 5, 5, 5, 5,
    5, 5, 5, 5, 5, 5, 5, 5, 5, 5, 5, 5, 5, 5, 5, 5, 0, 0, 0, 0, 0, 0, 0, 0, 0, 0, 0, 0, 0, 5, 0, 0,
    0, 0, 0, 0, 0, 5, 0, 0, 7, 0, 0, 0, 0, 0, 0, 0, 0, 0, 0, 0, 0, 0, 0, 0, 0, 0, 0, 0, 0, 0, 0, 0,
    0, 0, 0, 0, 0, 0, 0, 0, 0, 0, 7, 7, 7, 6, 0, 0, 0, 0, 0, 0, 0, 0, 0, 0, 0, 0, 0, 0, 0, 0, 0, 0,
    0, 0, 0, 8, 8, 8, 8, 8, 8, 8, 8, 8, 8, 8, 8, 8, 8, 8, 8, 8, 8, 8, 8, 8, 8, 8, 8, 8, 8, 8, 8, 8,
    8, 8, 8, 8, 0, 0, 0, 0, 0, 0, 0, 0, 0, 0, 0, 0, 0, 8, 0, 0, 0, 0, 0, 0, 0, 8, 0, 0, 10, 0, 0,
    0, 0, 0, 0, 0, 0, 0, 0, 0, 0, 0, 0, 0, 0, 0, 0, 0, 0, 0, 0, 0, 0, 0, 0, 0, 0, 0, 0, 0, 0, 0,
    10, 10, 10, 10, 9, 9, 9, 9, 9, 9, 0, 0, 0, 0, 0, 0, 0, 0, 0, 0, 0, 0, 0, 0, 0, 11, 11, 11, 11,
    11, 11, 11, 11, 11, 11, 11, 11, 11, 11, 11, 11, 11, 11, 11, 11, 11, 11, 11, 11, 11, 11, 11, 11,
    11, 11, 11, 11, 11, 0, 0, 0, 0, 0, 0, 0, 0, 0, 0, 0, 0, 0, 11, 0, 0, 0, 0, 0, 0, 0, 11, 0, 0,
    13, 0, 0, 0, 0, 0, 0, 0, 0, 0, 0, 0, 0, 0, 0, 0, 0, 0, 0, 0, 0, 0, 0, 0, 0, 0, 0, 0, 0, 0, 0,
    0, 0, 0, 13, 13, 13, 13, 13, 13, 13, 13, 13, 13, 12, 12, 12, 12, 0, 0, 0, 0, 0, 0, 0, 0, 0, 0,
    0, 14, 14, 14, 14, 14, 14, 14, 14, 14, 14, 14, 14, 14, 14, 14, 14, 14, 14, 14, 14, 14, 14, 14,
    14, 14, 14, 14, 14, 14, 14, 14, 14, 14, 0, 0, 0, 0, 0, 0, 0, 0, 0, 0, 0, 0, 0, 14, 0, 0, 0, 0,
    0, 0, 0, 14, 0, 0, 16, 0, 0, 0, 0, 0, 0, 0, 0, 0, 0, 0, 0, 0, 0, 0, 0, 0, 0, 0, 0, 0, 0, 0, 0,
    0, 0, 0, 0, 0, 0, 0, 0, 0, 16, 16, 16, 16, 16, 16, 16, 16, 16, 16, 16, 16, 16, 16, 15, 15, 15,
    15, 15, 15, 15, 0, 0, 0, 0, 18, 18, 18, 18, 18, 18, 18, 18, 18, 18, 18, 18, 18, 18, 18, 18, 18,
    18, 18, 18, 18, 18, 18, 18, 18, 18, 18, 18, 18, 18, 18, 18, 18, 0, 0, 0, 0, 0, 0, 0, 0, 0, 0,
    0, 0, 0, 17, 0, 0, 0, 0, 0, 0, 0, 17, 0, 0, 0, 21, 23, 23, 23, 23, 24, 24, 24, 24, 24, 24, 25,
    25, 25, 25, 25, 25, 25, 25, 26, 26, 26, 26, 26, 20, 20, 20, 20, 20, 20, 20, 19, 22, 0, 0, 0, 0,
    0, 0, 0, 0, 0, 0, 0, 0, 0, 0, 0, 0, 0, 0, 0, 0, 0, 0, 0, 0, 28, 0, 0, 0, 0, 0, 0, 0, 0, 0, 0,
    0, 0, 0, 0, 0, 0, 0, 0, 0, 0, 0, 0, 0, 0, 0, 0, 0, 0, 0, 0, 0, 0, 27, 28, 28, 28, 28, 28, 28,
    28, 28, 28, 28, 28, 28, 28, 28, 28, 28, 28, 28, 28, 28, 28, 0, 0, 0, 30, 0, 0, 0, 0, 0, 0, 0,
    0, 0, 0, 0, 0, 0, 0, 0, 0, 0, 0, 0, 0, 0, 0, 0, 0, 0, 0, 0, 0, 0, 0, 0, 0, 29, 30, 30, 30, 30,
    30, 30, 30, 30, 30, 30, 30, 30, 30, 30, 30, 30, 30, 30, 30, 30, 30, 0, 0, 0, 32, 0, 0, 0, 0, 0,
    0, 0, 0, 0, 0, 0, 0, 0, 0, 0, 0, 0, 0, 0, 0, 0, 0, 0, 0, 0, 0, 0, 0, 0, 0, 0, 0, 31, 32, 32,
    32, 32, 32, 32, 32, 32, 32, 32, 32, 32, 32, 32, 32, 32, 32, 32, 32, 32, 32, 0, 0, 0, 34, 0, 0,
    0, 0, 0, 0, 0, 0, 0, 0, 0, 0, 0, 0, 0, 0, 0, 0, 0, 0, 0, 0, 0, 0, 0, 0, 0, 0, 0, 0, 0, 0, 33,
    34, 34, 34, 34, 34, 34, 34, 34, 34, 34, 34, 34, 34, 34, 34, 34, 34, 34, 34, 34, 34, 0, 0, 0,
];

pub const WIDTH: u8 = 58;

/// The term grammar.
pub fn term_grammar() -> Grammar
    ensures tables { tables_of result ≡ term_tables }
    ensures whole { MayBegin (tables_of result) NAME_WHOLE }
{
    Grammar {
        roots: &ROOTS,
        names: &NAMES,
        symbols: &SYMBOLS,
        starts: &STARTS,
        classes: &CLASSES,
        set_starts: &SET_STARTS,
        table: &TABLE,
        width: WIDTH,
    }
}
