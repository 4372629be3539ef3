//! The spec grammar as tables. Made by tools/grammar.py from spec.grammar: edit that.
ghost use Rattle.std.specs.Prelude.{◌≡◌};
ghost use Rattle.gv_grammar.specs.Derivation.{tables_of};
ghost use Rattle.gv_grammar.specs.Predictive.{MayBegin};
ghost use Rattle.gv_specread.specs.SpecTable.{spec_tables};

use gv_grammar::{Grammar, OPEN, RESTORE, SAVE, Symbol};
use gv_termread::generated::term_table::{
    ACT_BINARY, ACT_CONSTANT, ACT_MAKER, ACT_NUMBER, ACT_OF_ONE, ACT_OF_THREE, ACT_OF_TWO,
    ACT_PAREN, ACT_UNARY, ACT_VARIABLE, NAME_COMPARISON, NAME_COMPARISON_TAIL, NAME_CONJUNCTION,
    NAME_CONJUNCTION_TAIL, NAME_DISJUNCTION, NAME_DISJUNCTION_TAIL, NAME_MAKER_REST, NAME_ONE_REST,
    NAME_PRIM, NAME_PRODUCT, NAME_PRODUCT_TAIL, NAME_SUM, NAME_SUM_TAIL, NAME_THREE_REST,
    NAME_TWO_REST, NAME_UNARY, NAME_WHOLE, SET_ADDING, SET_AND_AND, SET_ANY_NUMBER, SET_COMMA,
    SET_COMPARING, SET_CONSTANT, SET_FREE, SET_INVERTING, SET_L_PAREN, SET_MAKER, SET_MULTIPLYING,
    SET_OF_ONE, SET_OF_THREE, SET_OF_TWO, SET_OR_OR, SET_R_PAREN,
};

pub const CLASS_SPEC_WORD: u8 = 58;

pub const CLASS_DISKS_WORD: u8 = 59;

pub const CLASS_FIELD_WORD: u8 = 60;

pub const CLASS_OP_WORD: u8 = 61;

pub const CLASS_CRASH_WORD: u8 = 62;

pub const CLASS_WHERE_WORD: u8 = 63;

pub const CLASS_LEASED_WORD: u8 = 64;

pub const CLASS_PICK_WORD: u8 = 65;

pub const CLASS_BELOW_WORD: u8 = 66;

pub const CLASS_REPLY_WORD: u8 = 67;

pub const CLASS_WORD_SORT: u8 = 68;

pub const CLASS_BOOL_SORT: u8 = 69;

pub const CLASS_BYTES_SORT: u8 = 70;

pub const CLASS_WORDS_SORT: u8 = 71;

pub const CLASS_REFS_SORT: u8 = 72;

pub const CLASS_BLOCKS_SORT: u8 = 73;

pub const CLASS_MAP_WW_SORT: u8 = 74;

pub const CLASS_MAP_WB_SORT: u8 = 75;

pub const CLASS_REF_SORT: u8 = 76;

pub const CLASS_SLICE_S_SORT: u8 = 77;

pub const CLASS_CALL_SORT: u8 = 78;

pub const CLASS_NAME_SORT: u8 = 79;

pub const CLASS_ZERO_NUMBER: u8 = 80;

pub const CLASS_ONE_NUMBER: u8 = 81;

pub const CLASS_TWO_NUMBER: u8 = 82;

pub const CLASS_L_BRACE: u8 = 83;

pub const CLASS_R_BRACE: u8 = 84;

pub const CLASS_SEMI: u8 = 85;

pub const CLASS_COLON: u8 = 86;

pub const CLASS_DEFINE: u8 = 87;

pub const CLASS_ASSIGN: u8 = 88;

pub const CLASS_ARROW: u8 = 89;

pub const SET_ID: u8 = 16;

pub const SET_TARGET: u8 = 17;

pub const SET_FIRST_TARGET: u8 = 18;

pub const SET_SORT_WORD: u8 = 19;

pub const SET_SPEC_WORD: u8 = 20;

pub const SET_SEMI: u8 = 21;

pub const SET_DISKS_WORD: u8 = 22;

pub const SET_CRASH_WORD: u8 = 23;

pub const SET_ZERO_NUMBER: u8 = 24;

pub const SET_ONE_NUMBER: u8 = 25;

pub const SET_TWO_NUMBER: u8 = 26;

pub const SET_FIELD_WORD: u8 = 27;

pub const SET_COLON: u8 = 28;

pub const SET_ASSIGN: u8 = 29;

pub const SET_LEASED_WORD: u8 = 30;

pub const SET_OP_WORD: u8 = 31;

pub const SET_ARROW: u8 = 32;

pub const SET_WHERE_WORD: u8 = 33;

pub const SET_L_BRACE: u8 = 34;

pub const SET_R_BRACE: u8 = 35;

pub const SET_PICK_WORD: u8 = 36;

pub const SET_DEFINE: u8 = 37;

pub const SET_BELOW_WORD: u8 = 38;

pub const SET_REPLY_WORD: u8 = 39;

pub const NAME_TEXT: u8 = 17;

pub const NAME_DISKS: u8 = 18;

pub const NAME_FIELDS: u8 = 19;

pub const NAME_LEASED: u8 = 20;

pub const NAME_OPS: u8 = 21;

pub const NAME_PARAMS: u8 = 22;

pub const NAME_MORE_PARAMS: u8 = 23;

pub const NAME_RETURNS: u8 = 24;

pub const NAME_ALLOWED: u8 = 25;

pub const NAME_BODY: u8 = 26;

pub const NAME_PICKS: u8 = 27;

pub const NAME_PICK_REST: u8 = 28;

pub const NAME_ASSIGNS: u8 = 29;

pub const NAME_REPLY: u8 = 30;

pub const ACT_SPEC: u8 = 14;

pub const ACT_NO_DISKS: u8 = 15;

pub const ACT_ONE_DISK: u8 = 16;

pub const ACT_TWO_DISKS: u8 = 17;

pub const ACT_NO_FIELDS: u8 = 18;

pub const ACT_FIELD: u8 = 19;

pub const ACT_NOT_LEASED: u8 = 20;

pub const ACT_LEASED: u8 = 21;

pub const ACT_NO_OPS: u8 = 22;

pub const ACT_OP: u8 = 23;

pub const ACT_NO_PARAMS: u8 = 24;

pub const ACT_PARAM: u8 = 25;

pub const ACT_NEXT_PARAM: u8 = 26;

pub const ACT_NO_RETURN: u8 = 27;

pub const ACT_RETURN: u8 = 28;

pub const ACT_ALL_ALLOWED: u8 = 29;

pub const ACT_ALLOWED: u8 = 30;

pub const ACT_BODY: u8 = 31;

pub const ACT_NO_PICKS: u8 = 32;

pub const ACT_PICK: u8 = 33;

pub const ACT_NO_ASSIGNS: u8 = 34;

pub const ACT_FIRST_ASSIGN: u8 = 35;

pub const ACT_ASSIGN: u8 = 36;

pub const ACT_NO_REPLY: u8 = 37;

pub const ACT_REPLY: u8 = 38;

pub const RULE_TEXT_WHOLE: u16 = 34;

pub const RULE_DISKS_NONE: u16 = 35;

pub const RULE_DISKS_ONE: u16 = 36;

pub const RULE_DISKS_TWO: u16 = 37;

pub const RULE_FIELDS_MORE: u16 = 38;

pub const RULE_FIELDS_END: u16 = 39;

pub const RULE_LEASED_YES: u16 = 40;

pub const RULE_LEASED_NO: u16 = 41;

pub const RULE_OPS_MORE: u16 = 42;

pub const RULE_OPS_END: u16 = 43;

pub const RULE_PARAMS_SOME: u16 = 44;

pub const RULE_PARAMS_NONE: u16 = 45;

pub const RULE_MORE_PARAMS_MORE: u16 = 46;

pub const RULE_MORE_PARAMS_END: u16 = 47;

pub const RULE_RETURNS_SORT: u16 = 48;

pub const RULE_RETURNS_NONE: u16 = 49;

pub const RULE_ALLOWED_TERM: u16 = 50;

pub const RULE_ALLOWED_ALL: u16 = 51;

pub const RULE_BODY_BRACES: u16 = 52;

pub const RULE_PICKS_PICK: u16 = 53;

pub const RULE_PICKS_ASSIGN: u16 = 54;

pub const RULE_PICKS_NONE: u16 = 55;

pub const RULE_PICK_REST_PICK: u16 = 56;

pub const RULE_PICK_REST_ASSIGN: u16 = 57;

pub const RULE_ASSIGNS_MORE: u16 = 58;

pub const RULE_ASSIGNS_END: u16 = 59;

pub const RULE_REPLY_TERM: u16 = 60;

pub const RULE_REPLY_NONE: u16 = 61;

pub static ROOTS: [u8; 1] = [17];

pub static NAMES: [u8; 62] = [
    0, 1, 2, 2, 3, 4, 4, 5, 6, 6, 7, 8, 8, 9, 10, 10, 11, 11, 12, 12, 12, 12, 12, 12, 12, 12, 13,
    13, 14, 14, 15, 15, 16, 16, 17, 18, 18, 18, 19, 19, 20, 20, 21, 21, 22, 22, 23, 23, 24, 24, 25,
    25, 26, 27, 27, 27, 28, 28, 29, 29, 30, 30,
];

pub static STARTS: [u16; 63] = [
    0, 3, 5, 10, 10, 12, 17, 17, 19, 24, 24, 26, 31, 31, 33, 38, 38, 42, 43, 45, 47, 49, 56, 58,
    60, 62, 64, 73, 74, 81, 82, 91, 92, 103, 104, 117, 119, 122, 125, 135, 135, 137, 138, 152, 152,
    157, 157, 163, 163, 166, 167, 170, 171, 180, 182, 188, 189, 195, 200, 206, 206, 210, 211,
];

pub static SYMBOLS: [Symbol; 211] = [
    // Whole/term = {SAVE} Disjunction {RESTORE}
    Symbol::Act(SAVE),
    Symbol::Name(NAME_DISJUNCTION),
    Symbol::Act(RESTORE),
    // Disjunction/first = Conjunction DisjunctionTail
    Symbol::Name(NAME_CONJUNCTION),
    Symbol::Name(NAME_DISJUNCTION_TAIL),
    // DisjunctionTail/more = {OPEN} OrOr Conjunction {BINARY} DisjunctionTail
    Symbol::Act(OPEN),
    Symbol::Token(SET_OR_OR),
    Symbol::Name(NAME_CONJUNCTION),
    Symbol::Act(ACT_BINARY),
    Symbol::Name(NAME_DISJUNCTION_TAIL),
    // DisjunctionTail/end =
    // Conjunction/first = Comparison ConjunctionTail
    Symbol::Name(NAME_COMPARISON),
    Symbol::Name(NAME_CONJUNCTION_TAIL),
    // ConjunctionTail/more = {OPEN} AndAnd Comparison {BINARY} ConjunctionTail
    Symbol::Act(OPEN),
    Symbol::Token(SET_AND_AND),
    Symbol::Name(NAME_COMPARISON),
    Symbol::Act(ACT_BINARY),
    Symbol::Name(NAME_CONJUNCTION_TAIL),
    // ConjunctionTail/end =
    // Comparison/first = Sum ComparisonTail
    Symbol::Name(NAME_SUM),
    Symbol::Name(NAME_COMPARISON_TAIL),
    // ComparisonTail/more = {OPEN} Comparing Sum {BINARY} ComparisonTail
    Symbol::Act(OPEN),
    Symbol::Token(SET_COMPARING),
    Symbol::Name(NAME_SUM),
    Symbol::Act(ACT_BINARY),
    Symbol::Name(NAME_COMPARISON_TAIL),
    // ComparisonTail/end =
    // Sum/first = Product SumTail
    Symbol::Name(NAME_PRODUCT),
    Symbol::Name(NAME_SUM_TAIL),
    // SumTail/more = {OPEN} Adding Product {BINARY} SumTail
    Symbol::Act(OPEN),
    Symbol::Token(SET_ADDING),
    Symbol::Name(NAME_PRODUCT),
    Symbol::Act(ACT_BINARY),
    Symbol::Name(NAME_SUM_TAIL),
    // SumTail/end =
    // Product/first = Unary ProductTail
    Symbol::Name(NAME_UNARY),
    Symbol::Name(NAME_PRODUCT_TAIL),
    // ProductTail/more = {OPEN} Multiplying Unary {BINARY} ProductTail
    Symbol::Act(OPEN),
    Symbol::Token(SET_MULTIPLYING),
    Symbol::Name(NAME_UNARY),
    Symbol::Act(ACT_BINARY),
    Symbol::Name(NAME_PRODUCT_TAIL),
    // ProductTail/end =
    // Unary/sign = {OPEN} Inverting Unary {UNARY}
    Symbol::Act(OPEN),
    Symbol::Token(SET_INVERTING),
    Symbol::Name(NAME_UNARY),
    Symbol::Act(ACT_UNARY),
    // Unary/prim = Prim
    Symbol::Name(NAME_PRIM),
    // Prim/number = AnyNumber {NUMBER}
    Symbol::Token(SET_ANY_NUMBER),
    Symbol::Act(ACT_NUMBER),
    // Prim/constant = Constant {CONSTANT}
    Symbol::Token(SET_CONSTANT),
    Symbol::Act(ACT_CONSTANT),
    // Prim/free = Free {VARIABLE}
    Symbol::Token(SET_FREE),
    Symbol::Act(ACT_VARIABLE),
    // Prim/paren = {SAVE} {OPEN} LParen Whole RParen {RESTORE} {PAREN}
    Symbol::Act(SAVE),
    Symbol::Act(OPEN),
    Symbol::Token(SET_L_PAREN),
    Symbol::Name(NAME_WHOLE),
    Symbol::Token(SET_R_PAREN),
    Symbol::Act(RESTORE),
    Symbol::Act(ACT_PAREN),
    // Prim/maker = Maker MakerRest
    Symbol::Token(SET_MAKER),
    Symbol::Name(NAME_MAKER_REST),
    // Prim/one = OfOne OneRest
    Symbol::Token(SET_OF_ONE),
    Symbol::Name(NAME_ONE_REST),
    // Prim/two = OfTwo TwoRest
    Symbol::Token(SET_OF_TWO),
    Symbol::Name(NAME_TWO_REST),
    // Prim/three = OfThree ThreeRest
    Symbol::Token(SET_OF_THREE),
    Symbol::Name(NAME_THREE_REST),
    // MakerRest/call = {SAVE} {OPEN} LParen AnyNumber Comma Whole RParen {RESTORE} {MAKER}
    Symbol::Act(SAVE),
    Symbol::Act(OPEN),
    Symbol::Token(SET_L_PAREN),
    Symbol::Token(SET_ANY_NUMBER),
    Symbol::Token(SET_COMMA),
    Symbol::Name(NAME_WHOLE),
    Symbol::Token(SET_R_PAREN),
    Symbol::Act(RESTORE),
    Symbol::Act(ACT_MAKER),
    // MakerRest/name = {VARIABLE}
    Symbol::Act(ACT_VARIABLE),
    // OneRest/call = {SAVE} {OPEN} LParen Whole RParen {RESTORE} {OF_ONE}
    Symbol::Act(SAVE),
    Symbol::Act(OPEN),
    Symbol::Token(SET_L_PAREN),
    Symbol::Name(NAME_WHOLE),
    Symbol::Token(SET_R_PAREN),
    Symbol::Act(RESTORE),
    Symbol::Act(ACT_OF_ONE),
    // OneRest/name = {VARIABLE}
    Symbol::Act(ACT_VARIABLE),
    // TwoRest/call = {SAVE} {OPEN} LParen Whole Comma Whole RParen {RESTORE} {OF_TWO}
    Symbol::Act(SAVE),
    Symbol::Act(OPEN),
    Symbol::Token(SET_L_PAREN),
    Symbol::Name(NAME_WHOLE),
    Symbol::Token(SET_COMMA),
    Symbol::Name(NAME_WHOLE),
    Symbol::Token(SET_R_PAREN),
    Symbol::Act(RESTORE),
    Symbol::Act(ACT_OF_TWO),
    // TwoRest/name = {VARIABLE}
    Symbol::Act(ACT_VARIABLE),
    // ThreeRest/call = {SAVE} {OPEN} LParen Whole Comma Whole Comma Whole RParen {RESTORE} {OF_THREE}
    Symbol::Act(SAVE),
    Symbol::Act(OPEN),
    Symbol::Token(SET_L_PAREN),
    Symbol::Name(NAME_WHOLE),
    Symbol::Token(SET_COMMA),
    Symbol::Name(NAME_WHOLE),
    Symbol::Token(SET_COMMA),
    Symbol::Name(NAME_WHOLE),
    Symbol::Token(SET_R_PAREN),
    Symbol::Act(RESTORE),
    Symbol::Act(ACT_OF_THREE),
    // ThreeRest/name = {VARIABLE}
    Symbol::Act(ACT_VARIABLE),
    // Text/whole = SpecWord Id Semi DisksWord Disks Semi {NO_FIELDS} Fields {NO_OPS} Ops CrashWord Body {SPEC}
    Symbol::Token(SET_SPEC_WORD),
    Symbol::Token(SET_ID),
    Symbol::Token(SET_SEMI),
    Symbol::Token(SET_DISKS_WORD),
    Symbol::Name(NAME_DISKS),
    Symbol::Token(SET_SEMI),
    Symbol::Act(ACT_NO_FIELDS),
    Symbol::Name(NAME_FIELDS),
    Symbol::Act(ACT_NO_OPS),
    Symbol::Name(NAME_OPS),
    Symbol::Token(SET_CRASH_WORD),
    Symbol::Name(NAME_BODY),
    Symbol::Act(ACT_SPEC),
    // Disks/none = ZeroNumber {NO_DISKS}
    Symbol::Token(SET_ZERO_NUMBER),
    Symbol::Act(ACT_NO_DISKS),
    // Disks/one = OneNumber AnyNumber {ONE_DISK}
    Symbol::Token(SET_ONE_NUMBER),
    Symbol::Token(SET_ANY_NUMBER),
    Symbol::Act(ACT_ONE_DISK),
    // Disks/two = TwoNumber AnyNumber {TWO_DISKS}
    Symbol::Token(SET_TWO_NUMBER),
    Symbol::Token(SET_ANY_NUMBER),
    Symbol::Act(ACT_TWO_DISKS),
    // Fields/more = FieldWord Id Colon SortWord Leased Assign Whole Semi {FIELD} Fields
    Symbol::Token(SET_FIELD_WORD),
    Symbol::Token(SET_ID),
    Symbol::Token(SET_COLON),
    Symbol::Token(SET_SORT_WORD),
    Symbol::Name(NAME_LEASED),
    Symbol::Token(SET_ASSIGN),
    Symbol::Name(NAME_WHOLE),
    Symbol::Token(SET_SEMI),
    Symbol::Act(ACT_FIELD),
    Symbol::Name(NAME_FIELDS),
    // Fields/end =
    // Leased/yes = LeasedWord {LEASED}
    Symbol::Token(SET_LEASED_WORD),
    Symbol::Act(ACT_LEASED),
    // Leased/no = {NOT_LEASED}
    Symbol::Act(ACT_NOT_LEASED),
    // Ops/more = OpWord Id {SAVE} {OPEN} LParen {NO_PARAMS} Params RParen {RESTORE} Returns Allowed Body {OP} Ops
    Symbol::Token(SET_OP_WORD),
    Symbol::Token(SET_ID),
    Symbol::Act(SAVE),
    Symbol::Act(OPEN),
    Symbol::Token(SET_L_PAREN),
    Symbol::Act(ACT_NO_PARAMS),
    Symbol::Name(NAME_PARAMS),
    Symbol::Token(SET_R_PAREN),
    Symbol::Act(RESTORE),
    Symbol::Name(NAME_RETURNS),
    Symbol::Name(NAME_ALLOWED),
    Symbol::Name(NAME_BODY),
    Symbol::Act(ACT_OP),
    Symbol::Name(NAME_OPS),
    // Ops/end =
    // Params/some = Id Colon SortWord {PARAM} MoreParams
    Symbol::Token(SET_ID),
    Symbol::Token(SET_COLON),
    Symbol::Token(SET_SORT_WORD),
    Symbol::Act(ACT_PARAM),
    Symbol::Name(NAME_MORE_PARAMS),
    // Params/none =
    // MoreParams/more = Comma Id Colon SortWord {NEXT_PARAM} MoreParams
    Symbol::Token(SET_COMMA),
    Symbol::Token(SET_ID),
    Symbol::Token(SET_COLON),
    Symbol::Token(SET_SORT_WORD),
    Symbol::Act(ACT_NEXT_PARAM),
    Symbol::Name(NAME_MORE_PARAMS),
    // MoreParams/end =
    // Returns/sort = Arrow SortWord {RETURN}
    Symbol::Token(SET_ARROW),
    Symbol::Token(SET_SORT_WORD),
    Symbol::Act(ACT_RETURN),
    // Returns/none = {NO_RETURN}
    Symbol::Act(ACT_NO_RETURN),
    // Allowed/term = WhereWord Whole {ALLOWED}
    Symbol::Token(SET_WHERE_WORD),
    Symbol::Name(NAME_WHOLE),
    Symbol::Act(ACT_ALLOWED),
    // Allowed/all = {ALL_ALLOWED}
    Symbol::Act(ACT_ALL_ALLOWED),
    // Body/braces = {SAVE} {OPEN} LBrace {NO_PICKS} Picks Reply RBrace {RESTORE} {BODY}
    Symbol::Act(SAVE),
    Symbol::Act(OPEN),
    Symbol::Token(SET_L_BRACE),
    Symbol::Act(ACT_NO_PICKS),
    Symbol::Name(NAME_PICKS),
    Symbol::Name(NAME_REPLY),
    Symbol::Token(SET_R_BRACE),
    Symbol::Act(RESTORE),
    Symbol::Act(ACT_BODY),
    // Picks/pick = PickWord PickRest
    Symbol::Token(SET_PICK_WORD),
    Symbol::Name(NAME_PICK_REST),
    // Picks/assign = FirstTarget Define Whole Semi {FIRST_ASSIGN} Assigns
    Symbol::Token(SET_FIRST_TARGET),
    Symbol::Token(SET_DEFINE),
    Symbol::Name(NAME_WHOLE),
    Symbol::Token(SET_SEMI),
    Symbol::Act(ACT_FIRST_ASSIGN),
    Symbol::Name(NAME_ASSIGNS),
    // Picks/none = {NO_ASSIGNS}
    Symbol::Act(ACT_NO_ASSIGNS),
    // PickRest/pick = Id BelowWord Whole Semi {PICK} Picks
    Symbol::Token(SET_ID),
    Symbol::Token(SET_BELOW_WORD),
    Symbol::Name(NAME_WHOLE),
    Symbol::Token(SET_SEMI),
    Symbol::Act(ACT_PICK),
    Symbol::Name(NAME_PICKS),
    // PickRest/assign = Define Whole Semi {FIRST_ASSIGN} Assigns
    Symbol::Token(SET_DEFINE),
    Symbol::Name(NAME_WHOLE),
    Symbol::Token(SET_SEMI),
    Symbol::Act(ACT_FIRST_ASSIGN),
    Symbol::Name(NAME_ASSIGNS),
    // Assigns/more = Target Define Whole Semi {ASSIGN} Assigns
    Symbol::Token(SET_TARGET),
    Symbol::Token(SET_DEFINE),
    Symbol::Name(NAME_WHOLE),
    Symbol::Token(SET_SEMI),
    Symbol::Act(ACT_ASSIGN),
    Symbol::Name(NAME_ASSIGNS),
    // Assigns/end =
    // Reply/term = ReplyWord Whole Semi {REPLY}
    Symbol::Token(SET_REPLY_WORD),
    Symbol::Name(NAME_WHOLE),
    Symbol::Token(SET_SEMI),
    Symbol::Act(ACT_REPLY),
    // Reply/none = {NO_REPLY}
    Symbol::Act(ACT_NO_REPLY),
];

pub static CLASSES: [u8; 269] = [
    1, 58, 59, 60, 61, 62, 63, 64, 66, 67, 65, 68, 69, 70, 71, 72, 73, 74, 75, 76, 77, 78, 79, 32,
    80, 81, 82, 25, 26, 27, 28, 29, 30, 31, 2, 3, 4, 5, 6, 7, 8, 9, 10, 11, 12, 13, 14, 15, 16, 17,
    18, 19, 20, 21, 22, 23, 24, 38, 39, 40, 41, 42, 43, 44, 45, 46, 47, 48, 49, 50, 51, 52, 53, 54,
    55, 47, 36, 37, 33, 34, 35, 67, 65, 1, 58, 59, 60, 61, 62, 63, 64, 66, 68, 69, 70, 71, 72, 73,
    74, 75, 76, 77, 78, 79, 2, 3, 4, 5, 6, 7, 8, 9, 10, 11, 12, 13, 14, 15, 16, 17, 18, 19, 20, 21,
    22, 23, 24, 25, 26, 27, 28, 29, 30, 31, 65, 1, 58, 59, 60, 61, 62, 63, 64, 66, 68, 69, 70, 71,
    72, 73, 74, 75, 76, 77, 78, 79, 2, 3, 4, 5, 6, 7, 8, 9, 10, 11, 12, 13, 14, 15, 16, 17, 18, 19,
    20, 21, 22, 23, 24, 25, 26, 27, 28, 29, 30, 31, 1, 58, 59, 60, 61, 62, 63, 64, 66, 68, 69, 70,
    71, 72, 73, 74, 75, 76, 77, 78, 79, 2, 3, 4, 5, 6, 7, 8, 9, 10, 11, 12, 13, 14, 15, 16, 17, 18,
    19, 20, 21, 22, 23, 24, 25, 26, 27, 28, 29, 30, 31, 68, 69, 70, 71, 72, 73, 74, 75, 76, 77, 78,
    79, 58, 85, 59, 62, 80, 81, 82, 60, 86, 88, 64, 61, 89, 63, 83, 84, 65, 87, 66, 67,
];

pub static SET_STARTS: [u16; 41] = [
    0, 23, 27, 34, 38, 44, 52, 57, 63, 67, 74, 76, 77, 78, 79, 80, 81, 134, 186, 237, 249, 250,
    251, 252, 253, 254, 255, 256, 257, 258, 259, 260, 261, 262, 263, 264, 265, 266, 267, 268, 269,
];

pub static TABLE: [u16; 2790] = [
    0, 1, 1, 1, 1, 1, 1, 1, 1, 1, 1, 1, 1, 1, 1, 1, 1, 1, 1, 1, 1, 1, 1, 1, 1, 1, 1, 1, 1, 1, 1, 1,
    1, 1, 0, 0, 0, 0, 0, 0, 0, 0, 0, 0, 0, 0, 0, 1, 0, 0, 0, 0, 0, 0, 0, 1, 0, 0, 1, 1, 1, 1, 1, 1,
    1, 1, 1, 1, 1, 1, 1, 1, 1, 1, 1, 1, 1, 1, 1, 1, 1, 1, 1, 0, 0, 0, 0, 0, 0, 0, 0, 2, 2, 2, 2, 2,
    2, 2, 2, 2, 2, 2, 2, 2, 2, 2, 2, 2, 2, 2, 2, 2, 2, 2, 2, 2, 2, 2, 2, 2, 2, 2, 2, 2, 0, 0, 0, 0,
    0, 0, 0, 0, 0, 0, 0, 0, 0, 2, 0, 0, 0, 0, 0, 0, 0, 2, 0, 0, 2, 2, 2, 2, 2, 2, 2, 2, 2, 2, 2, 2,
    2, 2, 2, 2, 2, 2, 2, 2, 2, 2, 2, 2, 2, 0, 0, 0, 0, 0, 0, 0, 0, 0, 0, 0, 0, 0, 0, 0, 0, 0, 0, 0,
    0, 0, 0, 0, 0, 0, 0, 0, 0, 0, 0, 0, 0, 0, 0, 0, 0, 0, 0, 0, 0, 0, 4, 4, 3, 0, 0, 0, 0, 0, 0, 0,
    0, 0, 0, 0, 0, 0, 0, 0, 0, 0, 0, 0, 0, 0, 0, 0, 0, 0, 0, 0, 0, 0, 0, 0, 0, 0, 0, 0, 0, 0, 0, 0,
    0, 0, 0, 0, 0, 0, 0, 4, 0, 4, 0, 0, 0, 0, 0, 5, 5, 5, 5, 5, 5, 5, 5, 5, 5, 5, 5, 5, 5, 5, 5, 5,
    5, 5, 5, 5, 5, 5, 5, 5, 5, 5, 5, 5, 5, 5, 5, 5, 0, 0, 0, 0, 0, 0, 0, 0, 0, 0, 0, 0, 0, 5, 0, 0,
    0, 0, 0, 0, 0, 5, 0, 0, 5, 5, 5, 5, 5, 5, 5, 5, 5, 5, 5, 5, 5, 5, 5, 5, 5, 5, 5, 5, 5, 5, 5, 5,
    5, 0, 0, 0, 0, 0, 0, 0, 0, 0, 0, 0, 0, 0, 0, 0, 0, 0, 0, 0, 0, 0, 0, 0, 0, 0, 0, 0, 0, 0, 0, 0,
    0, 0, 0, 0, 0, 0, 0, 0, 0, 0, 7, 7, 7, 6, 0, 0, 0, 0, 0, 0, 0, 0, 0, 0, 0, 0, 0, 0, 0, 0, 0, 0,
    0, 0, 0, 0, 0, 0, 0, 0, 0, 0, 0, 0, 0, 0, 0, 0, 0, 0, 0, 0, 0, 0, 0, 0, 0, 0, 0, 7, 0, 7, 0, 0,
    0, 0, 0, 8, 8, 8, 8, 8, 8, 8, 8, 8, 8, 8, 8, 8, 8, 8, 8, 8, 8, 8, 8, 8, 8, 8, 8, 8, 8, 8, 8, 8,
    8, 8, 8, 8, 0, 0, 0, 0, 0, 0, 0, 0, 0, 0, 0, 0, 0, 8, 0, 0, 0, 0, 0, 0, 0, 8, 0, 0, 8, 8, 8, 8,
    8, 8, 8, 8, 8, 8, 8, 8, 8, 8, 8, 8, 8, 8, 8, 8, 8, 8, 8, 8, 8, 0, 0, 0, 0, 0, 0, 0, 0, 0, 0, 0,
    0, 0, 0, 0, 0, 0, 0, 0, 0, 0, 0, 0, 0, 0, 0, 0, 0, 0, 0, 0, 0, 0, 0, 0, 0, 0, 0, 0, 0, 0, 10,
    10, 10, 10, 9, 9, 9, 9, 9, 9, 0, 0, 0, 0, 0, 0, 0, 0, 0, 0, 0, 0, 0, 0, 0, 0, 0, 0, 0, 0, 0, 0,
    0, 0, 0, 0, 0, 0, 0, 0, 0, 0, 0, 0, 0, 0, 0, 0, 0, 10, 0, 10, 0, 0, 0, 0, 0, 11, 11, 11, 11,
    11, 11, 11, 11, 11, 11, 11, 11, 11, 11, 11, 11, 11, 11, 11, 11, 11, 11, 11, 11, 11, 11, 11, 11,
    11, 11, 11, 11, 11, 0, 0, 0, 0, 0, 0, 0, 0, 0, 0, 0, 0, 0, 11, 0, 0, 0, 0, 0, 0, 0, 11, 0, 0,
    11, 11, 11, 11, 11, 11, 11, 11, 11, 11, 11, 11, 11, 11, 11, 11, 11, 11, 11, 11, 11, 11, 11, 11,
    11, 0, 0, 0, 0, 0, 0, 0, 0, 0, 0, 0, 0, 0, 0, 0, 0, 0, 0, 0, 0, 0, 0, 0, 0, 0, 0, 0, 0, 0, 0,
    0, 0, 0, 0, 0, 0, 0, 0, 0, 0, 0, 13, 13, 13, 13, 13, 13, 13, 13, 13, 13, 12, 12, 12, 12, 0, 0,
    0, 0, 0, 0, 0, 0, 0, 0, 0, 0, 0, 0, 0, 0, 0, 0, 0, 0, 0, 0, 0, 0, 0, 0, 0, 0, 0, 0, 0, 0, 0, 0,
    0, 13, 0, 13, 0, 0, 0, 0, 0, 14, 14, 14, 14, 14, 14, 14, 14, 14, 14, 14, 14, 14, 14, 14, 14,
    14, 14, 14, 14, 14, 14, 14, 14, 14, 14, 14, 14, 14, 14, 14, 14, 14, 0, 0, 0, 0, 0, 0, 0, 0, 0,
    0, 0, 0, 0, 14, 0, 0, 0, 0, 0, 0, 0, 14, 0, 0, 14, 14, 14, 14, 14, 14, 14, 14, 14, 14, 14, 14,
    14, 14, 14, 14, 14, 14, 14, 14, 14, 14, 14, 14, 14, 0, 0, 0, 0, 0, 0, 0, 0, 0, 0, 0, 0, 0, 0,
    0, 0, 0, 0, 0, 0, 0, 0, 0, 0, 0, 0, 0, 0, 0, 0, 0, 0, 0, 0, 0, 0, 0, 0, 0, 0, 0, 16, 16, 16,
    16, 16, 16, 16, 16, 16, 16, 16, 16, 16, 16, 15, 15, 15, 15, 15, 15, 15, 0, 0, 0, 0, 0, 0, 0, 0,
    0, 0, 0, 0, 0, 0, 0, 0, 0, 0, 0, 0, 0, 0, 0, 0, 0, 0, 0, 0, 16, 0, 16, 0, 0, 0, 0, 0, 18, 18,
    18, 18, 18, 18, 18, 18, 18, 18, 18, 18, 18, 18, 18, 18, 18, 18, 18, 18, 18, 18, 18, 18, 18, 18,
    18, 18, 18, 18, 18, 18, 18, 0, 0, 0, 0, 0, 0, 0, 0, 0, 0, 0, 0, 0, 17, 0, 0, 0, 0, 0, 0, 0, 17,
    0, 0, 18, 18, 18, 18, 18, 18, 18, 18, 18, 18, 18, 18, 18, 18, 18, 18, 18, 18, 18, 18, 18, 18,
    18, 18, 18, 0, 0, 0, 0, 0, 0, 0, 0, 21, 23, 23, 23, 23, 24, 24, 24, 24, 24, 24, 25, 25, 25, 25,
    25, 25, 25, 25, 26, 26, 26, 26, 26, 20, 20, 20, 20, 20, 20, 20, 19, 22, 0, 0, 0, 0, 0, 0, 0, 0,
    0, 0, 0, 0, 0, 0, 0, 0, 0, 0, 0, 0, 0, 0, 0, 0, 21, 21, 21, 21, 21, 21, 21, 21, 21, 21, 21, 21,
    21, 21, 21, 21, 21, 21, 21, 21, 21, 21, 19, 19, 19, 0, 0, 0, 0, 0, 0, 0, 0, 0, 0, 0, 0, 0, 0,
    0, 0, 0, 0, 0, 0, 0, 0, 0, 0, 0, 0, 0, 0, 0, 0, 0, 0, 0, 0, 0, 0, 0, 0, 0, 0, 27, 28, 28, 28,
    28, 28, 28, 28, 28, 28, 28, 28, 28, 28, 28, 28, 28, 28, 28, 28, 28, 28, 0, 0, 0, 0, 0, 0, 0, 0,
    0, 0, 0, 0, 0, 0, 0, 0, 0, 0, 0, 0, 0, 0, 0, 0, 0, 0, 0, 0, 28, 0, 28, 0, 0, 0, 0, 0, 0, 0, 0,
    0, 0, 0, 0, 0, 0, 0, 0, 0, 0, 0, 0, 0, 0, 0, 0, 0, 0, 0, 0, 0, 0, 0, 0, 0, 0, 0, 0, 0, 29, 30,
    30, 30, 30, 30, 30, 30, 30, 30, 30, 30, 30, 30, 30, 30, 30, 30, 30, 30, 30, 30, 0, 0, 0, 0, 0,
    0, 0, 0, 0, 0, 0, 0, 0, 0, 0, 0, 0, 0, 0, 0, 0, 0, 0, 0, 0, 0, 0, 0, 30, 0, 30, 0, 0, 0, 0, 0,
    0, 0, 0, 0, 0, 0, 0, 0, 0, 0, 0, 0, 0, 0, 0, 0, 0, 0, 0, 0, 0, 0, 0, 0, 0, 0, 0, 0, 0, 0, 0, 0,
    31, 32, 32, 32, 32, 32, 32, 32, 32, 32, 32, 32, 32, 32, 32, 32, 32, 32, 32, 32, 32, 32, 0, 0,
    0, 0, 0, 0, 0, 0, 0, 0, 0, 0, 0, 0, 0, 0, 0, 0, 0, 0, 0, 0, 0, 0, 0, 0, 0, 0, 32, 0, 32, 0, 0,
    0, 0, 0, 0, 0, 0, 0, 0, 0, 0, 0, 0, 0, 0, 0, 0, 0, 0, 0, 0, 0, 0, 0, 0, 0, 0, 0, 0, 0, 0, 0, 0,
    0, 0, 0, 33, 34, 34, 34, 34, 34, 34, 34, 34, 34, 34, 34, 34, 34, 34, 34, 34, 34, 34, 34, 34,
    34, 0, 0, 0, 0, 0, 0, 0, 0, 0, 0, 0, 0, 0, 0, 0, 0, 0, 0, 0, 0, 0, 0, 0, 0, 0, 0, 0, 0, 34, 0,
    34, 0, 0, 0, 0, 0, 0, 0, 0, 0, 0, 0, 0, 0, 0, 0, 0, 0, 0, 0, 0, 0, 0, 0, 0, 0, 0, 0, 0, 0, 0,
    0, 0, 0, 0, 0, 0, 0, 0, 0, 0, 0, 0, 0, 0, 0, 0, 0, 0, 0, 0, 0, 0, 0, 0, 0, 0, 0, 0, 0, 0, 0, 0,
    35, 0, 0, 0, 0, 0, 0, 0, 0, 0, 0, 0, 0, 0, 0, 0, 0, 0, 0, 0, 0, 0, 0, 0, 0, 0, 0, 0, 0, 0, 0,
    0, 0, 0, 0, 0, 0, 0, 0, 0, 0, 0, 0, 0, 0, 0, 0, 0, 0, 0, 0, 0, 0, 0, 0, 0, 0, 0, 0, 0, 0, 0, 0,
    0, 0, 0, 0, 0, 0, 0, 0, 0, 0, 0, 0, 0, 0, 0, 0, 0, 0, 0, 0, 0, 0, 0, 0, 0, 0, 0, 0, 0, 0, 0, 0,
    0, 0, 0, 0, 0, 0, 0, 0, 0, 0, 0, 0, 0, 0, 0, 0, 0, 36, 37, 38, 0, 0, 0, 0, 0, 0, 0, 0, 0, 0, 0,
    0, 0, 0, 0, 0, 0, 0, 0, 0, 0, 0, 0, 0, 0, 0, 0, 0, 0, 0, 0, 0, 0, 0, 0, 0, 0, 0, 0, 0, 0, 0, 0,
    0, 0, 0, 0, 0, 0, 0, 0, 0, 0, 0, 0, 0, 0, 0, 0, 0, 0, 0, 0, 0, 0, 0, 0, 39, 40, 40, 0, 0, 0, 0,
    0, 0, 0, 0, 0, 0, 0, 0, 0, 0, 0, 0, 0, 0, 0, 0, 0, 0, 0, 0, 0, 0, 0, 0, 0, 0, 0, 0, 0, 0, 0, 0,
    0, 0, 0, 0, 0, 0, 0, 0, 0, 0, 0, 0, 0, 0, 0, 0, 0, 0, 0, 0, 0, 0, 0, 0, 0, 0, 0, 0, 0, 0, 0, 0,
    0, 0, 0, 0, 0, 0, 0, 0, 0, 0, 0, 0, 0, 0, 0, 0, 0, 0, 0, 0, 0, 0, 0, 41, 0, 0, 0, 0, 0, 0, 0,
    0, 0, 0, 0, 0, 0, 0, 0, 0, 0, 0, 0, 0, 0, 0, 0, 42, 0, 0, 0, 0, 0, 0, 0, 0, 0, 0, 0, 0, 0, 0,
    0, 0, 0, 0, 0, 0, 0, 0, 0, 0, 0, 0, 0, 0, 0, 0, 0, 0, 0, 0, 0, 0, 0, 0, 0, 0, 0, 0, 0, 0, 0, 0,
    0, 0, 0, 0, 0, 0, 0, 0, 0, 0, 0, 0, 0, 0, 0, 0, 43, 44, 0, 0, 0, 0, 0, 0, 0, 0, 0, 0, 0, 0, 0,
    0, 0, 0, 0, 0, 0, 0, 0, 0, 0, 0, 0, 0, 0, 0, 45, 45, 45, 45, 45, 45, 45, 45, 45, 45, 45, 45,
    45, 45, 45, 45, 45, 45, 45, 45, 45, 45, 45, 45, 45, 45, 45, 45, 45, 45, 45, 0, 0, 46, 0, 0, 0,
    0, 0, 0, 0, 0, 0, 0, 0, 0, 0, 0, 0, 0, 0, 0, 0, 0, 0, 0, 0, 45, 45, 45, 45, 45, 45, 45, 45, 45,
    45, 45, 45, 45, 45, 45, 45, 45, 45, 45, 45, 45, 45, 0, 0, 0, 0, 0, 0, 0, 0, 0, 0, 0, 0, 0, 0,
    0, 0, 0, 0, 0, 0, 0, 0, 0, 0, 0, 0, 0, 0, 0, 0, 0, 0, 0, 0, 0, 0, 0, 0, 0, 0, 0, 0, 0, 0, 48,
    47, 0, 0, 0, 0, 0, 0, 0, 0, 0, 0, 0, 0, 0, 0, 0, 0, 0, 0, 0, 0, 0, 0, 0, 0, 0, 0, 0, 0, 0, 0,
    0, 0, 0, 0, 0, 0, 0, 0, 0, 0, 0, 0, 0, 0, 0, 0, 0, 0, 0, 0, 0, 0, 0, 0, 0, 0, 0, 0, 0, 0, 0, 0,
    0, 0, 0, 0, 0, 0, 0, 0, 0, 0, 0, 0, 0, 0, 0, 0, 0, 0, 0, 0, 0, 0, 0, 0, 0, 0, 0, 0, 0, 0, 0, 0,
    0, 0, 0, 0, 0, 0, 0, 0, 0, 0, 0, 0, 0, 0, 0, 0, 0, 0, 0, 0, 0, 0, 0, 50, 0, 0, 0, 0, 0, 0, 0,
    0, 0, 0, 0, 0, 0, 0, 0, 0, 0, 0, 0, 50, 0, 0, 0, 0, 0, 49, 0, 0, 0, 0, 0, 0, 0, 0, 0, 0, 0, 0,
    0, 0, 0, 0, 0, 0, 0, 0, 0, 0, 0, 0, 0, 0, 0, 0, 0, 0, 0, 0, 0, 0, 0, 0, 0, 0, 0, 0, 0, 0, 0, 0,
    0, 0, 0, 0, 0, 0, 0, 0, 0, 0, 0, 0, 0, 0, 0, 0, 0, 0, 0, 51, 0, 0, 0, 0, 0, 0, 0, 0, 0, 0, 0,
    0, 0, 0, 0, 0, 0, 0, 0, 52, 0, 0, 0, 0, 0, 0, 0, 0, 0, 0, 0, 0, 0, 0, 0, 0, 0, 0, 0, 0, 0, 0,
    0, 0, 0, 0, 0, 0, 0, 0, 0, 0, 0, 0, 0, 0, 0, 0, 0, 0, 0, 0, 0, 0, 0, 0, 0, 0, 0, 0, 0, 0, 0, 0,
    0, 0, 0, 0, 0, 0, 0, 0, 0, 0, 0, 0, 0, 0, 0, 0, 0, 0, 0, 0, 0, 0, 0, 0, 0, 0, 0, 0, 0, 0, 0, 0,
    0, 0, 0, 53, 0, 0, 0, 0, 0, 0, 0, 55, 55, 55, 55, 55, 55, 55, 55, 55, 55, 55, 55, 55, 55, 55,
    55, 55, 55, 55, 55, 55, 55, 55, 55, 55, 55, 55, 55, 55, 55, 55, 0, 0, 0, 0, 0, 0, 0, 0, 0, 0,
    0, 0, 0, 0, 0, 0, 0, 0, 0, 0, 0, 0, 0, 0, 0, 0, 55, 55, 55, 55, 55, 55, 55, 54, 55, 56, 55, 55,
    55, 55, 55, 55, 55, 55, 55, 55, 55, 55, 0, 0, 0, 0, 56, 0, 0, 0, 0, 0, 0, 57, 57, 57, 57, 57,
    57, 57, 57, 57, 57, 57, 57, 57, 57, 57, 57, 57, 57, 57, 57, 57, 57, 57, 57, 57, 57, 57, 57, 57,
    57, 57, 0, 0, 0, 0, 0, 0, 0, 0, 0, 0, 0, 0, 0, 0, 0, 0, 0, 0, 0, 0, 0, 0, 0, 0, 0, 0, 57, 57,
    57, 57, 57, 57, 57, 57, 57, 57, 57, 57, 57, 57, 57, 57, 57, 57, 57, 57, 57, 57, 0, 0, 0, 0, 0,
    0, 0, 58, 0, 0, 0, 59, 59, 59, 59, 59, 59, 59, 59, 59, 59, 59, 59, 59, 59, 59, 59, 59, 59, 59,
    59, 59, 59, 59, 59, 59, 59, 59, 59, 59, 59, 59, 0, 0, 0, 0, 0, 0, 0, 0, 0, 0, 0, 0, 0, 0, 0, 0,
    0, 0, 0, 0, 0, 0, 0, 0, 0, 0, 59, 59, 59, 59, 59, 59, 59, 59, 59, 60, 59, 59, 59, 59, 59, 59,
    59, 59, 59, 59, 59, 59, 0, 0, 0, 0, 60, 0, 0, 0, 0, 0, 0, 0, 0, 0, 0, 0, 0, 0, 0, 0, 0, 0, 0,
    0, 0, 0, 0, 0, 0, 0, 0, 0, 0, 0, 0, 0, 0, 0, 0, 0, 0, 0, 0, 0, 0, 0, 0, 0, 0, 0, 0, 0, 0, 0, 0,
    0, 0, 0, 0, 0, 0, 0, 0, 0, 0, 0, 0, 0, 0, 0, 0, 0, 0, 0, 0, 0, 0, 61, 0, 0, 0, 0, 0, 0, 0, 0,
    0, 0, 0, 0, 0, 0, 0, 0, 62, 0, 0, 0, 0, 0,
];

pub const WIDTH: u8 = 90;

/// The spec grammar.
pub fn spec_grammar() -> Grammar
    ensures tables { tables_of result ≡ spec_tables }
    ensures text { MayBegin (tables_of result) NAME_TEXT }
{
    Grammar {
        roots: &ROOTS,
        names: &NAMES,
        symbols: &SYMBOLS,
        starts: &STARTS,
        classes: &CLASSES,
        set_starts: &SET_STARTS,
        table: &TABLE,
        width: WIDTH,
    }
}
