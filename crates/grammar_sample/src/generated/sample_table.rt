//! The sample grammar as tables. Made by tools/grammar.py from sample.grammar: edit that.
ghost use Rattle.std.specs.Prelude.{◌≡◌};
ghost use Rattle.gv_grammar.specs.Derivation.{tables_of};
ghost use Rattle.gv_grammar.specs.Predictive.{MayBegin};
ghost use Rattle.grammar_sample.specs.SampleTable.{sample_tables};

use gv_grammar::{Grammar, OPEN, OPEN_BEFORE, RESTORE, SAVE, Symbol};

pub const CLASS_IDENT: u8 = 1;

pub const CLASS_NUMBER: u8 = 2;

pub const CLASS_FUNC: u8 = 3;

pub const CLASS_L_PAREN: u8 = 4;

pub const CLASS_R_PAREN: u8 = 5;

pub const CLASS_COMMA: u8 = 6;

pub const CLASS_SEMI: u8 = 7;

pub const CLASS_ASSIGN: u8 = 8;

pub const CLASS_DEFINE: u8 = 9;

pub const CLASS_BANG: u8 = 10;

pub const CLASS_PLUS: u8 = 11;

pub const CLASS_MINUS: u8 = 12;

pub const CLASS_STAR: u8 = 13;

pub const CLASS_L_BRACE: u8 = 14;

pub const CLASS_R_BRACE: u8 = 15;

pub const CLASS_DOT: u8 = 16;

pub const CLASS_IF: u8 = 17;

pub const CLASS_ELSE: u8 = 18;

pub const SET_ADD_OP: u8 = 0;

pub const SET_ASSIGN_OP: u8 = 1;

pub const SET_L_BRACE: u8 = 2;

pub const SET_R_BRACE: u8 = 3;

pub const SET_SEMI: u8 = 4;

pub const SET_IF: u8 = 5;

pub const SET_ELSE: u8 = 6;

pub const SET_IDENT: u8 = 7;

pub const SET_DOT: u8 = 8;

pub const SET_L_PAREN: u8 = 9;

pub const SET_R_PAREN: u8 = 10;

pub const SET_BANG: u8 = 11;

pub const SET_STAR: u8 = 12;

pub const SET_NUMBER: u8 = 13;

pub const SET_FUNC: u8 = 14;

pub const SET_COMMA: u8 = 15;

pub const NAME_BLOCK: u8 = 0;

pub const NAME_STMTS: u8 = 1;

pub const NAME_AFTER: u8 = 2;

pub const NAME_STMT: u8 = 3;

pub const NAME_BRANCH: u8 = 4;

pub const NAME_BRANCH_REST: u8 = 5;

pub const NAME_OTHERWISE: u8 = 6;

pub const NAME_OTHER: u8 = 7;

pub const NAME_SIMPLE: u8 = 8;

pub const NAME_DOTS: u8 = 9;

pub const NAME_SPOT: u8 = 10;

pub const NAME_RIGHT: u8 = 11;

pub const NAME_RIGHT_DOTS: u8 = 12;

pub const NAME_RIGHT_SPOT: u8 = 13;

pub const NAME_SUM: u8 = 14;

pub const NAME_SUM_TAIL: u8 = 15;

pub const NAME_PRODUCT: u8 = 16;

pub const NAME_PRODUCT_TAIL: u8 = 17;

pub const NAME_UNARY: u8 = 18;

pub const NAME_PRIM: u8 = 19;

pub const NAME_CLOSED: u8 = 20;

pub const NAME_SELECTS: u8 = 21;

pub const NAME_ARGS: u8 = 22;

pub const NAME_MORE_ARGS: u8 = 23;

pub const ACT_BEGIN: u8 = 4;

pub const ACT_BLOCK: u8 = 5;

pub const ACT_ADD: u8 = 6;

pub const ACT_SEPARATED: u8 = 7;

pub const ACT_NESTED: u8 = 8;

pub const ACT_IF: u8 = 9;

pub const ACT_IF_ELSE: u8 = 10;

pub const ACT_HEAD: u8 = 11;

pub const ACT_NUMBER: u8 = 12;

pub const ACT_NONE: u8 = 13;

pub const ACT_APPLY: u8 = 14;

pub const ACT_PAREN: u8 = 15;

pub const ACT_MEMBER: u8 = 16;

pub const ACT_MORE: u8 = 17;

pub const ACT_CALL: u8 = 18;

pub const ACT_CALLED: u8 = 19;

pub const ACT_ASSIGN: u8 = 20;

pub const ACT_NOT: u8 = 21;

pub const ACT_VALUE: u8 = 22;

pub const ACT_CALL_VALUE: u8 = 23;

pub const ACT_OPERAND: u8 = 24;

pub const ACT_BINARY: u8 = 25;

pub const ACT_NAME: u8 = 26;

pub const ACT_SELECT: u8 = 27;

pub const ACT_FIRST: u8 = 28;

pub const ACT_NEXT: u8 = 29;

pub const RULE_BLOCK_BRACES: u16 = 0;

pub const RULE_STMTS_SOME: u16 = 1;

pub const RULE_STMTS_NONE: u16 = 2;

pub const RULE_AFTER_MORE: u16 = 3;

pub const RULE_AFTER_END: u16 = 4;

pub const RULE_STMT_SIMPLE: u16 = 5;

pub const RULE_STMT_BLOCK: u16 = 6;

pub const RULE_STMT_BRANCH: u16 = 7;

pub const RULE_BRANCH_CONDITION: u16 = 8;

pub const RULE_BRANCH_REST_BODY: u16 = 9;

pub const RULE_OTHERWISE_OTHER: u16 = 10;

pub const RULE_OTHERWISE_NONE: u16 = 11;

pub const RULE_OTHER_BLOCK: u16 = 12;

pub const RULE_OTHER_BRANCH: u16 = 13;

pub const RULE_SIMPLE_NAME: u16 = 14;

pub const RULE_SIMPLE_CLOSED: u16 = 15;

pub const RULE_DOTS_MEMBER: u16 = 16;

pub const RULE_SPOT_MEMBER: u16 = 17;

pub const RULE_SPOT_CALL: u16 = 18;

pub const RULE_SPOT_ASSIGN: u16 = 19;

pub const RULE_RIGHT_NOT: u16 = 20;

pub const RULE_RIGHT_CLOSED: u16 = 21;

pub const RULE_RIGHT_NAME: u16 = 22;

pub const RULE_RIGHT_DOTS_MEMBER: u16 = 23;

pub const RULE_RIGHT_DOTS_VALUE: u16 = 24;

pub const RULE_RIGHT_SPOT_MEMBER: u16 = 25;

pub const RULE_RIGHT_SPOT_CALL: u16 = 26;

pub const RULE_RIGHT_SPOT_VALUE: u16 = 27;

pub const RULE_SUM_PRODUCT: u16 = 28;

pub const RULE_SUM_TAIL_MORE: u16 = 29;

pub const RULE_SUM_TAIL_END: u16 = 30;

pub const RULE_PRODUCT_UNARY: u16 = 31;

pub const RULE_PRODUCT_TAIL_MORE: u16 = 32;

pub const RULE_PRODUCT_TAIL_END: u16 = 33;

pub const RULE_UNARY_NOT: u16 = 34;

pub const RULE_UNARY_PRIM: u16 = 35;

pub const RULE_PRIM_CLOSED: u16 = 36;

pub const RULE_PRIM_NAME: u16 = 37;

pub const RULE_CLOSED_NUMBER: u16 = 38;

pub const RULE_CLOSED_APPLY: u16 = 39;

pub const RULE_CLOSED_PAREN: u16 = 40;

pub const RULE_SELECTS_MORE: u16 = 41;

pub const RULE_SELECTS_END: u16 = 42;

pub const RULE_ARGS_SOME: u16 = 43;

pub const RULE_ARGS_NONE: u16 = 44;

pub const RULE_MORE_ARGS_MORE: u16 = 45;

pub const RULE_MORE_ARGS_END: u16 = 46;

pub static ROOTS: [u8; 2] = [0, 14];

pub static NAMES: [u8; 47] = [
    0, 1, 1, 2, 2, 3, 3, 3, 4, 5, 6, 6, 7, 7, 8, 8, 9, 10, 10, 10, 11, 11, 11, 12, 12, 13, 13, 13,
    14, 15, 15, 16, 17, 17, 18, 18, 19, 19, 20, 20, 20, 21, 21, 22, 22, 23, 23,
];

pub static STARTS: [u16; 48] = [
    0, 8, 11, 11, 14, 14, 17, 19, 22, 24, 29, 31, 32, 35, 39, 42, 44, 49, 54, 63, 68, 75, 77, 80,
    85, 88, 93, 102, 106, 108, 113, 113, 115, 120, 120, 124, 125, 127, 130, 132, 141, 148, 153,
    153, 158, 158, 164, 164,
];

pub static SYMBOLS: [Symbol; 164] = [
    // Block/braces = {SAVE} {OPEN} LBrace {BEGIN} Stmts RBrace {RESTORE} {BLOCK}
    Symbol::Act(SAVE),
    Symbol::Act(OPEN),
    Symbol::Token(SET_L_BRACE),
    Symbol::Act(ACT_BEGIN),
    Symbol::Name(NAME_STMTS),
    Symbol::Token(SET_R_BRACE),
    Symbol::Act(RESTORE),
    Symbol::Act(ACT_BLOCK),
    // Stmts/some = Stmt {ADD} After
    Symbol::Name(NAME_STMT),
    Symbol::Act(ACT_ADD),
    Symbol::Name(NAME_AFTER),
    // Stmts/none =
    // After/more = Semi {SEPARATED} Stmts
    Symbol::Token(SET_SEMI),
    Symbol::Act(ACT_SEPARATED),
    Symbol::Name(NAME_STMTS),
    // After/end =
    // Stmt/simple = {SAVE} Simple {RESTORE}
    Symbol::Act(SAVE),
    Symbol::Name(NAME_SIMPLE),
    Symbol::Act(RESTORE),
    // Stmt/block = Block {NESTED}
    Symbol::Name(NAME_BLOCK),
    Symbol::Act(ACT_NESTED),
    // Stmt/branch = {SAVE} Branch {RESTORE}
    Symbol::Act(SAVE),
    Symbol::Name(NAME_BRANCH),
    Symbol::Act(RESTORE),
    // Branch/condition = If BranchRest
    Symbol::Token(SET_IF),
    Symbol::Name(NAME_BRANCH_REST),
    // BranchRest/body = {SAVE} Sum {RESTORE} Block Otherwise
    Symbol::Act(SAVE),
    Symbol::Name(NAME_SUM),
    Symbol::Act(RESTORE),
    Symbol::Name(NAME_BLOCK),
    Symbol::Name(NAME_OTHERWISE),
    // Otherwise/other = Else Other
    Symbol::Token(SET_ELSE),
    Symbol::Name(NAME_OTHER),
    // Otherwise/none = {IF}
    Symbol::Act(ACT_IF),
    // Other/block = Block {NESTED} {IF_ELSE}
    Symbol::Name(NAME_BLOCK),
    Symbol::Act(ACT_NESTED),
    Symbol::Act(ACT_IF_ELSE),
    // Other/branch = {OPEN_BEFORE} If BranchRest {IF_ELSE}
    Symbol::Act(OPEN_BEFORE),
    Symbol::Token(SET_IF),
    Symbol::Name(NAME_BRANCH_REST),
    Symbol::Act(ACT_IF_ELSE),
    // Simple/name = Ident {HEAD} Spot
    Symbol::Token(SET_IDENT),
    Symbol::Act(ACT_HEAD),
    Symbol::Name(NAME_SPOT),
    // Simple/closed = Closed Dots
    Symbol::Name(NAME_CLOSED),
    Symbol::Name(NAME_DOTS),
    // Dots/member = {OPEN} Dot Ident {MEMBER} Spot
    Symbol::Act(OPEN),
    Symbol::Token(SET_DOT),
    Symbol::Token(SET_IDENT),
    Symbol::Act(ACT_MEMBER),
    Symbol::Name(NAME_SPOT),
    // Spot/member = {OPEN} Dot Ident {MORE} Spot
    Symbol::Act(OPEN),
    Symbol::Token(SET_DOT),
    Symbol::Token(SET_IDENT),
    Symbol::Act(ACT_MORE),
    Symbol::Name(NAME_SPOT),
    // Spot/call = {SAVE} {OPEN} LParen {NONE} Args RParen {RESTORE} {CALL} {CALLED}
    Symbol::Act(SAVE),
    Symbol::Act(OPEN),
    Symbol::Token(SET_L_PAREN),
    Symbol::Act(ACT_NONE),
    Symbol::Name(NAME_ARGS),
    Symbol::Token(SET_R_PAREN),
    Symbol::Act(RESTORE),
    Symbol::Act(ACT_CALL),
    Symbol::Act(ACT_CALLED),
    // Spot/assign = {RESTORE} {SAVE} AssignOp Right {ASSIGN}
    Symbol::Act(RESTORE),
    Symbol::Act(SAVE),
    Symbol::Token(SET_ASSIGN_OP),
    Symbol::Name(NAME_RIGHT),
    Symbol::Act(ACT_ASSIGN),
    // Right/not = {OPEN} Bang Unary {NOT} ProductTail SumTail {VALUE}
    Symbol::Act(OPEN),
    Symbol::Token(SET_BANG),
    Symbol::Name(NAME_UNARY),
    Symbol::Act(ACT_NOT),
    Symbol::Name(NAME_PRODUCT_TAIL),
    Symbol::Name(NAME_SUM_TAIL),
    Symbol::Act(ACT_VALUE),
    // Right/closed = Closed RightDots
    Symbol::Name(NAME_CLOSED),
    Symbol::Name(NAME_RIGHT_DOTS),
    // Right/name = Ident {HEAD} RightSpot
    Symbol::Token(SET_IDENT),
    Symbol::Act(ACT_HEAD),
    Symbol::Name(NAME_RIGHT_SPOT),
    // RightDots/member = {OPEN} Dot Ident {MEMBER} RightSpot
    Symbol::Act(OPEN),
    Symbol::Token(SET_DOT),
    Symbol::Token(SET_IDENT),
    Symbol::Act(ACT_MEMBER),
    Symbol::Name(NAME_RIGHT_SPOT),
    // RightDots/value = ProductTail SumTail {VALUE}
    Symbol::Name(NAME_PRODUCT_TAIL),
    Symbol::Name(NAME_SUM_TAIL),
    Symbol::Act(ACT_VALUE),
    // RightSpot/member = {OPEN} Dot Ident {MORE} RightSpot
    Symbol::Act(OPEN),
    Symbol::Token(SET_DOT),
    Symbol::Token(SET_IDENT),
    Symbol::Act(ACT_MORE),
    Symbol::Name(NAME_RIGHT_SPOT),
    // RightSpot/call = {SAVE} {OPEN} LParen {NONE} Args RParen {RESTORE} {CALL} {CALL_VALUE}
    Symbol::Act(SAVE),
    Symbol::Act(OPEN),
    Symbol::Token(SET_L_PAREN),
    Symbol::Act(ACT_NONE),
    Symbol::Name(NAME_ARGS),
    Symbol::Token(SET_R_PAREN),
    Symbol::Act(RESTORE),
    Symbol::Act(ACT_CALL),
    Symbol::Act(ACT_CALL_VALUE),
    // RightSpot/value = {OPERAND} ProductTail SumTail {VALUE}
    Symbol::Act(ACT_OPERAND),
    Symbol::Name(NAME_PRODUCT_TAIL),
    Symbol::Name(NAME_SUM_TAIL),
    Symbol::Act(ACT_VALUE),
    // Sum/product = Product SumTail
    Symbol::Name(NAME_PRODUCT),
    Symbol::Name(NAME_SUM_TAIL),
    // SumTail/more = {OPEN} AddOp Product {BINARY} SumTail
    Symbol::Act(OPEN),
    Symbol::Token(SET_ADD_OP),
    Symbol::Name(NAME_PRODUCT),
    Symbol::Act(ACT_BINARY),
    Symbol::Name(NAME_SUM_TAIL),
    // SumTail/end =
    // Product/unary = Unary ProductTail
    Symbol::Name(NAME_UNARY),
    Symbol::Name(NAME_PRODUCT_TAIL),
    // ProductTail/more = {OPEN} Star Unary {BINARY} ProductTail
    Symbol::Act(OPEN),
    Symbol::Token(SET_STAR),
    Symbol::Name(NAME_UNARY),
    Symbol::Act(ACT_BINARY),
    Symbol::Name(NAME_PRODUCT_TAIL),
    // ProductTail/end =
    // Unary/not = {OPEN} Bang Unary {NOT}
    Symbol::Act(OPEN),
    Symbol::Token(SET_BANG),
    Symbol::Name(NAME_UNARY),
    Symbol::Act(ACT_NOT),
    // Unary/prim = Prim
    Symbol::Name(NAME_PRIM),
    // Prim/closed = Closed Selects
    Symbol::Name(NAME_CLOSED),
    Symbol::Name(NAME_SELECTS),
    // Prim/name = Ident {NAME} Selects
    Symbol::Token(SET_IDENT),
    Symbol::Act(ACT_NAME),
    Symbol::Name(NAME_SELECTS),
    // Closed/number = Number {NUMBER}
    Symbol::Token(SET_NUMBER),
    Symbol::Act(ACT_NUMBER),
    // Closed/apply = Func {SAVE} {OPEN} LParen {NONE} Args RParen {RESTORE} {APPLY}
    Symbol::Token(SET_FUNC),
    Symbol::Act(SAVE),
    Symbol::Act(OPEN),
    Symbol::Token(SET_L_PAREN),
    Symbol::Act(ACT_NONE),
    Symbol::Name(NAME_ARGS),
    Symbol::Token(SET_R_PAREN),
    Symbol::Act(RESTORE),
    Symbol::Act(ACT_APPLY),
    // Closed/paren = {SAVE} {OPEN} LParen Sum RParen {RESTORE} {PAREN}
    Symbol::Act(SAVE),
    Symbol::Act(OPEN),
    Symbol::Token(SET_L_PAREN),
    Symbol::Name(NAME_SUM),
    Symbol::Token(SET_R_PAREN),
    Symbol::Act(RESTORE),
    Symbol::Act(ACT_PAREN),
    // Selects/more = {OPEN} Dot Ident {SELECT} Selects
    Symbol::Act(OPEN),
    Symbol::Token(SET_DOT),
    Symbol::Token(SET_IDENT),
    Symbol::Act(ACT_SELECT),
    Symbol::Name(NAME_SELECTS),
    // Selects/end =
    // Args/some = {SAVE} Sum {RESTORE} {FIRST} MoreArgs
    Symbol::Act(SAVE),
    Symbol::Name(NAME_SUM),
    Symbol::Act(RESTORE),
    Symbol::Act(ACT_FIRST),
    Symbol::Name(NAME_MORE_ARGS),
    // Args/none =
    // MoreArgs/more = Comma {SAVE} Sum {RESTORE} {NEXT} MoreArgs
    Symbol::Token(SET_COMMA),
    Symbol::Act(SAVE),
    Symbol::Name(NAME_SUM),
    Symbol::Act(RESTORE),
    Symbol::Act(ACT_NEXT),
    Symbol::Name(NAME_MORE_ARGS),
    // MoreArgs/end =
];

pub static CLASSES: [u8; 18] = [
    11, 12, 8, 9, 14, 15, 7, 17, 18, 1, 16, 4, 5, 10, 13, 2, 3, 6,
];

pub static SET_STARTS: [u16; 17] = [0, 2, 4, 5, 6, 7, 8, 9, 10, 11, 12, 13, 14, 15, 16, 17, 18];

pub static TABLE: [u16; 456] = [
    0, 0, 0, 0, 0, 0, 0, 0, 0, 0, 0, 0, 0, 0, 1, 0, 0, 0, 0, 0, 2, 2, 2, 2, 0, 0, 0, 0, 0, 0, 0, 0,
    0, 2, 3, 0, 2, 0, 0, 0, 0, 0, 0, 0, 0, 4, 0, 0, 0, 0, 0, 0, 0, 5, 0, 0, 0, 0, 6, 6, 6, 6, 0, 0,
    0, 0, 0, 0, 0, 0, 0, 7, 0, 0, 8, 0, 0, 0, 0, 0, 0, 0, 0, 0, 0, 0, 0, 0, 0, 0, 0, 0, 0, 9, 0, 0,
    10, 10, 10, 10, 0, 0, 0, 0, 0, 10, 0, 0, 0, 0, 0, 0, 0, 0, 0, 0, 0, 0, 0, 0, 0, 12, 0, 0, 0, 0,
    0, 0, 0, 12, 0, 0, 11, 0, 0, 0, 0, 0, 0, 0, 0, 0, 0, 0, 0, 0, 0, 13, 0, 0, 14, 0, 0, 15, 16,
    16, 16, 0, 0, 0, 0, 0, 0, 0, 0, 0, 0, 0, 0, 0, 0, 0, 0, 0, 0, 0, 0, 0, 0, 0, 0, 0, 0, 0, 0, 0,
    0, 17, 0, 0, 0, 0, 0, 0, 19, 0, 0, 0, 20, 20, 0, 0, 0, 0, 0, 0, 18, 0, 0, 0, 23, 22, 22, 22, 0,
    0, 0, 0, 0, 21, 0, 0, 0, 0, 0, 0, 0, 0, 0, 0, 0, 0, 0, 0, 0, 25, 0, 0, 0, 25, 25, 25, 0, 25,
    24, 0, 0, 0, 0, 0, 0, 27, 0, 0, 28, 0, 0, 0, 28, 28, 28, 0, 28, 26, 0, 0, 0, 29, 29, 29, 29, 0,
    0, 0, 0, 0, 29, 0, 0, 0, 0, 0, 0, 0, 0, 31, 0, 0, 0, 0, 31, 31, 31, 0, 0, 0, 30, 30, 0, 31, 31,
    0, 0, 0, 0, 32, 32, 32, 32, 0, 0, 0, 0, 0, 32, 0, 0, 0, 0, 0, 0, 0, 0, 34, 0, 0, 0, 0, 34, 34,
    34, 0, 0, 0, 34, 34, 33, 34, 34, 0, 0, 0, 0, 36, 36, 36, 36, 0, 0, 0, 0, 0, 35, 0, 0, 0, 0, 0,
    0, 0, 0, 0, 38, 37, 37, 37, 0, 0, 0, 0, 0, 0, 0, 0, 0, 0, 0, 0, 0, 0, 0, 0, 39, 40, 41, 0, 0,
    0, 0, 0, 0, 0, 0, 0, 0, 0, 0, 0, 0, 43, 0, 0, 0, 0, 43, 43, 43, 0, 0, 0, 43, 43, 43, 43, 43,
    42, 0, 0, 0, 44, 44, 44, 44, 45, 0, 0, 0, 0, 44, 0, 0, 0, 0, 0, 0, 0, 0, 0, 0, 0, 0, 0, 47, 46,
    0, 0, 0, 0, 0, 0, 0, 0, 0, 0, 0, 0,
];

pub const WIDTH: u8 = 19;

/// The sample grammar.
pub fn sample_grammar() -> Grammar
    ensures tables { tables_of result ≡ sample_tables }
    ensures block { MayBegin (tables_of result) NAME_BLOCK }
    ensures sum { MayBegin (tables_of result) NAME_SUM }
{
    Grammar {
        roots: &ROOTS,
        names: &NAMES,
        symbols: &SYMBOLS,
        starts: &STARTS,
        classes: &CLASSES,
        set_starts: &SET_STARTS,
        table: &TABLE,
        width: WIDTH,
    }
}
