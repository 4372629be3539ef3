//! The script grammar as tables. Made by tools/grammar.py from script.grammar: edit that.
ghost use Rattle.std.specs.Prelude.{◌≡◌};
ghost use Rattle.gv_grammar.specs.Derivation.{tables_of};
ghost use Rattle.gv_grammar.specs.Predictive.{MayBegin};
ghost use Rattle.gv_scriptsyntax.specs.ScriptTable.{script_tables};

use gv_grammar::{Grammar, OPEN, RESTORE, SAVE, Symbol};
use gv_termread::generated::term_table::{
    ACT_BINARY, ACT_CONSTANT, ACT_MAKER, ACT_NUMBER, ACT_OF_ONE, ACT_OF_THREE, ACT_OF_TWO,
    ACT_PAREN, ACT_UNARY, ACT_VARIABLE, NAME_COMPARISON, NAME_COMPARISON_TAIL, NAME_CONJUNCTION,
    NAME_CONJUNCTION_TAIL, NAME_DISJUNCTION, NAME_DISJUNCTION_TAIL, NAME_MAKER_REST, NAME_ONE_REST,
    NAME_PRIM, NAME_PRODUCT, NAME_PRODUCT_TAIL, NAME_SUM, NAME_SUM_TAIL, NAME_THREE_REST,
    NAME_TWO_REST, NAME_UNARY, NAME_WHOLE, SET_ADDING, SET_AND_AND, SET_ANY_NUMBER, SET_COMMA,
    SET_COMPARING, SET_CONSTANT, SET_FREE, SET_INVERTING, SET_L_PAREN, SET_MAKER, SET_MULTIPLYING,
    SET_OF_ONE, SET_OF_THREE, SET_OF_TWO, SET_OR_OR, SET_R_PAREN,
};

pub const CLASS_BOOK_WORD: u8 = 58;

pub const CLASS_PRED_WORD: u8 = 59;

pub const CLASS_CRASH_WORD: u8 = 60;

pub const CLASS_ROOT_WORD: u8 = 61;

pub const CLASS_INIT_WORD: u8 = 62;

pub const CLASS_RECOVER_WORD: u8 = 63;

pub const CLASS_OP_WORD: u8 = 64;

pub const CLASS_PROC_WORD: u8 = 65;

pub const CLASS_CASE_WORD: u8 = 66;

pub const CLASS_OWN_WORD: u8 = 67;

pub const CLASS_VARS_WORD: u8 = 68;

pub const CLASS_PRE_WORD: u8 = 69;

pub const CLASS_POST_WORD: u8 = 70;

pub const CLASS_CUT_WORD: u8 = 71;

pub const CLASS_SHARED_WORD: u8 = 72;

pub const CLASS_LOCALS_WORD: u8 = 73;

pub const CLASS_FOLD_WORD: u8 = 74;

pub const CLASS_UNFOLD_WORD: u8 = 75;

pub const CLASS_ON_ATOM_WORD: u8 = 76;

pub const CLASS_HAVE_WORD: u8 = 77;

pub const CLASS_BY_WORD: u8 = 78;

pub const CLASS_LET_WORD: u8 = 79;

pub const CLASS_REWRITE_WORD: u8 = 80;

pub const CLASS_TO_WORD: u8 = 81;

pub const CLASS_ABSURD_WORD: u8 = 82;

pub const CLASS_CLASH_WORD: u8 = 83;

pub const CLASS_CASES_WORD: u8 = 84;

pub const CLASS_ON_PAIR_WORD: u8 = 85;

pub const CLASS_HALVES_WORD: u8 = 86;

pub const CLASS_NEW_WORD: u8 = 87;

pub const CLASS_AS_WORD: u8 = 88;

pub const CLASS_SET_WORD: u8 = 89;

pub const CLASS_TAKE_WORD: u8 = 90;

pub const CLASS_SPLIT_PART_WORD: u8 = 91;

pub const CLASS_WITH_WORD: u8 = 92;

pub const CLASS_ALONE_WORD: u8 = 93;

pub const CLASS_SIM_WORD: u8 = 94;

pub const CLASS_SHARE_WORD: u8 = 95;

pub const CLASS_BOOT_WORD: u8 = 96;

pub const CLASS_GUARD_WORD: u8 = 97;

pub const CLASS_FORGET_WORD: u8 = 98;

pub const CLASS_STEP_WORD: u8 = 99;

pub const CLASS_DURING_WORD: u8 = 100;

pub const CLASS_MERGE_WORD: u8 = 101;

pub const CLASS_VOID_WORD: u8 = 102;

pub const CLASS_YIELD_WORD: u8 = 103;

pub const CLASS_GIVEN_WORD: u8 = 104;

pub const CLASS_AXIOM_WORD: u8 = 105;

pub const CLASS_SUBST_WORD: u8 = 106;

pub const CLASS_IN_WORD: u8 = 107;

pub const CLASS_CONTRA_WORD: u8 = 108;

pub const CLASS_LINEAR_WORD: u8 = 109;

pub const CLASS_STEPS_WORD: u8 = 110;

pub const CLASS_EXCEPT_WORD: u8 = 111;

pub const CLASS_ONE_ATOM_WORD: u8 = 112;

pub const CLASS_TWO_ATOM_WORD: u8 = 113;

pub const CLASS_MAP_WORD: u8 = 114;

pub const CLASS_THREE_ATOM_WORD: u8 = 115;

pub const CLASS_CELL_ATOM_WORD: u8 = 116;

pub const CLASS_FIELD_ATOM_WORD: u8 = 117;

pub const CLASS_BOOK_ATOM_WORD: u8 = 118;

pub const CLASS_LOCK_WORD: u8 = 119;

pub const CLASS_TOKEN_WORD: u8 = 120;

pub const CLASS_DONE_WORD: u8 = 121;

pub const CLASS_EACH_WORD: u8 = 122;

pub const CLASS_SORT_WORD: u8 = 123;

pub const CLASS_LIMIT_NUMBER: u8 = 124;

pub const CLASS_L_BRACE: u8 = 125;

pub const CLASS_R_BRACE: u8 = 126;

pub const CLASS_L_BRACKET: u8 = 127;

pub const CLASS_R_BRACKET: u8 = 128;

pub const CLASS_SEMI: u8 = 129;

pub const CLASS_COLON: u8 = 130;

pub const CLASS_ASSIGN: u8 = 131;

pub const CLASS_DOT_DOT: u8 = 132;

pub const CLASS_HOLE: u8 = 133;

pub const SET_PLAIN_NAME: u8 = 16;

pub const SET_PREDICATE: u8 = 17;

pub const SET_ID: u8 = 18;

pub const SET_TWO_ATOM: u8 = 19;

pub const SET_MODE: u8 = 20;

pub const SET_ON_BLOCK: u8 = 21;

pub const SET_TAKE_PUT: u8 = 22;

pub const SET_VOID_ITEM: u8 = 23;

pub const SET_FACTOR: u8 = 24;

pub const SET_NEGATIVE_FACTOR: u8 = 25;

pub const SET_OTHER_COMPARING: u8 = 26;

pub const SET_CRASH_WORD: u8 = 27;

pub const SET_SEMI: u8 = 28;

pub const SET_ROOT_WORD: u8 = 29;

pub const SET_INIT_WORD: u8 = 30;

pub const SET_RECOVER_WORD: u8 = 31;

pub const SET_BOOK_WORD: u8 = 32;

pub const SET_COLON: u8 = 33;

pub const SET_SORT_WORD: u8 = 34;

pub const SET_ASSIGN: u8 = 35;

pub const SET_PRED_WORD: u8 = 36;

pub const SET_L_BRACE: u8 = 37;

pub const SET_R_BRACE: u8 = 38;

pub const SET_CASE_WORD: u8 = 39;

pub const SET_CUT_WORD: u8 = 40;

pub const SET_AT_WORD: u8 = 41;

pub const SET_LOCALS_WORD: u8 = 42;

pub const SET_VARS_WORD: u8 = 43;

pub const SET_OP_WORD: u8 = 44;

pub const SET_PROC_WORD: u8 = 45;

pub const SET_PRE_WORD: u8 = 46;

pub const SET_POST_WORD: u8 = 47;

pub const SET_OWN_WORD: u8 = 48;

pub const SET_EACH_WORD: u8 = 49;

pub const SET_ONE_ATOM_WORD: u8 = 50;

pub const SET_THREE_ATOM_WORD: u8 = 51;

pub const SET_CELL_ATOM_WORD: u8 = 52;

pub const SET_FIELD_ATOM_WORD: u8 = 53;

pub const SET_BOOK_ATOM_WORD: u8 = 54;

pub const SET_LOCK_WORD: u8 = 55;

pub const SET_TOKEN_WORD: u8 = 56;

pub const SET_DONE_WORD: u8 = 57;

pub const SET_IN_WORD: u8 = 58;

pub const SET_DOT_DOT: u8 = 59;

pub const SET_EXCEPT_WORD: u8 = 60;

pub const SET_BANG: u8 = 61;

pub const SET_EQUAL: u8 = 62;

pub const SET_GIVEN_WORD: u8 = 63;

pub const SET_AXIOM_WORD: u8 = 64;

pub const SET_SUBST_WORD: u8 = 65;

pub const SET_CONTRA_WORD: u8 = 66;

pub const SET_LINEAR_WORD: u8 = 67;

pub const SET_L_BRACKET: u8 = 68;

pub const SET_R_BRACKET: u8 = 69;

pub const SET_CASES_WORD: u8 = 70;

pub const SET_STEPS_WORD: u8 = 71;

pub const SET_MINUS: u8 = 72;

pub const SET_HAVE_WORD: u8 = 73;

pub const SET_BY_WORD: u8 = 74;

pub const SET_HOLE: u8 = 75;

pub const SET_ON_ATOM_WORD: u8 = 76;

pub const SET_LET_WORD: u8 = 77;

pub const SET_REWRITE_WORD: u8 = 78;

pub const SET_TO_WORD: u8 = 79;

pub const SET_CLASH_WORD: u8 = 80;

pub const SET_ON_PAIR_WORD: u8 = 81;

pub const SET_HALVES_WORD: u8 = 82;

pub const SET_SPLIT_PART_WORD: u8 = 83;

pub const SET_MAP_WORD: u8 = 84;

pub const SET_WITH_WORD: u8 = 85;

pub const SET_ALONE_WORD: u8 = 86;

pub const SET_SIM_WORD: u8 = 87;

pub const SET_BOOT_WORD: u8 = 88;

pub const SET_GUARD_WORD: u8 = 89;

pub const SET_FORGET_WORD: u8 = 90;

pub const SET_MERGE_WORD: u8 = 91;

pub const SET_VOID_WORD: u8 = 92;

pub const SET_YIELD_WORD: u8 = 93;

pub const SET_SL_WORD: u8 = 94;

pub const SET_NEW_WORD: u8 = 95;

pub const SET_AS_WORD: u8 = 96;

pub const SET_SET_WORD: u8 = 97;

pub const SET_DURING_WORD: u8 = 98;

pub const SET_UNFOLD_WORD: u8 = 99;

pub const SET_STEP_WORD: u8 = 100;

pub const SET_ABSURD_WORD: u8 = 101;

pub const SET_FOLD_WORD: u8 = 102;

pub const NAME_TEXT: u8 = 17;

pub const NAME_BOOKS: u8 = 18;

pub const NAME_PREDS: u8 = 19;

pub const NAME_CASE: u8 = 20;

pub const NAME_CASES: u8 = 21;

pub const NAME_CUTS: u8 = 22;

pub const NAME_OPS: u8 = 23;

pub const NAME_PROCS: u8 = 24;

pub const NAME_OWN: u8 = 25;

pub const NAME_IN_NAMES: u8 = 26;

pub const NAME_NAMES: u8 = 27;

pub const NAME_MORE_NAMES: u8 = 28;

pub const NAME_IN_PARS: u8 = 29;

pub const NAME_PARS: u8 = 30;

pub const NAME_MORE_PARS: u8 = 31;

pub const NAME_IN_TERMS: u8 = 32;

pub const NAME_TERMS: u8 = 33;

pub const NAME_MORE_TERMS: u8 = 34;

pub const NAME_INST: u8 = 35;

pub const NAME_ATOM: u8 = 36;

pub const NAME_PLAIN_ATOM: u8 = 37;

pub const NAME_ONE_ARGS: u8 = 38;

pub const NAME_TWO_ARGS: u8 = 39;

pub const NAME_THREE_ARGS: u8 = 40;

pub const NAME_CELL_ARGS: u8 = 41;

pub const NAME_FIELD_ARGS: u8 = 42;

pub const NAME_BOOK_ARGS: u8 = 43;

pub const NAME_LOCK_ARGS: u8 = 44;

pub const NAME_TOKEN_ARGS: u8 = 45;

pub const NAME_REST_TERMS: u8 = 46;

pub const NAME_DONE_ARGS: u8 = 47;

pub const NAME_REPLY: u8 = 48;

pub const NAME_EACH_ARGS: u8 = 49;

pub const NAME_EXCEPT: u8 = 50;

pub const NAME_ATOMS: u8 = 51;

pub const NAME_MORE_ATOMS: u8 = 52;

pub const NAME_IN_ATOMS: u8 = 53;

pub const NAME_HEAP: u8 = 54;

pub const NAME_ITEMS: u8 = 55;

pub const NAME_ITEM: u8 = 56;

pub const NAME_CONSTANT_ITEM: u8 = 57;

pub const NAME_PLAIN_ITEM: u8 = 58;

pub const NAME_ONE_ITEM: u8 = 59;

pub const NAME_TWO_ITEM: u8 = 60;

pub const NAME_THREE_ITEM: u8 = 61;

pub const NAME_CELL_ITEM: u8 = 62;

pub const NAME_FIELD_ITEM: u8 = 63;

pub const NAME_BOOK_ITEM: u8 = 64;

pub const NAME_LOCK_ITEM: u8 = 65;

pub const NAME_TOKEN_ITEM: u8 = 66;

pub const NAME_DONE_ITEM: u8 = 67;

pub const NAME_EACH_ITEM: u8 = 68;

pub const NAME_VARIABLE_ITEM: u8 = 69;

pub const NAME_OPERATORS: u8 = 70;

pub const NAME_SECOND: u8 = 71;

pub const NAME_FIRST: u8 = 72;

pub const NAME_FIRST_DISJUNCTION: u8 = 73;

pub const NAME_FIRST_DISJUNCTION_TAIL: u8 = 74;

pub const NAME_FIRST_CONJUNCTION: u8 = 75;

pub const NAME_FIRST_CONJUNCTION_TAIL: u8 = 76;

pub const NAME_FIRST_COMPARISON: u8 = 77;

pub const NAME_FIRST_COMPARISON_TAIL: u8 = 78;

pub const NAME_FIRST_SUM: u8 = 79;

pub const NAME_FIRST_SUM_TAIL: u8 = 80;

pub const NAME_FIRST_PRODUCT: u8 = 81;

pub const NAME_FIRST_PRODUCT_TAIL: u8 = 82;

pub const NAME_FIRST_UNARY: u8 = 83;

pub const NAME_FIRST_PRIM: u8 = 84;

pub const NAME_EQUATION: u8 = 85;

pub const NAME_UNEQUAL: u8 = 86;

pub const NAME_EQUATED: u8 = 87;

pub const NAME_CERT: u8 = 88;

pub const NAME_WITHIN: u8 = 89;

pub const NAME_FACTORS: u8 = 90;

pub const NAME_MORE_FACTORS: u8 = 91;

pub const NAME_FACTORED: u8 = 92;

pub const NAME_HAVES: u8 = 93;

pub const NAME_CERT_OR_HOLE: u8 = 94;

pub const NAME_SIMPLE: u8 = 95;

pub const NAME_HALVES: u8 = 96;

pub const NAME_WITH: u8 = 97;

pub const NAME_AS: u8 = 98;

pub const NAME_DURING: u8 = 99;

pub const NAME_ENDING: u8 = 100;

pub const NAME_BLOCK: u8 = 101;

pub const NAME_COMMANDS: u8 = 102;

pub const NAME_UNFOLD: u8 = 103;

pub const NAME_ARM: u8 = 104;

pub const NAME_ARMS: u8 = 105;

pub const NAME_STEP: u8 = 106;

pub const NAME_BLOCKS: u8 = 107;

pub const NAME_PLAIN: u8 = 108;

pub const NAME_HOLEY_BLOCK: u8 = 109;

pub const NAME_HOLEY_COMMANDS: u8 = 110;

pub const NAME_HOLEY_UNFOLD: u8 = 111;

pub const NAME_HOLEY_ARM: u8 = 112;

pub const NAME_HOLEY_ARMS: u8 = 113;

pub const NAME_HOLEY_STEP: u8 = 114;

pub const NAME_HOLEY_BLOCKS: u8 = 115;

pub const NAME_HOLEY_PLAIN: u8 = 116;

pub const NAME_FILLING: u8 = 117;

pub const NAME_FILLED: u8 = 118;

pub const NAME_TAKEN: u8 = 119;

pub const ACT_NO_NAMES: u8 = 14;

pub const ACT_NAME: u8 = 15;

pub const ACT_NEXT_NAME: u8 = 16;

pub const ACT_IN_NAMES: u8 = 17;

pub const ACT_NO_PARS: u8 = 18;

pub const ACT_PAR: u8 = 19;

pub const ACT_NEXT_PAR: u8 = 20;

pub const ACT_IN_PARS: u8 = 21;

pub const ACT_NO_TERMS: u8 = 22;

pub const ACT_TERM: u8 = 23;

pub const ACT_NEXT_TERM: u8 = 24;

pub const ACT_IN_TERMS: u8 = 25;

pub const ACT_WORD_TERMS: u8 = 26;

pub const ACT_NO_TERM: u8 = 27;

pub const ACT_WORD_TERM: u8 = 28;

pub const ACT_INST: u8 = 29;

pub const ACT_NO_OWN: u8 = 30;

pub const ACT_OWN: u8 = 31;

pub const ACT_ONE_ATOM: u8 = 32;

pub const ACT_TWO_ATOM: u8 = 33;

pub const ACT_THREE_ATOM: u8 = 34;

pub const ACT_CELL_ATOM: u8 = 35;

pub const ACT_FIELD_ATOM: u8 = 36;

pub const ACT_BOOK_ATOM: u8 = 37;

pub const ACT_LOCK_ATOM: u8 = 38;

pub const ACT_TOKEN_ATOM: u8 = 39;

pub const ACT_DONE_ATOM: u8 = 40;

pub const ACT_EACH_ATOM: u8 = 41;

pub const ACT_INST_ATOM: u8 = 42;

pub const ACT_NO_ATOMS: u8 = 43;

pub const ACT_ATOM: u8 = 44;

pub const ACT_NEXT_ATOM: u8 = 45;

pub const ACT_IN_ATOMS: u8 = 46;

pub const ACT_FACT: u8 = 47;

pub const ACT_HELD: u8 = 48;

pub const ACT_NO_ITEMS: u8 = 49;

pub const ACT_ITEM: u8 = 50;

pub const ACT_IN_ITEMS: u8 = 51;

pub const ACT_POSITIVE: u8 = 52;

pub const ACT_NEGATIVE: u8 = 53;

pub const ACT_NO_FACTORS: u8 = 54;

pub const ACT_FACTOR: u8 = 55;

pub const ACT_NEXT_FACTOR: u8 = 56;

pub const ACT_GIVEN: u8 = 57;

pub const ACT_AXIOM: u8 = 58;

pub const ACT_SUBST: u8 = 59;

pub const ACT_CONTRA: u8 = 60;

pub const ACT_LINEAR: u8 = 61;

pub const ACT_BY_CASES: u8 = 62;

pub const ACT_STEPS: u8 = 63;

pub const ACT_HOLE: u8 = 64;

pub const ACT_NO_HAVES: u8 = 65;

pub const ACT_STEP_HAVE: u8 = 66;

pub const ACT_HOLE_TERMS: u8 = 67;

pub const ACT_FILLED: u8 = 68;

pub const ACT_FILLED_PARENS: u8 = 69;

pub const ACT_FOLD: u8 = 70;

pub const ACT_UNFOLD: u8 = 71;

pub const ACT_UNFOLD_ARMS: u8 = 72;

pub const ACT_ON_ATOM: u8 = 73;

pub const ACT_HAVE: u8 = 74;

pub const ACT_LET: u8 = 75;

pub const ACT_REWRITE: u8 = 76;

pub const ACT_ABSURD: u8 = 77;

pub const ACT_CLASH: u8 = 78;

pub const ACT_CASES: u8 = 79;

pub const ACT_ON_PAIR: u8 = 80;

pub const ACT_HALVES_NEW: u8 = 81;

pub const ACT_HALVES_SET: u8 = 82;

pub const ACT_AT: u8 = 83;

pub const ACT_AT_HOLE: u8 = 84;

pub const ACT_MAP: u8 = 85;

pub const ACT_ALONE: u8 = 86;

pub const ACT_SIM: u8 = 87;

pub const ACT_ON_BLOCK: u8 = 88;

pub const ACT_BOOT: u8 = 89;

pub const ACT_GUARD: u8 = 90;

pub const ACT_SET_BOOK: u8 = 91;

pub const ACT_FORGET: u8 = 92;

pub const ACT_STEP: u8 = 93;

pub const ACT_TO: u8 = 94;

pub const ACT_MERGE: u8 = 95;

pub const ACT_VOID: u8 = 96;

pub const ACT_YIELD: u8 = 97;

pub const ACT_WORD_NAMES: u8 = 98;

pub const ACT_NO_DURING: u8 = 99;

pub const ACT_DURING: u8 = 100;

pub const ACT_NO_BLOCKS: u8 = 101;

pub const ACT_NEXT_BLOCK: u8 = 102;

pub const ACT_NO_ARMS: u8 = 103;

pub const ACT_NEXT_ARM: u8 = 104;

pub const ACT_ARM: u8 = 105;

pub const ACT_NO_COMMANDS: u8 = 106;

pub const ACT_COMMAND: u8 = 107;

pub const ACT_LAST: u8 = 108;

pub const ACT_CLOSED: u8 = 109;

pub const ACT_NOT_CLOSED: u8 = 110;

pub const ACT_BLOCK: u8 = 111;

pub const ACT_CASE: u8 = 112;

pub const ACT_NO_CASES: u8 = 113;

pub const ACT_NEXT_CASE: u8 = 114;

pub const ACT_NO_BOOKS: u8 = 115;

pub const ACT_BOOK: u8 = 116;

pub const ACT_NO_PREDS: u8 = 117;

pub const ACT_PRED: u8 = 118;

pub const ACT_NO_CUTS: u8 = 119;

pub const ACT_CUT: u8 = 120;

pub const ACT_NO_OPS: u8 = 121;

pub const ACT_OP: u8 = 122;

pub const ACT_NO_PROCS: u8 = 123;

pub const ACT_PROC: u8 = 124;

pub const ACT_SCRIPT: u8 = 125;

pub const RULE_TEXT_WHOLE: u16 = 34;

pub const RULE_BOOKS_MORE: u16 = 35;

pub const RULE_BOOKS_END: u16 = 36;

pub const RULE_PREDS_MORE: u16 = 37;

pub const RULE_PREDS_END: u16 = 38;

pub const RULE_CASE_CASE: u16 = 39;

pub const RULE_CASES_MORE: u16 = 40;

pub const RULE_CASES_END: u16 = 41;

pub const RULE_CUTS_MORE: u16 = 42;

pub const RULE_CUTS_END: u16 = 43;

pub const RULE_OPS_MORE: u16 = 44;

pub const RULE_OPS_END: u16 = 45;

pub const RULE_PROCS_MORE: u16 = 46;

pub const RULE_PROCS_END: u16 = 47;

pub const RULE_OWN_SOME: u16 = 48;

pub const RULE_OWN_NONE: u16 = 49;

pub const RULE_IN_NAMES_PARENS: u16 = 50;

pub const RULE_NAMES_SOME: u16 = 51;

pub const RULE_NAMES_NONE: u16 = 52;

pub const RULE_MORE_NAMES_MORE: u16 = 53;

pub const RULE_MORE_NAMES_END: u16 = 54;

pub const RULE_IN_PARS_PARENS: u16 = 55;

pub const RULE_PARS_SOME: u16 = 56;

pub const RULE_PARS_NONE: u16 = 57;

pub const RULE_MORE_PARS_MORE: u16 = 58;

pub const RULE_MORE_PARS_END: u16 = 59;

pub const RULE_IN_TERMS_PARENS: u16 = 60;

pub const RULE_TERMS_SOME: u16 = 61;

pub const RULE_TERMS_NONE: u16 = 62;

pub const RULE_MORE_TERMS_MORE: u16 = 63;

pub const RULE_MORE_TERMS_END: u16 = 64;

pub const RULE_INST_NAMED: u16 = 65;

pub const RULE_ATOM_EACH: u16 = 66;

pub const RULE_ATOM_PLAIN: u16 = 67;

pub const RULE_PLAIN_ATOM_ONE: u16 = 68;

pub const RULE_PLAIN_ATOM_TWO: u16 = 69;

pub const RULE_PLAIN_ATOM_THREE: u16 = 70;

pub const RULE_PLAIN_ATOM_CELL: u16 = 71;

pub const RULE_PLAIN_ATOM_FIELD: u16 = 72;

pub const RULE_PLAIN_ATOM_BOOK: u16 = 73;

pub const RULE_PLAIN_ATOM_LOCK: u16 = 74;

pub const RULE_PLAIN_ATOM_TOKEN: u16 = 75;

pub const RULE_PLAIN_ATOM_DONE: u16 = 76;

pub const RULE_PLAIN_ATOM_INST: u16 = 77;

pub const RULE_ONE_ARGS_PARENS: u16 = 78;

pub const RULE_TWO_ARGS_PARENS: u16 = 79;

pub const RULE_THREE_ARGS_PARENS: u16 = 80;

pub const RULE_CELL_ARGS_PARENS: u16 = 81;

pub const RULE_FIELD_ARGS_PARENS: u16 = 82;

pub const RULE_BOOK_ARGS_PARENS: u16 = 83;

pub const RULE_LOCK_ARGS_PARENS: u16 = 84;

pub const RULE_TOKEN_ARGS_PARENS: u16 = 85;

pub const RULE_REST_TERMS_MORE: u16 = 86;

pub const RULE_REST_TERMS_END: u16 = 87;

pub const RULE_DONE_ARGS_PARENS: u16 = 88;

pub const RULE_REPLY_SOME: u16 = 89;

pub const RULE_REPLY_NONE: u16 = 90;

pub const RULE_EACH_ARGS_PARENS: u16 = 91;

pub const RULE_EXCEPT_SOME: u16 = 92;

pub const RULE_EXCEPT_NONE: u16 = 93;

pub const RULE_ATOMS_SOME: u16 = 94;

pub const RULE_MORE_ATOMS_MORE: u16 = 95;

pub const RULE_MORE_ATOMS_END: u16 = 96;

pub const RULE_IN_ATOMS_PARENS: u16 = 97;

pub const RULE_HEAP_BRACES: u16 = 98;

pub const RULE_ITEMS_MORE: u16 = 99;

pub const RULE_ITEMS_END: u16 = 100;

pub const RULE_ITEM_SIGN: u16 = 101;

pub const RULE_ITEM_NUMBER: u16 = 102;

pub const RULE_ITEM_PAREN: u16 = 103;

pub const RULE_ITEM_MAKER: u16 = 104;

pub const RULE_ITEM_OF_ONE: u16 = 105;

pub const RULE_ITEM_OF_TWO: u16 = 106;

pub const RULE_ITEM_OF_THREE: u16 = 107;

pub const RULE_ITEM_CONSTANT: u16 = 108;

pub const RULE_ITEM_PLAIN: u16 = 109;

pub const RULE_ITEM_ONE: u16 = 110;

pub const RULE_ITEM_TWO: u16 = 111;

pub const RULE_ITEM_THREE: u16 = 112;

pub const RULE_ITEM_CELL: u16 = 113;

pub const RULE_ITEM_FIELD: u16 = 114;

pub const RULE_ITEM_BOOK: u16 = 115;

pub const RULE_ITEM_LOCK: u16 = 116;

pub const RULE_ITEM_TOKEN: u16 = 117;

pub const RULE_ITEM_DONE: u16 = 118;

pub const RULE_ITEM_EACH: u16 = 119;

pub const RULE_CONSTANT_ITEM_INST: u16 = 120;

pub const RULE_CONSTANT_ITEM_FACT: u16 = 121;

pub const RULE_PLAIN_ITEM_INST: u16 = 122;

pub const RULE_PLAIN_ITEM_FACT: u16 = 123;

pub const RULE_ONE_ITEM_ATOM: u16 = 124;

pub const RULE_ONE_ITEM_FACT: u16 = 125;

pub const RULE_TWO_ITEM_ATOM: u16 = 126;

pub const RULE_TWO_ITEM_FACT: u16 = 127;

pub const RULE_THREE_ITEM_ATOM: u16 = 128;

pub const RULE_THREE_ITEM_FACT: u16 = 129;

pub const RULE_CELL_ITEM_ATOM: u16 = 130;

pub const RULE_CELL_ITEM_FACT: u16 = 131;

pub const RULE_FIELD_ITEM_ATOM: u16 = 132;

pub const RULE_FIELD_ITEM_FACT: u16 = 133;

pub const RULE_BOOK_ITEM_ATOM: u16 = 134;

pub const RULE_BOOK_ITEM_FACT: u16 = 135;

pub const RULE_LOCK_ITEM_ATOM: u16 = 136;

pub const RULE_LOCK_ITEM_FACT: u16 = 137;

pub const RULE_TOKEN_ITEM_ATOM: u16 = 138;

pub const RULE_TOKEN_ITEM_FACT: u16 = 139;

pub const RULE_DONE_ITEM_ATOM: u16 = 140;

pub const RULE_DONE_ITEM_FACT: u16 = 141;

pub const RULE_EACH_ITEM_ATOM: u16 = 142;

pub const RULE_EACH_ITEM_FACT: u16 = 143;

pub const RULE_VARIABLE_ITEM_FACT: u16 = 144;

pub const RULE_OPERATORS_TAILS: u16 = 145;

pub const RULE_SECOND_SIGN: u16 = 146;

pub const RULE_SECOND_PRIM: u16 = 147;

pub const RULE_FIRST_TERM: u16 = 148;

pub const RULE_FIRST_DISJUNCTION_FIRST: u16 = 149;

pub const RULE_FIRST_DISJUNCTION_TAIL_MORE: u16 = 150;

pub const RULE_FIRST_DISJUNCTION_TAIL_END: u16 = 151;

pub const RULE_FIRST_CONJUNCTION_FIRST: u16 = 152;

pub const RULE_FIRST_CONJUNCTION_TAIL_MORE: u16 = 153;

pub const RULE_FIRST_CONJUNCTION_TAIL_END: u16 = 154;

pub const RULE_FIRST_COMPARISON_FIRST: u16 = 155;

pub const RULE_FIRST_COMPARISON_TAIL_MORE: u16 = 156;

pub const RULE_FIRST_COMPARISON_TAIL_END: u16 = 157;

pub const RULE_FIRST_SUM_FIRST: u16 = 158;

pub const RULE_FIRST_SUM_TAIL_MORE: u16 = 159;

pub const RULE_FIRST_SUM_TAIL_END: u16 = 160;

pub const RULE_FIRST_PRODUCT_FIRST: u16 = 161;

pub const RULE_FIRST_PRODUCT_TAIL_MORE: u16 = 162;

pub const RULE_FIRST_PRODUCT_TAIL_END: u16 = 163;

pub const RULE_FIRST_UNARY_SIGN: u16 = 164;

pub const RULE_FIRST_UNARY_PRIM: u16 = 165;

pub const RULE_FIRST_PRIM_NUMBER: u16 = 166;

pub const RULE_FIRST_PRIM_CONSTANT: u16 = 167;

pub const RULE_FIRST_PRIM_FREE: u16 = 168;

pub const RULE_FIRST_PRIM_PAREN: u16 = 169;

pub const RULE_FIRST_PRIM_MAKER: u16 = 170;

pub const RULE_FIRST_PRIM_ONE: u16 = 171;

pub const RULE_FIRST_PRIM_TWO: u16 = 172;

pub const RULE_FIRST_PRIM_THREE: u16 = 173;

pub const RULE_EQUATION_FIRST: u16 = 174;

pub const RULE_UNEQUAL_OTHER: u16 = 175;

pub const RULE_UNEQUAL_EQUAL: u16 = 176;

pub const RULE_EQUATED_OTHER: u16 = 177;

pub const RULE_EQUATED_EQUAL: u16 = 178;

pub const RULE_EQUATED_END: u16 = 179;

pub const RULE_CERT_GIVEN: u16 = 180;

pub const RULE_CERT_AXIOM: u16 = 181;

pub const RULE_CERT_SUBST: u16 = 182;

pub const RULE_CERT_CONTRA: u16 = 183;

pub const RULE_CERT_LINEAR: u16 = 184;

pub const RULE_CERT_CASES: u16 = 185;

pub const RULE_CERT_STEPS: u16 = 186;

pub const RULE_WITHIN_SOME: u16 = 187;

pub const RULE_WITHIN_NONE: u16 = 188;

pub const RULE_FACTORS_SOME: u16 = 189;

pub const RULE_FACTORS_NONE: u16 = 190;

pub const RULE_MORE_FACTORS_MORE: u16 = 191;

pub const RULE_MORE_FACTORS_END: u16 = 192;

pub const RULE_FACTORED_POSITIVE: u16 = 193;

pub const RULE_FACTORED_NEGATIVE: u16 = 194;

pub const RULE_HAVES_MORE: u16 = 195;

pub const RULE_HAVES_END: u16 = 196;

pub const RULE_CERT_OR_HOLE_CERT: u16 = 197;

pub const RULE_CERT_OR_HOLE_HOLE: u16 = 198;

pub const RULE_SIMPLE_ON_ATOM: u16 = 199;

pub const RULE_SIMPLE_LET: u16 = 200;

pub const RULE_SIMPLE_REWRITE: u16 = 201;

pub const RULE_SIMPLE_CLASH: u16 = 202;

pub const RULE_SIMPLE_ON_PAIR: u16 = 203;

pub const RULE_SIMPLE_HALVES: u16 = 204;

pub const RULE_SIMPLE_SPLIT: u16 = 205;

pub const RULE_SIMPLE_MAP: u16 = 206;

pub const RULE_SIMPLE_ALONE: u16 = 207;

pub const RULE_SIMPLE_SIM: u16 = 208;

pub const RULE_SIMPLE_ON_BLOCK: u16 = 209;

pub const RULE_SIMPLE_BOOT: u16 = 210;

pub const RULE_SIMPLE_GUARD: u16 = 211;

pub const RULE_SIMPLE_BOOK: u16 = 212;

pub const RULE_SIMPLE_FORGET: u16 = 213;

pub const RULE_SIMPLE_TO: u16 = 214;

pub const RULE_SIMPLE_MERGE: u16 = 215;

pub const RULE_SIMPLE_VOID: u16 = 216;

pub const RULE_SIMPLE_YIELD: u16 = 217;

pub const RULE_HALVES_NEW: u16 = 218;

pub const RULE_HALVES_SET: u16 = 219;

pub const RULE_WITH_SOME: u16 = 220;

pub const RULE_WITH_NONE: u16 = 221;

pub const RULE_AS_SOME: u16 = 222;

pub const RULE_AS_NONE: u16 = 223;

pub const RULE_DURING_SOME: u16 = 224;

pub const RULE_DURING_NONE: u16 = 225;

pub const RULE_ENDING_SEMI: u16 = 226;

pub const RULE_ENDING_NONE: u16 = 227;

pub const RULE_BLOCK_BRACES: u16 = 228;

pub const RULE_COMMANDS_PLAIN: u16 = 229;

pub const RULE_COMMANDS_UNFOLD: u16 = 230;

pub const RULE_COMMANDS_CASES: u16 = 231;

pub const RULE_COMMANDS_STEP: u16 = 232;

pub const RULE_COMMANDS_END: u16 = 233;

pub const RULE_UNFOLD_NAMES: u16 = 234;

pub const RULE_UNFOLD_ARMS: u16 = 235;

pub const RULE_ARM_BRACES: u16 = 236;

pub const RULE_ARMS_MORE: u16 = 237;

pub const RULE_ARMS_END: u16 = 238;

pub const RULE_STEP_PLAIN: u16 = 239;

pub const RULE_STEP_BLOCKS: u16 = 240;

pub const RULE_BLOCKS_MORE: u16 = 241;

pub const RULE_BLOCKS_END: u16 = 242;

pub const RULE_PLAIN_SIMPLE: u16 = 243;

pub const RULE_PLAIN_HAVE: u16 = 244;

pub const RULE_PLAIN_ABSURD: u16 = 245;

pub const RULE_PLAIN_FOLD: u16 = 246;

pub const RULE_PLAIN_TAKE: u16 = 247;

pub const RULE_HOLEY_BLOCK_BRACES: u16 = 248;

pub const RULE_HOLEY_COMMANDS_PLAIN: u16 = 249;

pub const RULE_HOLEY_COMMANDS_UNFOLD: u16 = 250;

pub const RULE_HOLEY_COMMANDS_CASES: u16 = 251;

pub const RULE_HOLEY_COMMANDS_STEP: u16 = 252;

pub const RULE_HOLEY_COMMANDS_END: u16 = 253;

pub const RULE_HOLEY_UNFOLD_NAMES: u16 = 254;

pub const RULE_HOLEY_UNFOLD_ARMS: u16 = 255;

pub const RULE_HOLEY_ARM_BRACES: u16 = 256;

pub const RULE_HOLEY_ARMS_MORE: u16 = 257;

pub const RULE_HOLEY_ARMS_END: u16 = 258;

pub const RULE_HOLEY_STEP_PLAIN: u16 = 259;

pub const RULE_HOLEY_STEP_BLOCKS: u16 = 260;

pub const RULE_HOLEY_BLOCKS_MORE: u16 = 261;

pub const RULE_HOLEY_BLOCKS_END: u16 = 262;

pub const RULE_HOLEY_PLAIN_SIMPLE: u16 = 263;

pub const RULE_HOLEY_PLAIN_HAVE: u16 = 264;

pub const RULE_HOLEY_PLAIN_ABSURD: u16 = 265;

pub const RULE_HOLEY_PLAIN_FOLD: u16 = 266;

pub const RULE_HOLEY_PLAIN_TAKE: u16 = 267;

pub const RULE_FILLING_PARENS: u16 = 268;

pub const RULE_FILLED_HOLE: u16 = 269;

pub const RULE_FILLED_TERMS: u16 = 270;

pub const RULE_TAKEN_ATOM: u16 = 271;

pub const RULE_TAKEN_HOLE: u16 = 272;

pub static ROOTS: [u8; 1] = [17];

pub static NAMES: [u8; 273] = [
    0, 1, 2, 2, 3, 4, 4, 5, 6, 6, 7, 8, 8, 9, 10, 10, 11, 11, 12, 12, 12, 12, 12, 12, 12, 12, 13,
    13, 14, 14, 15, 15, 16, 16, 17, 18, 18, 19, 19, 20, 21, 21, 22, 22, 23, 23, 24, 24, 25, 25, 26,
    27, 27, 28, 28, 29, 30, 30, 31, 31, 32, 33, 33, 34, 34, 35, 36, 36, 37, 37, 37, 37, 37, 37, 37,
    37, 37, 37, 38, 39, 40, 41, 42, 43, 44, 45, 46, 46, 47, 48, 48, 49, 50, 50, 51, 52, 52, 53, 54,
    55, 55, 56, 56, 56, 56, 56, 56, 56, 56, 56, 56, 56, 56, 56, 56, 56, 56, 56, 56, 56, 57, 57, 58,
    58, 59, 59, 60, 60, 61, 61, 62, 62, 63, 63, 64, 64, 65, 65, 66, 66, 67, 67, 68, 68, 69, 70, 71,
    71, 72, 73, 74, 74, 75, 76, 76, 77, 78, 78, 79, 80, 80, 81, 82, 82, 83, 83, 84, 84, 84, 84, 84,
    84, 84, 84, 85, 86, 86, 87, 87, 87, 88, 88, 88, 88, 88, 88, 88, 89, 89, 90, 90, 91, 91, 92, 92,
    93, 93, 94, 94, 95, 95, 95, 95, 95, 95, 95, 95, 95, 95, 95, 95, 95, 95, 95, 95, 95, 95, 95, 96,
    96, 97, 97, 98, 98, 99, 99, 100, 100, 101, 102, 102, 102, 102, 102, 103, 103, 104, 105, 105,
    106, 106, 107, 107, 108, 108, 108, 108, 108, 109, 110, 110, 110, 110, 110, 111, 111, 112, 113,
    113, 114, 114, 115, 115, 116, 116, 116, 116, 116, 117, 118, 118, 119, 119,
];

pub static STARTS: [u16; 274] = [
    0, 3, 5, 10, 10, 12, 17, 17, 19, 24, 24, 26, 31, 31, 33, 38, 38, 42, 43, 45, 47, 49, 56, 58,
    60, 62, 64, 73, 74, 81, 82, 91, 92, 103, 104, 125, 135, 135, 149, 149, 153, 156, 156, 169, 169,
    176, 176, 191, 191, 194, 195, 203, 206, 206, 210, 210, 218, 223, 223, 229, 229, 237, 240, 240,
    244, 244, 247, 249, 250, 252, 254, 256, 258, 260, 262, 264, 266, 268, 272, 279, 288, 299, 310,
    319, 330, 339, 350, 354, 354, 362, 365, 366, 380, 383, 384, 387, 391, 391, 399, 407, 411, 411,
    419, 425, 436, 442, 448, 454, 460, 462, 464, 466, 468, 470, 472, 474, 476, 478, 480, 482, 484,
    488, 493, 497, 498, 500, 501, 503, 504, 506, 507, 509, 510, 512, 513, 515, 516, 518, 519, 521,
    522, 524, 525, 527, 528, 533, 538, 545, 549, 552, 554, 559, 559, 561, 566, 566, 568, 573, 573,
    575, 580, 580, 582, 587, 587, 591, 592, 594, 596, 598, 605, 615, 623, 633, 645, 647, 652, 657,
    662, 667, 667, 669, 673, 679, 682, 695, 710, 720, 723, 724, 727, 727, 731, 731, 734, 738, 745,
    745, 746, 748, 751, 756, 761, 765, 770, 772, 777, 785, 787, 791, 794, 797, 801, 807, 813, 817,
    824, 827, 844, 849, 853, 856, 857, 860, 861, 864, 865, 867, 868, 876, 880, 883, 890, 895, 895,
    900, 907, 916, 919, 919, 924, 931, 934, 934, 935, 940, 944, 950, 955, 963, 967, 970, 977, 982,
    982, 987, 994, 1003, 1006, 1006, 1011, 1018, 1021, 1021, 1022, 1027, 1031, 1036, 1038, 1042,
    1046, 1051, 1055, 1059,
];

pub static SYMBOLS: [Symbol; 1059] = [
    // Whole/term = {SAVE} Disjunction {RESTORE}
    Symbol::Act(SAVE),
    Symbol::Name(NAME_DISJUNCTION),
    Symbol::Act(RESTORE),
    // Disjunction/first = Conjunction DisjunctionTail
    Symbol::Name(NAME_CONJUNCTION),
    Symbol::Name(NAME_DISJUNCTION_TAIL),
    // DisjunctionTail/more = {OPEN} OrOr Conjunction {BINARY} DisjunctionTail
    Symbol::Act(OPEN),
    Symbol::Token(SET_OR_OR),
    Symbol::Name(NAME_CONJUNCTION),
    Symbol::Act(ACT_BINARY),
    Symbol::Name(NAME_DISJUNCTION_TAIL),
    // DisjunctionTail/end =
    // Conjunction/first = Comparison ConjunctionTail
    Symbol::Name(NAME_COMPARISON),
    Symbol::Name(NAME_CONJUNCTION_TAIL),
    // ConjunctionTail/more = {OPEN} AndAnd Comparison {BINARY} ConjunctionTail
    Symbol::Act(OPEN),
    Symbol::Token(SET_AND_AND),
    Symbol::Name(NAME_COMPARISON),
    Symbol::Act(ACT_BINARY),
    Symbol::Name(NAME_CONJUNCTION_TAIL),
    // ConjunctionTail/end =
    // Comparison/first = Sum ComparisonTail
    Symbol::Name(NAME_SUM),
    Symbol::Name(NAME_COMPARISON_TAIL),
    // ComparisonTail/more = {OPEN} Comparing Sum {BINARY} ComparisonTail
    Symbol::Act(OPEN),
    Symbol::Token(SET_COMPARING),
    Symbol::Name(NAME_SUM),
    Symbol::Act(ACT_BINARY),
    Symbol::Name(NAME_COMPARISON_TAIL),
    // ComparisonTail/end =
    // Sum/first = Product SumTail
    Symbol::Name(NAME_PRODUCT),
    Symbol::Name(NAME_SUM_TAIL),
    // SumTail/more = {OPEN} Adding Product {BINARY} SumTail
    Symbol::Act(OPEN),
    Symbol::Token(SET_ADDING),
    Symbol::Name(NAME_PRODUCT),
    Symbol::Act(ACT_BINARY),
    Symbol::Name(NAME_SUM_TAIL),
    // SumTail/end =
    // Product/first = Unary ProductTail
    Symbol::Name(NAME_UNARY),
    Symbol::Name(NAME_PRODUCT_TAIL),
    // ProductTail/more = {OPEN} Multiplying Unary {BINARY} ProductTail
    Symbol::Act(OPEN),
    Symbol::Token(SET_MULTIPLYING),
    Symbol::Name(NAME_UNARY),
    Symbol::Act(ACT_BINARY),
    Symbol::Name(NAME_PRODUCT_TAIL),
    // ProductTail/end =
    // Unary/sign = {OPEN} Inverting Unary {UNARY}
    Symbol::Act(OPEN),
    Symbol::Token(SET_INVERTING),
    Symbol::Name(NAME_UNARY),
    Symbol::Act(ACT_UNARY),
    // Unary/prim = Prim
    Symbol::Name(NAME_PRIM),
    // Prim/number = AnyNumber {NUMBER}
    Symbol::Token(SET_ANY_NUMBER),
    Symbol::Act(ACT_NUMBER),
    // Prim/constant = Constant {CONSTANT}
    Symbol::Token(SET_CONSTANT),
    Symbol::Act(ACT_CONSTANT),
    // Prim/free = Free {VARIABLE}
    Symbol::Token(SET_FREE),
    Symbol::Act(ACT_VARIABLE),
    // Prim/paren = {SAVE} {OPEN} LParen Whole RParen {RESTORE} {PAREN}
    Symbol::Act(SAVE),
    Symbol::Act(OPEN),
    Symbol::Token(SET_L_PAREN),
    Symbol::Name(NAME_WHOLE),
    Symbol::Token(SET_R_PAREN),
    Symbol::Act(RESTORE),
    Symbol::Act(ACT_PAREN),
    // Prim/maker = Maker MakerRest
    Symbol::Token(SET_MAKER),
    Symbol::Name(NAME_MAKER_REST),
    // Prim/one = OfOne OneRest
    Symbol::Token(SET_OF_ONE),
    Symbol::Name(NAME_ONE_REST),
    // Prim/two = OfTwo TwoRest
    Symbol::Token(SET_OF_TWO),
    Symbol::Name(NAME_TWO_REST),
    // Prim/three = OfThree ThreeRest
    Symbol::Token(SET_OF_THREE),
    Symbol::Name(NAME_THREE_REST),
    // MakerRest/call = {SAVE} {OPEN} LParen AnyNumber Comma Whole RParen {RESTORE} {MAKER}
    Symbol::Act(SAVE),
    Symbol::Act(OPEN),
    Symbol::Token(SET_L_PAREN),
    Symbol::Token(SET_ANY_NUMBER),
    Symbol::Token(SET_COMMA),
    Symbol::Name(NAME_WHOLE),
    Symbol::Token(SET_R_PAREN),
    Symbol::Act(RESTORE),
    Symbol::Act(ACT_MAKER),
    // MakerRest/name = {VARIABLE}
    Symbol::Act(ACT_VARIABLE),
    // OneRest/call = {SAVE} {OPEN} LParen Whole RParen {RESTORE} {OF_ONE}
    Symbol::Act(SAVE),
    Symbol::Act(OPEN),
    Symbol::Token(SET_L_PAREN),
    Symbol::Name(NAME_WHOLE),
    Symbol::Token(SET_R_PAREN),
    Symbol::Act(RESTORE),
    Symbol::Act(ACT_OF_ONE),
    // OneRest/name = {VARIABLE}
    Symbol::Act(ACT_VARIABLE),
    // TwoRest/call = {SAVE} {OPEN} LParen Whole Comma Whole RParen {RESTORE} {OF_TWO}
    Symbol::Act(SAVE),
    Symbol::Act(OPEN),
    Symbol::Token(SET_L_PAREN),
    Symbol::Name(NAME_WHOLE),
    Symbol::Token(SET_COMMA),
    Symbol::Name(NAME_WHOLE),
    Symbol::Token(SET_R_PAREN),
    Symbol::Act(RESTORE),
    Symbol::Act(ACT_OF_TWO),
    // TwoRest/name = {VARIABLE}
    Symbol::Act(ACT_VARIABLE),
    // ThreeRest/call = {SAVE} {OPEN} LParen Whole Comma Whole Comma Whole RParen {RESTORE} {OF_THREE}
    Symbol::Act(SAVE),
    Symbol::Act(OPEN),
    Symbol::Token(SET_L_PAREN),
    Symbol::Name(NAME_WHOLE),
    Symbol::Token(SET_COMMA),
    Symbol::Name(NAME_WHOLE),
    Symbol::Token(SET_COMMA),
    Symbol::Name(NAME_WHOLE),
    Symbol::Token(SET_R_PAREN),
    Symbol::Act(RESTORE),
    Symbol::Act(ACT_OF_THREE),
    // ThreeRest/name = {VARIABLE}
    Symbol::Act(ACT_VARIABLE),
    // Text/whole = {NO_BOOKS} Books {NO_PREDS} Preds CrashWord Id Semi RootWord Id Semi InitWord HoleyBlock RecoverWord HoleyBlock {NO_CUTS} Cuts {NO_OPS} Ops {NO_PROCS} Procs {SCRIPT}
    Symbol::Act(ACT_NO_BOOKS),
    Symbol::Name(NAME_BOOKS),
    Symbol::Act(ACT_NO_PREDS),
    Symbol::Name(NAME_PREDS),
    Symbol::Token(SET_CRASH_WORD),
    Symbol::Token(SET_ID),
    Symbol::Token(SET_SEMI),
    Symbol::Token(SET_ROOT_WORD),
    Symbol::Token(SET_ID),
    Symbol::Token(SET_SEMI),
    Symbol::Token(SET_INIT_WORD),
    Symbol::Name(NAME_HOLEY_BLOCK),
    Symbol::Token(SET_RECOVER_WORD),
    Symbol::Name(NAME_HOLEY_BLOCK),
    Symbol::Act(ACT_NO_CUTS),
    Symbol::Name(NAME_CUTS),
    Symbol::Act(ACT_NO_OPS),
    Symbol::Name(NAME_OPS),
    Symbol::Act(ACT_NO_PROCS),
    Symbol::Name(NAME_PROCS),
    Symbol::Act(ACT_SCRIPT),
    // Books/more = BookWord Id Colon SortWord AnyNumber Assign Whole Semi {BOOK} Books
    Symbol::Token(SET_BOOK_WORD),
    Symbol::Token(SET_ID),
    Symbol::Token(SET_COLON),
    Symbol::Token(SET_SORT_WORD),
    Symbol::Token(SET_ANY_NUMBER),
    Symbol::Token(SET_ASSIGN),
    Symbol::Name(NAME_WHOLE),
    Symbol::Token(SET_SEMI),
    Symbol::Act(ACT_BOOK),
    Symbol::Name(NAME_BOOKS),
    // Books/end =
    // Preds/more = PredWord Id InPars {SAVE} {OPEN} LBrace {NO_CASES} Case {NEXT_CASE} Cases RBrace {RESTORE} {PRED} Preds
    Symbol::Token(SET_PRED_WORD),
    Symbol::Token(SET_ID),
    Symbol::Name(NAME_IN_PARS),
    Symbol::Act(SAVE),
    Symbol::Act(OPEN),
    Symbol::Token(SET_L_BRACE),
    Symbol::Act(ACT_NO_CASES),
    Symbol::Name(NAME_CASE),
    Symbol::Act(ACT_NEXT_CASE),
    Symbol::Name(NAME_CASES),
    Symbol::Token(SET_R_BRACE),
    Symbol::Act(RESTORE),
    Symbol::Act(ACT_PRED),
    Symbol::Name(NAME_PREDS),
    // Preds/end =
    // Case/case = CaseWord InPars Heap {CASE}
    Symbol::Token(SET_CASE_WORD),
    Symbol::Name(NAME_IN_PARS),
    Symbol::Name(NAME_HEAP),
    Symbol::Act(ACT_CASE),
    // Cases/more = Case {NEXT_CASE} Cases
    Symbol::Name(NAME_CASE),
    Symbol::Act(ACT_NEXT_CASE),
    Symbol::Name(NAME_CASES),
    // Cases/end =
    // Cuts/more = CutWord Id AtWord AnyNumber Mode LocalsWord InNames VarsWord InPars Heap HoleyBlock {CUT} Cuts
    Symbol::Token(SET_CUT_WORD),
    Symbol::Token(SET_ID),
    Symbol::Token(SET_AT_WORD),
    Symbol::Token(SET_ANY_NUMBER),
    Symbol::Token(SET_MODE),
    Symbol::Token(SET_LOCALS_WORD),
    Symbol::Name(NAME_IN_NAMES),
    Symbol::Token(SET_VARS_WORD),
    Symbol::Name(NAME_IN_PARS),
    Symbol::Name(NAME_HEAP),
    Symbol::Name(NAME_HOLEY_BLOCK),
    Symbol::Act(ACT_CUT),
    Symbol::Name(NAME_CUTS),
    // Cuts/end =
    // Ops/more = OpWord Id HoleyBlock {NO_CUTS} Cuts {OP} Ops
    Symbol::Token(SET_OP_WORD),
    Symbol::Token(SET_ID),
    Symbol::Name(NAME_HOLEY_BLOCK),
    Symbol::Act(ACT_NO_CUTS),
    Symbol::Name(NAME_CUTS),
    Symbol::Act(ACT_OP),
    Symbol::Name(NAME_OPS),
    // Ops/end =
    // Procs/more = ProcWord Id Own VarsWord InPars PreWord Heap PostWord InNames Heap HoleyBlock {NO_CUTS} Cuts {PROC} Procs
    Symbol::Token(SET_PROC_WORD),
    Symbol::Token(SET_ID),
    Symbol::Name(NAME_OWN),
    Symbol::Token(SET_VARS_WORD),
    Symbol::Name(NAME_IN_PARS),
    Symbol::Token(SET_PRE_WORD),
    Symbol::Name(NAME_HEAP),
    Symbol::Token(SET_POST_WORD),
    Symbol::Name(NAME_IN_NAMES),
    Symbol::Name(NAME_HEAP),
    Symbol::Name(NAME_HOLEY_BLOCK),
    Symbol::Act(ACT_NO_CUTS),
    Symbol::Name(NAME_CUTS),
    Symbol::Act(ACT_PROC),
    Symbol::Name(NAME_PROCS),
    // Procs/end =
    // Own/some = OwnWord Inst {OWN}
    Symbol::Token(SET_OWN_WORD),
    Symbol::Name(NAME_INST),
    Symbol::Act(ACT_OWN),
    // Own/none = {NO_OWN}
    Symbol::Act(ACT_NO_OWN),
    // InNames/parens = {SAVE} {OPEN} LParen {NO_NAMES} Names RParen {RESTORE} {IN_NAMES}
    Symbol::Act(SAVE),
    Symbol::Act(OPEN),
    Symbol::Token(SET_L_PAREN),
    Symbol::Act(ACT_NO_NAMES),
    Symbol::Name(NAME_NAMES),
    Symbol::Token(SET_R_PAREN),
    Symbol::Act(RESTORE),
    Symbol::Act(ACT_IN_NAMES),
    // Names/some = Id {NAME} MoreNames
    Symbol::Token(SET_ID),
    Symbol::Act(ACT_NAME),
    Symbol::Name(NAME_MORE_NAMES),
    // Names/none =
    // MoreNames/more = Comma Id {NEXT_NAME} MoreNames
    Symbol::Token(SET_COMMA),
    Symbol::Token(SET_ID),
    Symbol::Act(ACT_NEXT_NAME),
    Symbol::Name(NAME_MORE_NAMES),
    // MoreNames/end =
    // InPars/parens = {SAVE} {OPEN} LParen {NO_PARS} Pars RParen {RESTORE} {IN_PARS}
    Symbol::Act(SAVE),
    Symbol::Act(OPEN),
    Symbol::Token(SET_L_PAREN),
    Symbol::Act(ACT_NO_PARS),
    Symbol::Name(NAME_PARS),
    Symbol::Token(SET_R_PAREN),
    Symbol::Act(RESTORE),
    Symbol::Act(ACT_IN_PARS),
    // Pars/some = Id Colon SortWord {PAR} MorePars
    Symbol::Token(SET_ID),
    Symbol::Token(SET_COLON),
    Symbol::Token(SET_SORT_WORD),
    Symbol::Act(ACT_PAR),
    Symbol::Name(NAME_MORE_PARS),
    // Pars/none =
    // MorePars/more = Comma Id Colon SortWord {NEXT_PAR} MorePars
    Symbol::Token(SET_COMMA),
    Symbol::Token(SET_ID),
    Symbol::Token(SET_COLON),
    Symbol::Token(SET_SORT_WORD),
    Symbol::Act(ACT_NEXT_PAR),
    Symbol::Name(NAME_MORE_PARS),
    // MorePars/end =
    // InTerms/parens = {SAVE} {OPEN} LParen {NO_TERMS} Terms RParen {RESTORE} {IN_TERMS}
    Symbol::Act(SAVE),
    Symbol::Act(OPEN),
    Symbol::Token(SET_L_PAREN),
    Symbol::Act(ACT_NO_TERMS),
    Symbol::Name(NAME_TERMS),
    Symbol::Token(SET_R_PAREN),
    Symbol::Act(RESTORE),
    Symbol::Act(ACT_IN_TERMS),
    // Terms/some = Whole {TERM} MoreTerms
    Symbol::Name(NAME_WHOLE),
    Symbol::Act(ACT_TERM),
    Symbol::Name(NAME_MORE_TERMS),
    // Terms/none =
    // MoreTerms/more = Comma Whole {NEXT_TERM} MoreTerms
    Symbol::Token(SET_COMMA),
    Symbol::Name(NAME_WHOLE),
    Symbol::Act(ACT_NEXT_TERM),
    Symbol::Name(NAME_MORE_TERMS),
    // MoreTerms/end =
    // Inst/named = Id InTerms {INST}
    Symbol::Token(SET_ID),
    Symbol::Name(NAME_IN_TERMS),
    Symbol::Act(ACT_INST),
    // Atom/each = EachWord EachArgs
    Symbol::Token(SET_EACH_WORD),
    Symbol::Name(NAME_EACH_ARGS),
    // Atom/plain = PlainAtom
    Symbol::Name(NAME_PLAIN_ATOM),
    // PlainAtom/one = OneAtomWord OneArgs
    Symbol::Token(SET_ONE_ATOM_WORD),
    Symbol::Name(NAME_ONE_ARGS),
    // PlainAtom/two = TwoAtom TwoArgs
    Symbol::Token(SET_TWO_ATOM),
    Symbol::Name(NAME_TWO_ARGS),
    // PlainAtom/three = ThreeAtomWord ThreeArgs
    Symbol::Token(SET_THREE_ATOM_WORD),
    Symbol::Name(NAME_THREE_ARGS),
    // PlainAtom/cell = CellAtomWord CellArgs
    Symbol::Token(SET_CELL_ATOM_WORD),
    Symbol::Name(NAME_CELL_ARGS),
    // PlainAtom/field = FieldAtomWord FieldArgs
    Symbol::Token(SET_FIELD_ATOM_WORD),
    Symbol::Name(NAME_FIELD_ARGS),
    // PlainAtom/book = BookAtomWord BookArgs
    Symbol::Token(SET_BOOK_ATOM_WORD),
    Symbol::Name(NAME_BOOK_ARGS),
    // PlainAtom/lock = LockWord LockArgs
    Symbol::Token(SET_LOCK_WORD),
    Symbol::Name(NAME_LOCK_ARGS),
    // PlainAtom/token = TokenWord TokenArgs
    Symbol::Token(SET_TOKEN_WORD),
    Symbol::Name(NAME_TOKEN_ARGS),
    // PlainAtom/done = DoneWord DoneArgs
    Symbol::Token(SET_DONE_WORD),
    Symbol::Name(NAME_DONE_ARGS),
    // PlainAtom/inst = Predicate InTerms {INST} {INST_ATOM}
    Symbol::Token(SET_PREDICATE),
    Symbol::Name(NAME_IN_TERMS),
    Symbol::Act(ACT_INST),
    Symbol::Act(ACT_INST_ATOM),
    // OneArgs/parens = {SAVE} {OPEN} LParen Whole RParen {RESTORE} {ONE_ATOM}
    Symbol::Act(SAVE),
    Symbol::Act(OPEN),
    Symbol::Token(SET_L_PAREN),
    Symbol::Name(NAME_WHOLE),
    Symbol::Token(SET_R_PAREN),
    Symbol::Act(RESTORE),
    Symbol::Act(ACT_ONE_ATOM),
    // TwoArgs/parens = {SAVE} {OPEN} LParen Whole Comma Whole RParen {RESTORE} {TWO_ATOM}
    Symbol::Act(SAVE),
    Symbol::Act(OPEN),
    Symbol::Token(SET_L_PAREN),
    Symbol::Name(NAME_WHOLE),
    Symbol::Token(SET_COMMA),
    Symbol::Name(NAME_WHOLE),
    Symbol::Token(SET_R_PAREN),
    Symbol::Act(RESTORE),
    Symbol::Act(ACT_TWO_ATOM),
    // ThreeArgs/parens = {SAVE} {OPEN} LParen Whole Comma Whole Comma Whole RParen {RESTORE} {THREE_ATOM}
    Symbol::Act(SAVE),
    Symbol::Act(OPEN),
    Symbol::Token(SET_L_PAREN),
    Symbol::Name(NAME_WHOLE),
    Symbol::Token(SET_COMMA),
    Symbol::Name(NAME_WHOLE),
    Symbol::Token(SET_COMMA),
    Symbol::Name(NAME_WHOLE),
    Symbol::Token(SET_R_PAREN),
    Symbol::Act(RESTORE),
    Symbol::Act(ACT_THREE_ATOM),
    // CellArgs/parens = {SAVE} {OPEN} LParen Whole Comma Id Comma Whole RParen {RESTORE} {CELL_ATOM}
    Symbol::Act(SAVE),
    Symbol::Act(OPEN),
    Symbol::Token(SET_L_PAREN),
    Symbol::Name(NAME_WHOLE),
    Symbol::Token(SET_COMMA),
    Symbol::Token(SET_ID),
    Symbol::Token(SET_COMMA),
    Symbol::Name(NAME_WHOLE),
    Symbol::Token(SET_R_PAREN),
    Symbol::Act(RESTORE),
    Symbol::Act(ACT_CELL_ATOM),
    // FieldArgs/parens = {SAVE} {OPEN} LParen Id Comma Whole RParen {RESTORE} {FIELD_ATOM}
    Symbol::Act(SAVE),
    Symbol::Act(OPEN),
    Symbol::Token(SET_L_PAREN),
    Symbol::Token(SET_ID),
    Symbol::Token(SET_COMMA),
    Symbol::Name(NAME_WHOLE),
    Symbol::Token(SET_R_PAREN),
    Symbol::Act(RESTORE),
    Symbol::Act(ACT_FIELD_ATOM),
    // BookArgs/parens = {SAVE} {OPEN} LParen Id Comma Whole Comma Whole RParen {RESTORE} {BOOK_ATOM}
    Symbol::Act(SAVE),
    Symbol::Act(OPEN),
    Symbol::Token(SET_L_PAREN),
    Symbol::Token(SET_ID),
    Symbol::Token(SET_COMMA),
    Symbol::Name(NAME_WHOLE),
    Symbol::Token(SET_COMMA),
    Symbol::Name(NAME_WHOLE),
    Symbol::Token(SET_R_PAREN),
    Symbol::Act(RESTORE),
    Symbol::Act(ACT_BOOK_ATOM),
    // LockArgs/parens = {SAVE} {OPEN} LParen Whole Comma Inst RParen {RESTORE} {LOCK_ATOM}
    Symbol::Act(SAVE),
    Symbol::Act(OPEN),
    Symbol::Token(SET_L_PAREN),
    Symbol::Name(NAME_WHOLE),
    Symbol::Token(SET_COMMA),
    Symbol::Name(NAME_INST),
    Symbol::Token(SET_R_PAREN),
    Symbol::Act(RESTORE),
    Symbol::Act(ACT_LOCK_ATOM),
    // TokenArgs/parens = {SAVE} {OPEN} LParen Whole Comma Id {NO_TERMS} RestTerms RParen {RESTORE} {TOKEN_ATOM}
    Symbol::Act(SAVE),
    Symbol::Act(OPEN),
    Symbol::Token(SET_L_PAREN),
    Symbol::Name(NAME_WHOLE),
    Symbol::Token(SET_COMMA),
    Symbol::Token(SET_ID),
    Symbol::Act(ACT_NO_TERMS),
    Symbol::Name(NAME_REST_TERMS),
    Symbol::Token(SET_R_PAREN),
    Symbol::Act(RESTORE),
    Symbol::Act(ACT_TOKEN_ATOM),
    // RestTerms/more = Comma Whole {NEXT_TERM} RestTerms
    Symbol::Token(SET_COMMA),
    Symbol::Name(NAME_WHOLE),
    Symbol::Act(ACT_NEXT_TERM),
    Symbol::Name(NAME_REST_TERMS),
    // RestTerms/end =
    // DoneArgs/parens = {SAVE} {OPEN} LParen Whole Reply RParen {RESTORE} {DONE_ATOM}
    Symbol::Act(SAVE),
    Symbol::Act(OPEN),
    Symbol::Token(SET_L_PAREN),
    Symbol::Name(NAME_WHOLE),
    Symbol::Name(NAME_REPLY),
    Symbol::Token(SET_R_PAREN),
    Symbol::Act(RESTORE),
    Symbol::Act(ACT_DONE_ATOM),
    // Reply/some = Comma Whole {WORD_TERM}
    Symbol::Token(SET_COMMA),
    Symbol::Name(NAME_WHOLE),
    Symbol::Act(ACT_WORD_TERM),
    // Reply/none = {NO_TERM}
    Symbol::Act(ACT_NO_TERM),
    // EachArgs/parens = {SAVE} {OPEN} LParen Id InWord Whole DotDot Whole Except Colon PlainAtom RParen {RESTORE} {EACH_ATOM}
    Symbol::Act(SAVE),
    Symbol::Act(OPEN),
    Symbol::Token(SET_L_PAREN),
    Symbol::Token(SET_ID),
    Symbol::Token(SET_IN_WORD),
    Symbol::Name(NAME_WHOLE),
    Symbol::Token(SET_DOT_DOT),
    Symbol::Name(NAME_WHOLE),
    Symbol::Name(NAME_EXCEPT),
    Symbol::Token(SET_COLON),
    Symbol::Name(NAME_PLAIN_ATOM),
    Symbol::Token(SET_R_PAREN),
    Symbol::Act(RESTORE),
    Symbol::Act(ACT_EACH_ATOM),
    // Except/some = ExceptWord InTerms {WORD_TERMS}
    Symbol::Token(SET_EXCEPT_WORD),
    Symbol::Name(NAME_IN_TERMS),
    Symbol::Act(ACT_WORD_TERMS),
    // Except/none = {NO_TERMS}
    Symbol::Act(ACT_NO_TERMS),
    // Atoms/some = Atom {ATOM} MoreAtoms
    Symbol::Name(NAME_ATOM),
    Symbol::Act(ACT_ATOM),
    Symbol::Name(NAME_MORE_ATOMS),
    // MoreAtoms/more = Comma Atom {NEXT_ATOM} MoreAtoms
    Symbol::Token(SET_COMMA),
    Symbol::Name(NAME_ATOM),
    Symbol::Act(ACT_NEXT_ATOM),
    Symbol::Name(NAME_MORE_ATOMS),
    // MoreAtoms/end =
    // InAtoms/parens = {SAVE} {OPEN} LParen {NO_ATOMS} Atoms RParen {RESTORE} {IN_ATOMS}
    Symbol::Act(SAVE),
    Symbol::Act(OPEN),
    Symbol::Token(SET_L_PAREN),
    Symbol::Act(ACT_NO_ATOMS),
    Symbol::Name(NAME_ATOMS),
    Symbol::Token(SET_R_PAREN),
    Symbol::Act(RESTORE),
    Symbol::Act(ACT_IN_ATOMS),
    // Heap/braces = {SAVE} {OPEN} LBrace {NO_ITEMS} Items RBrace {RESTORE} {IN_ITEMS}
    Symbol::Act(SAVE),
    Symbol::Act(OPEN),
    Symbol::Token(SET_L_BRACE),
    Symbol::Act(ACT_NO_ITEMS),
    Symbol::Name(NAME_ITEMS),
    Symbol::Token(SET_R_BRACE),
    Symbol::Act(RESTORE),
    Symbol::Act(ACT_IN_ITEMS),
    // Items/more = Item Semi {ITEM} Items
    Symbol::Name(NAME_ITEM),
    Symbol::Token(SET_SEMI),
    Symbol::Act(ACT_ITEM),
    Symbol::Name(NAME_ITEMS),
    // Items/end =
    // Item/sign = {SAVE} {OPEN} Inverting Unary {UNARY} Operators {RESTORE} {FACT}
    Symbol::Act(SAVE),
    Symbol::Act(OPEN),
    Symbol::Token(SET_INVERTING),
    Symbol::Name(NAME_UNARY),
    Symbol::Act(ACT_UNARY),
    Symbol::Name(NAME_OPERATORS),
    Symbol::Act(RESTORE),
    Symbol::Act(ACT_FACT),
    // Item/number = {SAVE} AnyNumber {NUMBER} Operators {RESTORE} {FACT}
    Symbol::Act(SAVE),
    Symbol::Token(SET_ANY_NUMBER),
    Symbol::Act(ACT_NUMBER),
    Symbol::Name(NAME_OPERATORS),
    Symbol::Act(RESTORE),
    Symbol::Act(ACT_FACT),
    // Item/paren = {SAVE} {SAVE} {OPEN} LParen Whole RParen {RESTORE} {PAREN} Operators {RESTORE} {FACT}
    Symbol::Act(SAVE),
    Symbol::Act(SAVE),
    Symbol::Act(OPEN),
    Symbol::Token(SET_L_PAREN),
    Symbol::Name(NAME_WHOLE),
    Symbol::Token(SET_R_PAREN),
    Symbol::Act(RESTORE),
    Symbol::Act(ACT_PAREN),
    Symbol::Name(NAME_OPERATORS),
    Symbol::Act(RESTORE),
    Symbol::Act(ACT_FACT),
    // Item/maker = Maker {SAVE} MakerRest Operators {RESTORE} {FACT}
    Symbol::Token(SET_MAKER),
    Symbol::Act(SAVE),
    Symbol::Name(NAME_MAKER_REST),
    Symbol::Name(NAME_OPERATORS),
    Symbol::Act(RESTORE),
    Symbol::Act(ACT_FACT),
    // Item/of_one = OfOne {SAVE} OneRest Operators {RESTORE} {FACT}
    Symbol::Token(SET_OF_ONE),
    Symbol::Act(SAVE),
    Symbol::Name(NAME_ONE_REST),
    Symbol::Name(NAME_OPERATORS),
    Symbol::Act(RESTORE),
    Symbol::Act(ACT_FACT),
    // Item/of_two = OfTwo {SAVE} TwoRest Operators {RESTORE} {FACT}
    Symbol::Token(SET_OF_TWO),
    Symbol::Act(SAVE),
    Symbol::Name(NAME_TWO_REST),
    Symbol::Name(NAME_OPERATORS),
    Symbol::Act(RESTORE),
    Symbol::Act(ACT_FACT),
    // Item/of_three = OfThree {SAVE} ThreeRest Operators {RESTORE} {FACT}
    Symbol::Token(SET_OF_THREE),
    Symbol::Act(SAVE),
    Symbol::Name(NAME_THREE_REST),
    Symbol::Name(NAME_OPERATORS),
    Symbol::Act(RESTORE),
    Symbol::Act(ACT_FACT),
    // Item/constant = Constant ConstantItem
    Symbol::Token(SET_CONSTANT),
    Symbol::Name(NAME_CONSTANT_ITEM),
    // Item/plain = PlainName PlainItem
    Symbol::Token(SET_PLAIN_NAME),
    Symbol::Name(NAME_PLAIN_ITEM),
    // Item/one = OneAtomWord OneItem
    Symbol::Token(SET_ONE_ATOM_WORD),
    Symbol::Name(NAME_ONE_ITEM),
    // Item/two = TwoAtom TwoItem
    Symbol::Token(SET_TWO_ATOM),
    Symbol::Name(NAME_TWO_ITEM),
    // Item/three = ThreeAtomWord ThreeItem
    Symbol::Token(SET_THREE_ATOM_WORD),
    Symbol::Name(NAME_THREE_ITEM),
    // Item/cell = CellAtomWord CellItem
    Symbol::Token(SET_CELL_ATOM_WORD),
    Symbol::Name(NAME_CELL_ITEM),
    // Item/field = FieldAtomWord FieldItem
    Symbol::Token(SET_FIELD_ATOM_WORD),
    Symbol::Name(NAME_FIELD_ITEM),
    // Item/book = BookAtomWord BookItem
    Symbol::Token(SET_BOOK_ATOM_WORD),
    Symbol::Name(NAME_BOOK_ITEM),
    // Item/lock = LockWord LockItem
    Symbol::Token(SET_LOCK_WORD),
    Symbol::Name(NAME_LOCK_ITEM),
    // Item/token = TokenWord TokenItem
    Symbol::Token(SET_TOKEN_WORD),
    Symbol::Name(NAME_TOKEN_ITEM),
    // Item/done = DoneWord DoneItem
    Symbol::Token(SET_DONE_WORD),
    Symbol::Name(NAME_DONE_ITEM),
    // Item/each = EachWord EachItem
    Symbol::Token(SET_EACH_WORD),
    Symbol::Name(NAME_EACH_ITEM),
    // ConstantItem/inst = InTerms {INST} {INST_ATOM} {HELD}
    Symbol::Name(NAME_IN_TERMS),
    Symbol::Act(ACT_INST),
    Symbol::Act(ACT_INST_ATOM),
    Symbol::Act(ACT_HELD),
    // ConstantItem/fact = {SAVE} {CONSTANT} Operators {RESTORE} {FACT}
    Symbol::Act(SAVE),
    Symbol::Act(ACT_CONSTANT),
    Symbol::Name(NAME_OPERATORS),
    Symbol::Act(RESTORE),
    Symbol::Act(ACT_FACT),
    // PlainItem/inst = InTerms {INST} {INST_ATOM} {HELD}
    Symbol::Name(NAME_IN_TERMS),
    Symbol::Act(ACT_INST),
    Symbol::Act(ACT_INST_ATOM),
    Symbol::Act(ACT_HELD),
    // PlainItem/fact = VariableItem
    Symbol::Name(NAME_VARIABLE_ITEM),
    // OneItem/atom = OneArgs {HELD}
    Symbol::Name(NAME_ONE_ARGS),
    Symbol::Act(ACT_HELD),
    // OneItem/fact = VariableItem
    Symbol::Name(NAME_VARIABLE_ITEM),
    // TwoItem/atom = TwoArgs {HELD}
    Symbol::Name(NAME_TWO_ARGS),
    Symbol::Act(ACT_HELD),
    // TwoItem/fact = VariableItem
    Symbol::Name(NAME_VARIABLE_ITEM),
    // ThreeItem/atom = ThreeArgs {HELD}
    Symbol::Name(NAME_THREE_ARGS),
    Symbol::Act(ACT_HELD),
    // ThreeItem/fact = VariableItem
    Symbol::Name(NAME_VARIABLE_ITEM),
    // CellItem/atom = CellArgs {HELD}
    Symbol::Name(NAME_CELL_ARGS),
    Symbol::Act(ACT_HELD),
    // CellItem/fact = VariableItem
    Symbol::Name(NAME_VARIABLE_ITEM),
    // FieldItem/atom = FieldArgs {HELD}
    Symbol::Name(NAME_FIELD_ARGS),
    Symbol::Act(ACT_HELD),
    // FieldItem/fact = VariableItem
    Symbol::Name(NAME_VARIABLE_ITEM),
    // BookItem/atom = BookArgs {HELD}
    Symbol::Name(NAME_BOOK_ARGS),
    Symbol::Act(ACT_HELD),
    // BookItem/fact = VariableItem
    Symbol::Name(NAME_VARIABLE_ITEM),
    // LockItem/atom = LockArgs {HELD}
    Symbol::Name(NAME_LOCK_ARGS),
    Symbol::Act(ACT_HELD),
    // LockItem/fact = VariableItem
    Symbol::Name(NAME_VARIABLE_ITEM),
    // TokenItem/atom = TokenArgs {HELD}
    Symbol::Name(NAME_TOKEN_ARGS),
    Symbol::Act(ACT_HELD),
    // TokenItem/fact = VariableItem
    Symbol::Name(NAME_VARIABLE_ITEM),
    // DoneItem/atom = DoneArgs {HELD}
    Symbol::Name(NAME_DONE_ARGS),
    Symbol::Act(ACT_HELD),
    // DoneItem/fact = VariableItem
    Symbol::Name(NAME_VARIABLE_ITEM),
    // EachItem/atom = EachArgs {HELD}
    Symbol::Name(NAME_EACH_ARGS),
    Symbol::Act(ACT_HELD),
    // EachItem/fact = VariableItem
    Symbol::Name(NAME_VARIABLE_ITEM),
    // VariableItem/fact = {SAVE} {VARIABLE} Operators {RESTORE} {FACT}
    Symbol::Act(SAVE),
    Symbol::Act(ACT_VARIABLE),
    Symbol::Name(NAME_OPERATORS),
    Symbol::Act(RESTORE),
    Symbol::Act(ACT_FACT),
    // Operators/tails = ProductTail SumTail ComparisonTail ConjunctionTail DisjunctionTail
    Symbol::Name(NAME_PRODUCT_TAIL),
    Symbol::Name(NAME_SUM_TAIL),
    Symbol::Name(NAME_COMPARISON_TAIL),
    Symbol::Name(NAME_CONJUNCTION_TAIL),
    Symbol::Name(NAME_DISJUNCTION_TAIL),
    // Second/sign = {SAVE} {OPEN} Bang Unary {UNARY} Operators {RESTORE}
    Symbol::Act(SAVE),
    Symbol::Act(OPEN),
    Symbol::Token(SET_BANG),
    Symbol::Name(NAME_UNARY),
    Symbol::Act(ACT_UNARY),
    Symbol::Name(NAME_OPERATORS),
    Symbol::Act(RESTORE),
    // Second/prim = {SAVE} Prim Operators {RESTORE}
    Symbol::Act(SAVE),
    Symbol::Name(NAME_PRIM),
    Symbol::Name(NAME_OPERATORS),
    Symbol::Act(RESTORE),
    // First/term = {SAVE} FirstDisjunction {RESTORE}
    Symbol::Act(SAVE),
    Symbol::Name(NAME_FIRST_DISJUNCTION),
    Symbol::Act(RESTORE),
    // FirstDisjunction/first = FirstConjunction FirstDisjunctionTail
    Symbol::Name(NAME_FIRST_CONJUNCTION),
    Symbol::Name(NAME_FIRST_DISJUNCTION_TAIL),
    // FirstDisjunctionTail/more = {OPEN} OrOr FirstConjunction {BINARY} FirstDisjunctionTail
    Symbol::Act(OPEN),
    Symbol::Token(SET_OR_OR),
    Symbol::Name(NAME_FIRST_CONJUNCTION),
    Symbol::Act(ACT_BINARY),
    Symbol::Name(NAME_FIRST_DISJUNCTION_TAIL),
    // FirstDisjunctionTail/end =
    // FirstConjunction/first = FirstComparison FirstConjunctionTail
    Symbol::Name(NAME_FIRST_COMPARISON),
    Symbol::Name(NAME_FIRST_CONJUNCTION_TAIL),
    // FirstConjunctionTail/more = {OPEN} AndAnd FirstComparison {BINARY} FirstConjunctionTail
    Symbol::Act(OPEN),
    Symbol::Token(SET_AND_AND),
    Symbol::Name(NAME_FIRST_COMPARISON),
    Symbol::Act(ACT_BINARY),
    Symbol::Name(NAME_FIRST_CONJUNCTION_TAIL),
    // FirstConjunctionTail/end =
    // FirstComparison/first = FirstSum FirstComparisonTail
    Symbol::Name(NAME_FIRST_SUM),
    Symbol::Name(NAME_FIRST_COMPARISON_TAIL),
    // FirstComparisonTail/more = {OPEN} Comparing FirstSum {BINARY} FirstComparisonTail
    Symbol::Act(OPEN),
    Symbol::Token(SET_COMPARING),
    Symbol::Name(NAME_FIRST_SUM),
    Symbol::Act(ACT_BINARY),
    Symbol::Name(NAME_FIRST_COMPARISON_TAIL),
    // FirstComparisonTail/end =
    // FirstSum/first = FirstProduct FirstSumTail
    Symbol::Name(NAME_FIRST_PRODUCT),
    Symbol::Name(NAME_FIRST_SUM_TAIL),
    // FirstSumTail/more = {OPEN} Adding FirstProduct {BINARY} FirstSumTail
    Symbol::Act(OPEN),
    Symbol::Token(SET_ADDING),
    Symbol::Name(NAME_FIRST_PRODUCT),
    Symbol::Act(ACT_BINARY),
    Symbol::Name(NAME_FIRST_SUM_TAIL),
    // FirstSumTail/end =
    // FirstProduct/first = FirstUnary FirstProductTail
    Symbol::Name(NAME_FIRST_UNARY),
    Symbol::Name(NAME_FIRST_PRODUCT_TAIL),
    // FirstProductTail/more = {OPEN} Multiplying FirstUnary {BINARY} FirstProductTail
    Symbol::Act(OPEN),
    Symbol::Token(SET_MULTIPLYING),
    Symbol::Name(NAME_FIRST_UNARY),
    Symbol::Act(ACT_BINARY),
    Symbol::Name(NAME_FIRST_PRODUCT_TAIL),
    // FirstProductTail/end =
    // FirstUnary/sign = {OPEN} Inverting FirstUnary {UNARY}
    Symbol::Act(OPEN),
    Symbol::Token(SET_INVERTING),
    Symbol::Name(NAME_FIRST_UNARY),
    Symbol::Act(ACT_UNARY),
    // FirstUnary/prim = FirstPrim
    Symbol::Name(NAME_FIRST_PRIM),
    // FirstPrim/number = AnyNumber {NUMBER}
    Symbol::Token(SET_ANY_NUMBER),
    Symbol::Act(ACT_NUMBER),
    // FirstPrim/constant = Constant {CONSTANT}
    Symbol::Token(SET_CONSTANT),
    Symbol::Act(ACT_CONSTANT),
    // FirstPrim/free = Free {VARIABLE}
    Symbol::Token(SET_FREE),
    Symbol::Act(ACT_VARIABLE),
    // FirstPrim/paren = {SAVE} {OPEN} LParen Whole RParen {RESTORE} {PAREN}
    Symbol::Act(SAVE),
    Symbol::Act(OPEN),
    Symbol::Token(SET_L_PAREN),
    Symbol::Name(NAME_WHOLE),
    Symbol::Token(SET_R_PAREN),
    Symbol::Act(RESTORE),
    Symbol::Act(ACT_PAREN),
    // FirstPrim/maker = Maker {SAVE} {OPEN} LParen AnyNumber Comma Whole RParen {RESTORE} {MAKER}
    Symbol::Token(SET_MAKER),
    Symbol::Act(SAVE),
    Symbol::Act(OPEN),
    Symbol::Token(SET_L_PAREN),
    Symbol::Token(SET_ANY_NUMBER),
    Symbol::Token(SET_COMMA),
    Symbol::Name(NAME_WHOLE),
    Symbol::Token(SET_R_PAREN),
    Symbol::Act(RESTORE),
    Symbol::Act(ACT_MAKER),
    // FirstPrim/one = OfOne {SAVE} {OPEN} LParen Whole RParen {RESTORE} {OF_ONE}
    Symbol::Token(SET_OF_ONE),
    Symbol::Act(SAVE),
    Symbol::Act(OPEN),
    Symbol::Token(SET_L_PAREN),
    Symbol::Name(NAME_WHOLE),
    Symbol::Token(SET_R_PAREN),
    Symbol::Act(RESTORE),
    Symbol::Act(ACT_OF_ONE),
    // FirstPrim/two = OfTwo {SAVE} {OPEN} LParen Whole Comma Whole RParen {RESTORE} {OF_TWO}
    Symbol::Token(SET_OF_TWO),
    Symbol::Act(SAVE),
    Symbol::Act(OPEN),
    Symbol::Token(SET_L_PAREN),
    Symbol::Name(NAME_WHOLE),
    Symbol::Token(SET_COMMA),
    Symbol::Name(NAME_WHOLE),
    Symbol::Token(SET_R_PAREN),
    Symbol::Act(RESTORE),
    Symbol::Act(ACT_OF_TWO),
    // FirstPrim/three = OfThree {SAVE} {OPEN} LParen Whole Comma Whole Comma Whole RParen {RESTORE} {OF_THREE}
    Symbol::Token(SET_OF_THREE),
    Symbol::Act(SAVE),
    Symbol::Act(OPEN),
    Symbol::Token(SET_L_PAREN),
    Symbol::Name(NAME_WHOLE),
    Symbol::Token(SET_COMMA),
    Symbol::Name(NAME_WHOLE),
    Symbol::Token(SET_COMMA),
    Symbol::Name(NAME_WHOLE),
    Symbol::Token(SET_R_PAREN),
    Symbol::Act(RESTORE),
    Symbol::Act(ACT_OF_THREE),
    // Equation/first = Sum Unequal
    Symbol::Name(NAME_SUM),
    Symbol::Name(NAME_UNEQUAL),
    // Unequal/other = {OPEN} OtherComparing Sum {BINARY} Unequal
    Symbol::Act(OPEN),
    Symbol::Token(SET_OTHER_COMPARING),
    Symbol::Name(NAME_SUM),
    Symbol::Act(ACT_BINARY),
    Symbol::Name(NAME_UNEQUAL),
    // Unequal/equal = {OPEN} Equal Sum {BINARY} Equated
    Symbol::Act(OPEN),
    Symbol::Token(SET_EQUAL),
    Symbol::Name(NAME_SUM),
    Symbol::Act(ACT_BINARY),
    Symbol::Name(NAME_EQUATED),
    // Equated/other = {OPEN} OtherComparing Sum {BINARY} Unequal
    Symbol::Act(OPEN),
    Symbol::Token(SET_OTHER_COMPARING),
    Symbol::Name(NAME_SUM),
    Symbol::Act(ACT_BINARY),
    Symbol::Name(NAME_UNEQUAL),
    // Equated/equal = {OPEN} Equal Sum {BINARY} Equated
    Symbol::Act(OPEN),
    Symbol::Token(SET_EQUAL),
    Symbol::Name(NAME_SUM),
    Symbol::Act(ACT_BINARY),
    Symbol::Name(NAME_EQUATED),
    // Equated/end =
    // Cert/given = GivenWord {GIVEN}
    Symbol::Token(SET_GIVEN_WORD),
    Symbol::Act(ACT_GIVEN),
    // Cert/axiom = AxiomWord AnyNumber InTerms {AXIOM}
    Symbol::Token(SET_AXIOM_WORD),
    Symbol::Token(SET_ANY_NUMBER),
    Symbol::Name(NAME_IN_TERMS),
    Symbol::Act(ACT_AXIOM),
    // Cert/subst = SubstWord {SAVE} Equation {RESTORE} Within {SUBST}
    Symbol::Token(SET_SUBST_WORD),
    Symbol::Act(SAVE),
    Symbol::Name(NAME_EQUATION),
    Symbol::Act(RESTORE),
    Symbol::Name(NAME_WITHIN),
    Symbol::Act(ACT_SUBST),
    // Cert/contra = ContraWord Whole {CONTRA}
    Symbol::Token(SET_CONTRA_WORD),
    Symbol::Name(NAME_WHOLE),
    Symbol::Act(ACT_CONTRA),
    // Cert/linear = LinearWord LBracket {NO_TERMS} Terms RBracket {SAVE} {OPEN} LParen {NO_FACTORS} Factors RParen {RESTORE} {LINEAR}
    Symbol::Token(SET_LINEAR_WORD),
    Symbol::Token(SET_L_BRACKET),
    Symbol::Act(ACT_NO_TERMS),
    Symbol::Name(NAME_TERMS),
    Symbol::Token(SET_R_BRACKET),
    Symbol::Act(SAVE),
    Symbol::Act(OPEN),
    Symbol::Token(SET_L_PAREN),
    Symbol::Act(ACT_NO_FACTORS),
    Symbol::Name(NAME_FACTORS),
    Symbol::Token(SET_R_PAREN),
    Symbol::Act(RESTORE),
    Symbol::Act(ACT_LINEAR),
    // Cert/cases = CasesWord First {SAVE} {OPEN} LParen Cert RParen {RESTORE} {SAVE} {OPEN} LParen Cert RParen {RESTORE} {BY_CASES}
    Symbol::Token(SET_CASES_WORD),
    Symbol::Name(NAME_FIRST),
    Symbol::Act(SAVE),
    Symbol::Act(OPEN),
    Symbol::Token(SET_L_PAREN),
    Symbol::Name(NAME_CERT),
    Symbol::Token(SET_R_PAREN),
    Symbol::Act(RESTORE),
    Symbol::Act(SAVE),
    Symbol::Act(OPEN),
    Symbol::Token(SET_L_PAREN),
    Symbol::Name(NAME_CERT),
    Symbol::Token(SET_R_PAREN),
    Symbol::Act(RESTORE),
    Symbol::Act(ACT_BY_CASES),
    // Cert/steps = StepsWord {SAVE} {OPEN} LBrace {NO_HAVES} Haves Cert RBrace {RESTORE} {STEPS}
    Symbol::Token(SET_STEPS_WORD),
    Symbol::Act(SAVE),
    Symbol::Act(OPEN),
    Symbol::Token(SET_L_BRACE),
    Symbol::Act(ACT_NO_HAVES),
    Symbol::Name(NAME_HAVES),
    Symbol::Name(NAME_CERT),
    Symbol::Token(SET_R_BRACE),
    Symbol::Act(RESTORE),
    Symbol::Act(ACT_STEPS),
    // Within/some = InWord Whole {WORD_TERM}
    Symbol::Token(SET_IN_WORD),
    Symbol::Name(NAME_WHOLE),
    Symbol::Act(ACT_WORD_TERM),
    // Within/none = {NO_TERM}
    Symbol::Act(ACT_NO_TERM),
    // Factors/some = Factored {FACTOR} MoreFactors
    Symbol::Name(NAME_FACTORED),
    Symbol::Act(ACT_FACTOR),
    Symbol::Name(NAME_MORE_FACTORS),
    // Factors/none =
    // MoreFactors/more = Comma Factored {NEXT_FACTOR} MoreFactors
    Symbol::Token(SET_COMMA),
    Symbol::Name(NAME_FACTORED),
    Symbol::Act(ACT_NEXT_FACTOR),
    Symbol::Name(NAME_MORE_FACTORS),
    // MoreFactors/end =
    // Factored/positive = Factor Whole {POSITIVE}
    Symbol::Token(SET_FACTOR),
    Symbol::Name(NAME_WHOLE),
    Symbol::Act(ACT_POSITIVE),
    // Factored/negative = Minus NegativeFactor Whole {NEGATIVE}
    Symbol::Token(SET_MINUS),
    Symbol::Token(SET_NEGATIVE_FACTOR),
    Symbol::Name(NAME_WHOLE),
    Symbol::Act(ACT_NEGATIVE),
    // Haves/more = HaveWord Whole ByWord Cert Semi {STEP_HAVE} Haves
    Symbol::Token(SET_HAVE_WORD),
    Symbol::Name(NAME_WHOLE),
    Symbol::Token(SET_BY_WORD),
    Symbol::Name(NAME_CERT),
    Symbol::Token(SET_SEMI),
    Symbol::Act(ACT_STEP_HAVE),
    Symbol::Name(NAME_HAVES),
    // Haves/end =
    // CertOrHole/cert = Cert
    Symbol::Name(NAME_CERT),
    // CertOrHole/hole = Hole {HOLE}
    Symbol::Token(SET_HOLE),
    Symbol::Act(ACT_HOLE),
    // Simple/on_atom = OnAtomWord Atom {ON_ATOM}
    Symbol::Token(SET_ON_ATOM_WORD),
    Symbol::Name(NAME_ATOM),
    Symbol::Act(ACT_ON_ATOM),
    // Simple/let = LetWord Id Assign Whole {LET}
    Symbol::Token(SET_LET_WORD),
    Symbol::Token(SET_ID),
    Symbol::Token(SET_ASSIGN),
    Symbol::Name(NAME_WHOLE),
    Symbol::Act(ACT_LET),
    // Simple/rewrite = RewriteWord Whole ToWord Whole {REWRITE}
    Symbol::Token(SET_REWRITE_WORD),
    Symbol::Name(NAME_WHOLE),
    Symbol::Token(SET_TO_WORD),
    Symbol::Name(NAME_WHOLE),
    Symbol::Act(ACT_REWRITE),
    // Simple/clash = ClashWord {NO_ATOMS} Atoms {CLASH}
    Symbol::Token(SET_CLASH_WORD),
    Symbol::Act(ACT_NO_ATOMS),
    Symbol::Name(NAME_ATOMS),
    Symbol::Act(ACT_CLASH),
    // Simple/on_pair = OnPairWord Atom Comma Atom {ON_PAIR}
    Symbol::Token(SET_ON_PAIR_WORD),
    Symbol::Name(NAME_ATOM),
    Symbol::Token(SET_COMMA),
    Symbol::Name(NAME_ATOM),
    Symbol::Act(ACT_ON_PAIR),
    // Simple/halves = HalvesWord Halves
    Symbol::Token(SET_HALVES_WORD),
    Symbol::Name(NAME_HALVES),
    // Simple/split = SplitPartWord Atom AtWord Whole {AT}
    Symbol::Token(SET_SPLIT_PART_WORD),
    Symbol::Name(NAME_ATOM),
    Symbol::Token(SET_AT_WORD),
    Symbol::Name(NAME_WHOLE),
    Symbol::Act(ACT_AT),
    // Simple/map = MapWord InAtoms ToWord InAtoms WithWord Id Block {MAP}
    Symbol::Token(SET_MAP_WORD),
    Symbol::Name(NAME_IN_ATOMS),
    Symbol::Token(SET_TO_WORD),
    Symbol::Name(NAME_IN_ATOMS),
    Symbol::Token(SET_WITH_WORD),
    Symbol::Token(SET_ID),
    Symbol::Name(NAME_BLOCK),
    Symbol::Act(ACT_MAP),
    // Simple/alone = AloneWord {ALONE}
    Symbol::Token(SET_ALONE_WORD),
    Symbol::Act(ACT_ALONE),
    // Simple/sim = SimWord Whole With {SIM}
    Symbol::Token(SET_SIM_WORD),
    Symbol::Name(NAME_WHOLE),
    Symbol::Name(NAME_WITH),
    Symbol::Act(ACT_SIM),
    // Simple/on_block = OnBlock Block {ON_BLOCK}
    Symbol::Token(SET_ON_BLOCK),
    Symbol::Name(NAME_BLOCK),
    Symbol::Act(ACT_ON_BLOCK),
    // Simple/boot = BootWord With {BOOT}
    Symbol::Token(SET_BOOT_WORD),
    Symbol::Name(NAME_WITH),
    Symbol::Act(ACT_BOOT),
    // Simple/guard = GuardWord First Inst {GUARD}
    Symbol::Token(SET_GUARD_WORD),
    Symbol::Name(NAME_FIRST),
    Symbol::Name(NAME_INST),
    Symbol::Act(ACT_GUARD),
    // Simple/book = BookWord Id Whole ToWord Whole {SET_BOOK}
    Symbol::Token(SET_BOOK_WORD),
    Symbol::Token(SET_ID),
    Symbol::Name(NAME_WHOLE),
    Symbol::Token(SET_TO_WORD),
    Symbol::Name(NAME_WHOLE),
    Symbol::Act(ACT_SET_BOOK),
    // Simple/forget = ForgetWord First Second ToWord Whole {FORGET}
    Symbol::Token(SET_FORGET_WORD),
    Symbol::Name(NAME_FIRST),
    Symbol::Name(NAME_SECOND),
    Symbol::Token(SET_TO_WORD),
    Symbol::Name(NAME_WHOLE),
    Symbol::Act(ACT_FORGET),
    // Simple/to = ToWord Id InTerms {TO}
    Symbol::Token(SET_TO_WORD),
    Symbol::Token(SET_ID),
    Symbol::Name(NAME_IN_TERMS),
    Symbol::Act(ACT_TO),
    // Simple/merge = MergeWord Atom Comma Atom ToWord Whole {MERGE}
    Symbol::Token(SET_MERGE_WORD),
    Symbol::Name(NAME_ATOM),
    Symbol::Token(SET_COMMA),
    Symbol::Name(NAME_ATOM),
    Symbol::Token(SET_TO_WORD),
    Symbol::Name(NAME_WHOLE),
    Symbol::Act(ACT_MERGE),
    // Simple/void = VoidWord VoidItem {VOID}
    Symbol::Token(SET_VOID_WORD),
    Symbol::Token(SET_VOID_ITEM),
    Symbol::Act(ACT_VOID),
    // Simple/yield = YieldWord Atom Comma Atom ToWord SlWord {SAVE} {OPEN} LParen Whole Comma Whole Comma Whole RParen {RESTORE} {YIELD}
    Symbol::Token(SET_YIELD_WORD),
    Symbol::Name(NAME_ATOM),
    Symbol::Token(SET_COMMA),
    Symbol::Name(NAME_ATOM),
    Symbol::Token(SET_TO_WORD),
    Symbol::Token(SET_SL_WORD),
    Symbol::Act(SAVE),
    Symbol::Act(OPEN),
    Symbol::Token(SET_L_PAREN),
    Symbol::Name(NAME_WHOLE),
    Symbol::Token(SET_COMMA),
    Symbol::Name(NAME_WHOLE),
    Symbol::Token(SET_COMMA),
    Symbol::Name(NAME_WHOLE),
    Symbol::Token(SET_R_PAREN),
    Symbol::Act(RESTORE),
    Symbol::Act(ACT_YIELD),
    // Halves/new = NewWord Whole AsWord Id {HALVES_NEW}
    Symbol::Token(SET_NEW_WORD),
    Symbol::Name(NAME_WHOLE),
    Symbol::Token(SET_AS_WORD),
    Symbol::Token(SET_ID),
    Symbol::Act(ACT_HALVES_NEW),
    // Halves/set = SetWord First Second {HALVES_SET}
    Symbol::Token(SET_SET_WORD),
    Symbol::Name(NAME_FIRST),
    Symbol::Name(NAME_SECOND),
    Symbol::Act(ACT_HALVES_SET),
    // With/some = WithWord InTerms {WORD_TERMS}
    Symbol::Token(SET_WITH_WORD),
    Symbol::Name(NAME_IN_TERMS),
    Symbol::Act(ACT_WORD_TERMS),
    // With/none = {NO_TERMS}
    Symbol::Act(ACT_NO_TERMS),
    // As/some = AsWord InNames {WORD_NAMES}
    Symbol::Token(SET_AS_WORD),
    Symbol::Name(NAME_IN_NAMES),
    Symbol::Act(ACT_WORD_NAMES),
    // As/none = {NO_NAMES}
    Symbol::Act(ACT_NO_NAMES),
    // During/some = DuringWord Block {DURING}
    Symbol::Token(SET_DURING_WORD),
    Symbol::Name(NAME_BLOCK),
    Symbol::Act(ACT_DURING),
    // During/none = {NO_DURING}
    Symbol::Act(ACT_NO_DURING),
    // Ending/semi = Semi {CLOSED}
    Symbol::Token(SET_SEMI),
    Symbol::Act(ACT_CLOSED),
    // Ending/none = {NOT_CLOSED}
    Symbol::Act(ACT_NOT_CLOSED),
    // Block/braces = {SAVE} {OPEN} LBrace {NO_COMMANDS} Commands RBrace {RESTORE} {BLOCK}
    Symbol::Act(SAVE),
    Symbol::Act(OPEN),
    Symbol::Token(SET_L_BRACE),
    Symbol::Act(ACT_NO_COMMANDS),
    Symbol::Name(NAME_COMMANDS),
    Symbol::Token(SET_R_BRACE),
    Symbol::Act(RESTORE),
    Symbol::Act(ACT_BLOCK),
    // Commands/plain = Plain Semi {COMMAND} Commands
    Symbol::Name(NAME_PLAIN),
    Symbol::Token(SET_SEMI),
    Symbol::Act(ACT_COMMAND),
    Symbol::Name(NAME_COMMANDS),
    // Commands/unfold = UnfoldWord Inst Unfold
    Symbol::Token(SET_UNFOLD_WORD),
    Symbol::Name(NAME_INST),
    Symbol::Name(NAME_UNFOLD),
    // Commands/cases = CasesWord Whole Block Block {CASES} Ending {LAST}
    Symbol::Token(SET_CASES_WORD),
    Symbol::Name(NAME_WHOLE),
    Symbol::Name(NAME_BLOCK),
    Symbol::Name(NAME_BLOCK),
    Symbol::Act(ACT_CASES),
    Symbol::Name(NAME_ENDING),
    Symbol::Act(ACT_LAST),
    // Commands/step = StepWord With As During Step
    Symbol::Token(SET_STEP_WORD),
    Symbol::Name(NAME_WITH),
    Symbol::Name(NAME_AS),
    Symbol::Name(NAME_DURING),
    Symbol::Name(NAME_STEP),
    // Commands/end =
    // Unfold/names = InNames {UNFOLD} Semi {COMMAND} Commands
    Symbol::Name(NAME_IN_NAMES),
    Symbol::Act(ACT_UNFOLD),
    Symbol::Token(SET_SEMI),
    Symbol::Act(ACT_COMMAND),
    Symbol::Name(NAME_COMMANDS),
    // Unfold/arms = {NO_ARMS} Arm {NEXT_ARM} Arms {UNFOLD_ARMS} Ending {LAST}
    Symbol::Act(ACT_NO_ARMS),
    Symbol::Name(NAME_ARM),
    Symbol::Act(ACT_NEXT_ARM),
    Symbol::Name(NAME_ARMS),
    Symbol::Act(ACT_UNFOLD_ARMS),
    Symbol::Name(NAME_ENDING),
    Symbol::Act(ACT_LAST),
    // Arm/braces = {SAVE} {OPEN} LBrace InNames {NO_COMMANDS} Commands RBrace {RESTORE} {ARM}
    Symbol::Act(SAVE),
    Symbol::Act(OPEN),
    Symbol::Token(SET_L_BRACE),
    Symbol::Name(NAME_IN_NAMES),
    Symbol::Act(ACT_NO_COMMANDS),
    Symbol::Name(NAME_COMMANDS),
    Symbol::Token(SET_R_BRACE),
    Symbol::Act(RESTORE),
    Symbol::Act(ACT_ARM),
    // Arms/more = Arm {NEXT_ARM} Arms
    Symbol::Name(NAME_ARM),
    Symbol::Act(ACT_NEXT_ARM),
    Symbol::Name(NAME_ARMS),
    // Arms/end =
    // Step/plain = {NO_BLOCKS} {STEP} Semi {COMMAND} Commands
    Symbol::Act(ACT_NO_BLOCKS),
    Symbol::Act(ACT_STEP),
    Symbol::Token(SET_SEMI),
    Symbol::Act(ACT_COMMAND),
    Symbol::Name(NAME_COMMANDS),
    // Step/blocks = {NO_BLOCKS} Block {NEXT_BLOCK} Blocks {STEP} Ending {LAST}
    Symbol::Act(ACT_NO_BLOCKS),
    Symbol::Name(NAME_BLOCK),
    Symbol::Act(ACT_NEXT_BLOCK),
    Symbol::Name(NAME_BLOCKS),
    Symbol::Act(ACT_STEP),
    Symbol::Name(NAME_ENDING),
    Symbol::Act(ACT_LAST),
    // Blocks/more = Block {NEXT_BLOCK} Blocks
    Symbol::Name(NAME_BLOCK),
    Symbol::Act(ACT_NEXT_BLOCK),
    Symbol::Name(NAME_BLOCKS),
    // Blocks/end =
    // Plain/simple = Simple
    Symbol::Name(NAME_SIMPLE),
    // Plain/have = HaveWord Whole ByWord Cert {HAVE}
    Symbol::Token(SET_HAVE_WORD),
    Symbol::Name(NAME_WHOLE),
    Symbol::Token(SET_BY_WORD),
    Symbol::Name(NAME_CERT),
    Symbol::Act(ACT_HAVE),
    // Plain/absurd = AbsurdWord ByWord Cert {ABSURD}
    Symbol::Token(SET_ABSURD_WORD),
    Symbol::Token(SET_BY_WORD),
    Symbol::Name(NAME_CERT),
    Symbol::Act(ACT_ABSURD),
    // Plain/fold = FoldWord Inst AnyNumber InTerms {FILLED} {FOLD}
    Symbol::Token(SET_FOLD_WORD),
    Symbol::Name(NAME_INST),
    Symbol::Token(SET_ANY_NUMBER),
    Symbol::Name(NAME_IN_TERMS),
    Symbol::Act(ACT_FILLED),
    Symbol::Act(ACT_FOLD),
    // Plain/take = TakePut Atom AtWord Whole {AT}
    Symbol::Token(SET_TAKE_PUT),
    Symbol::Name(NAME_ATOM),
    Symbol::Token(SET_AT_WORD),
    Symbol::Name(NAME_WHOLE),
    Symbol::Act(ACT_AT),
    // HoleyBlock/braces = {SAVE} {OPEN} LBrace {NO_COMMANDS} HoleyCommands RBrace {RESTORE} {BLOCK}
    Symbol::Act(SAVE),
    Symbol::Act(OPEN),
    Symbol::Token(SET_L_BRACE),
    Symbol::Act(ACT_NO_COMMANDS),
    Symbol::Name(NAME_HOLEY_COMMANDS),
    Symbol::Token(SET_R_BRACE),
    Symbol::Act(RESTORE),
    Symbol::Act(ACT_BLOCK),
    // HoleyCommands/plain = HoleyPlain Semi {COMMAND} HoleyCommands
    Symbol::Name(NAME_HOLEY_PLAIN),
    Symbol::Token(SET_SEMI),
    Symbol::Act(ACT_COMMAND),
    Symbol::Name(NAME_HOLEY_COMMANDS),
    // HoleyCommands/unfold = UnfoldWord Inst HoleyUnfold
    Symbol::Token(SET_UNFOLD_WORD),
    Symbol::Name(NAME_INST),
    Symbol::Name(NAME_HOLEY_UNFOLD),
    // HoleyCommands/cases = CasesWord Whole HoleyBlock HoleyBlock {CASES} Ending {LAST}
    Symbol::Token(SET_CASES_WORD),
    Symbol::Name(NAME_WHOLE),
    Symbol::Name(NAME_HOLEY_BLOCK),
    Symbol::Name(NAME_HOLEY_BLOCK),
    Symbol::Act(ACT_CASES),
    Symbol::Name(NAME_ENDING),
    Symbol::Act(ACT_LAST),
    // HoleyCommands/step = StepWord With As During HoleyStep
    Symbol::Token(SET_STEP_WORD),
    Symbol::Name(NAME_WITH),
    Symbol::Name(NAME_AS),
    Symbol::Name(NAME_DURING),
    Symbol::Name(NAME_HOLEY_STEP),
    // HoleyCommands/end =
    // HoleyUnfold/names = InNames {UNFOLD} Semi {COMMAND} HoleyCommands
    Symbol::Name(NAME_IN_NAMES),
    Symbol::Act(ACT_UNFOLD),
    Symbol::Token(SET_SEMI),
    Symbol::Act(ACT_COMMAND),
    Symbol::Name(NAME_HOLEY_COMMANDS),
    // HoleyUnfold/arms = {NO_ARMS} HoleyArm {NEXT_ARM} HoleyArms {UNFOLD_ARMS} Ending {LAST}
    Symbol::Act(ACT_NO_ARMS),
    Symbol::Name(NAME_HOLEY_ARM),
    Symbol::Act(ACT_NEXT_ARM),
    Symbol::Name(NAME_HOLEY_ARMS),
    Symbol::Act(ACT_UNFOLD_ARMS),
    Symbol::Name(NAME_ENDING),
    Symbol::Act(ACT_LAST),
    // HoleyArm/braces = {SAVE} {OPEN} LBrace InNames {NO_COMMANDS} HoleyCommands RBrace {RESTORE} {ARM}
    Symbol::Act(SAVE),
    Symbol::Act(OPEN),
    Symbol::Token(SET_L_BRACE),
    Symbol::Name(NAME_IN_NAMES),
    Symbol::Act(ACT_NO_COMMANDS),
    Symbol::Name(NAME_HOLEY_COMMANDS),
    Symbol::Token(SET_R_BRACE),
    Symbol::Act(RESTORE),
    Symbol::Act(ACT_ARM),
    // HoleyArms/more = HoleyArm {NEXT_ARM} HoleyArms
    Symbol::Name(NAME_HOLEY_ARM),
    Symbol::Act(ACT_NEXT_ARM),
    Symbol::Name(NAME_HOLEY_ARMS),
    // HoleyArms/end =
    // HoleyStep/plain = {NO_BLOCKS} {STEP} Semi {COMMAND} HoleyCommands
    Symbol::Act(ACT_NO_BLOCKS),
    Symbol::Act(ACT_STEP),
    Symbol::Token(SET_SEMI),
    Symbol::Act(ACT_COMMAND),
    Symbol::Name(NAME_HOLEY_COMMANDS),
    // HoleyStep/blocks = {NO_BLOCKS} HoleyBlock {NEXT_BLOCK} HoleyBlocks {STEP} Ending {LAST}
    Symbol::Act(ACT_NO_BLOCKS),
    Symbol::Name(NAME_HOLEY_BLOCK),
    Symbol::Act(ACT_NEXT_BLOCK),
    Symbol::Name(NAME_HOLEY_BLOCKS),
    Symbol::Act(ACT_STEP),
    Symbol::Name(NAME_ENDING),
    Symbol::Act(ACT_LAST),
    // HoleyBlocks/more = HoleyBlock {NEXT_BLOCK} HoleyBlocks
    Symbol::Name(NAME_HOLEY_BLOCK),
    Symbol::Act(ACT_NEXT_BLOCK),
    Symbol::Name(NAME_HOLEY_BLOCKS),
    // HoleyBlocks/end =
    // HoleyPlain/simple = Simple
    Symbol::Name(NAME_SIMPLE),
    // HoleyPlain/have = HaveWord Whole ByWord CertOrHole {HAVE}
    Symbol::Token(SET_HAVE_WORD),
    Symbol::Name(NAME_WHOLE),
    Symbol::Token(SET_BY_WORD),
    Symbol::Name(NAME_CERT_OR_HOLE),
    Symbol::Act(ACT_HAVE),
    // HoleyPlain/absurd = AbsurdWord ByWord CertOrHole {ABSURD}
    Symbol::Token(SET_ABSURD_WORD),
    Symbol::Token(SET_BY_WORD),
    Symbol::Name(NAME_CERT_OR_HOLE),
    Symbol::Act(ACT_ABSURD),
    // HoleyPlain/fold = FoldWord Inst AnyNumber Filling {FOLD}
    Symbol::Token(SET_FOLD_WORD),
    Symbol::Name(NAME_INST),
    Symbol::Token(SET_ANY_NUMBER),
    Symbol::Name(NAME_FILLING),
    Symbol::Act(ACT_FOLD),
    // HoleyPlain/take = TakePut Taken
    Symbol::Token(SET_TAKE_PUT),
    Symbol::Name(NAME_TAKEN),
    // Filling/parens = {SAVE} {OPEN} LParen Filled
    Symbol::Act(SAVE),
    Symbol::Act(OPEN),
    Symbol::Token(SET_L_PAREN),
    Symbol::Name(NAME_FILLED),
    // Filled/hole = Hole RParen {RESTORE} {HOLE_TERMS}
    Symbol::Token(SET_HOLE),
    Symbol::Token(SET_R_PAREN),
    Symbol::Act(RESTORE),
    Symbol::Act(ACT_HOLE_TERMS),
    // Filled/terms = {NO_TERMS} Terms RParen {RESTORE} {FILLED_PARENS}
    Symbol::Act(ACT_NO_TERMS),
    Symbol::Name(NAME_TERMS),
    Symbol::Token(SET_R_PAREN),
    Symbol::Act(RESTORE),
    Symbol::Act(ACT_FILLED_PARENS),
    // Taken/atom = Atom AtWord Whole {AT}
    Symbol::Name(NAME_ATOM),
    Symbol::Token(SET_AT_WORD),
    Symbol::Name(NAME_WHOLE),
    Symbol::Act(ACT_AT),
    // Taken/hole = Hole AtWord Whole {AT_HOLE}
    Symbol::Token(SET_HOLE),
    Symbol::Token(SET_AT_WORD),
    Symbol::Name(NAME_WHOLE),
    Symbol::Act(ACT_AT_HOLE),
];

pub static CLASSES: [u8; 458] = [
    1, 58, 59, 60, 61, 62, 63, 64, 65, 66, 67, 68, 69, 70, 71, 72, 73, 74, 75, 76, 77, 78, 79, 80,
    81, 82, 83, 84, 85, 86, 87, 88, 89, 90, 91, 92, 93, 94, 95, 96, 97, 98, 99, 100, 101, 102, 103,
    104, 105, 106, 107, 108, 109, 110, 111, 123, 112, 113, 114, 115, 116, 117, 118, 119, 120, 121,
    122, 32, 25, 26, 27, 28, 29, 30, 31, 2, 3, 4, 5, 6, 7, 8, 9, 10, 11, 12, 13, 14, 15, 16, 17,
    18, 19, 20, 21, 22, 23, 24, 38, 39, 40, 41, 42, 43, 44, 45, 46, 47, 48, 49, 50, 51, 52, 53, 54,
    55, 47, 36, 37, 33, 34, 35, 1, 58, 59, 60, 61, 62, 63, 64, 65, 66, 67, 68, 69, 70, 71, 72, 73,
    74, 75, 76, 77, 78, 79, 80, 81, 82, 83, 84, 85, 86, 87, 88, 89, 90, 91, 92, 93, 94, 95, 96, 97,
    98, 99, 100, 101, 102, 103, 104, 105, 106, 107, 108, 109, 110, 111, 123, 1, 58, 59, 60, 61, 62,
    63, 64, 65, 66, 67, 68, 69, 70, 71, 72, 73, 74, 75, 76, 77, 78, 79, 80, 81, 82, 83, 84, 85, 86,
    87, 88, 89, 90, 91, 92, 93, 94, 95, 96, 97, 98, 99, 100, 101, 102, 103, 104, 105, 106, 107,
    108, 109, 110, 111, 123, 2, 3, 4, 5, 6, 7, 8, 9, 10, 11, 12, 13, 14, 15, 16, 17, 18, 19, 20,
    21, 22, 23, 24, 25, 26, 27, 28, 29, 30, 31, 1, 58, 59, 60, 61, 62, 63, 64, 65, 66, 67, 68, 69,
    70, 71, 72, 73, 74, 75, 76, 77, 78, 79, 80, 81, 82, 83, 84, 85, 86, 87, 88, 89, 90, 91, 92, 93,
    94, 95, 96, 97, 98, 99, 100, 101, 102, 103, 104, 105, 106, 107, 108, 109, 110, 111, 123, 2, 3,
    4, 5, 6, 7, 8, 9, 10, 11, 12, 13, 14, 15, 16, 17, 18, 19, 20, 21, 22, 23, 24, 25, 26, 27, 28,
    29, 30, 31, 112, 113, 114, 115, 116, 117, 118, 119, 120, 121, 122, 113, 114, 67, 72, 95, 60,
    90, 23, 2, 3, 4, 32, 56, 32, 56, 124, 39, 40, 41, 42, 43, 60, 129, 61, 62, 63, 58, 130, 123,
    131, 59, 125, 126, 66, 71, 14, 73, 68, 64, 65, 69, 70, 67, 122, 112, 115, 116, 117, 118, 119,
    120, 121, 107, 132, 111, 55, 38, 104, 105, 106, 108, 109, 127, 128, 84, 110, 45, 77, 78, 133,
    76, 79, 80, 81, 83, 85, 86, 91, 114, 92, 93, 94, 96, 97, 98, 101, 102, 103, 24, 87, 88, 89,
    100, 75, 99, 82, 74,
];

pub static SET_STARTS: [u16; 104] = [
    0, 67, 68, 75, 79, 85, 93, 98, 104, 108, 115, 117, 118, 119, 120, 121, 122, 178, 264, 361, 363,
    365, 367, 369, 372, 374, 377, 382, 383, 384, 385, 386, 387, 388, 389, 390, 391, 392, 393, 394,
    395, 396, 397, 398, 399, 400, 401, 402, 403, 404, 405, 406, 407, 408, 409, 410, 411, 412, 413,
    414, 415, 416, 417, 418, 419, 420, 421, 422, 423, 424, 425, 426, 427, 428, 429, 430, 431, 432,
    433, 434, 435, 436, 437, 438, 439, 440, 441, 442, 443, 444, 445, 446, 447, 448, 449, 450, 451,
    452, 453, 454, 455, 456, 457, 458,
];

pub static TABLE: [u16; 16080] = [
    0, 1, 1, 1, 1, 1, 1, 1, 1, 1, 1, 1, 1, 1, 1, 1, 1, 1, 1, 1, 1, 1, 1, 1, 1, 1, 1, 1, 1, 1, 1, 1,
    1, 1, 0, 0, 0, 0, 0, 0, 0, 0, 0, 0, 0, 0, 0, 1, 0, 0, 0, 0, 0, 0, 0, 1, 0, 0, 1, 1, 1, 1, 1, 1,
    1, 1, 1, 1, 1, 1, 1, 1, 1, 1, 1, 1, 1, 1, 1, 1, 1, 1, 1, 1, 1, 1, 1, 1, 1, 1, 1, 1, 1, 1, 1, 1,
    1, 1, 1, 1, 1, 1, 1, 1, 1, 1, 1, 1, 1, 1, 1, 1, 1, 1, 1, 1, 1, 1, 1, 1, 1, 1, 1, 1, 0, 0, 0, 0,
    0, 0, 0, 0, 0, 0, 0, 2, 2, 2, 2, 2, 2, 2, 2, 2, 2, 2, 2, 2, 2, 2, 2, 2, 2, 2, 2, 2, 2, 2, 2, 2,
    2, 2, 2, 2, 2, 2, 2, 2, 0, 0, 0, 0, 0, 0, 0, 0, 0, 0, 0, 0, 0, 2, 0, 0, 0, 0, 0, 0, 0, 2, 0, 0,
    2, 2, 2, 2, 2, 2, 2, 2, 2, 2, 2, 2, 2, 2, 2, 2, 2, 2, 2, 2, 2, 2, 2, 2, 2, 2, 2, 2, 2, 2, 2, 2,
    2, 2, 2, 2, 2, 2, 2, 2, 2, 2, 2, 2, 2, 2, 2, 2, 2, 2, 2, 2, 2, 2, 2, 2, 2, 2, 2, 2, 2, 2, 2, 2,
    2, 2, 0, 0, 0, 0, 0, 0, 0, 0, 0, 0, 0, 0, 0, 0, 0, 0, 0, 0, 0, 0, 0, 0, 0, 0, 0, 0, 0, 0, 0, 0,
    0, 0, 0, 0, 0, 0, 0, 0, 0, 0, 0, 0, 0, 0, 4, 4, 3, 0, 0, 0, 0, 0, 0, 0, 0, 0, 0, 0, 0, 0, 0, 0,
    0, 0, 0, 0, 0, 0, 0, 0, 0, 0, 0, 0, 0, 0, 0, 0, 0, 0, 0, 0, 0, 0, 0, 0, 0, 0, 4, 0, 0, 4, 0, 0,
    0, 0, 0, 0, 4, 0, 0, 0, 4, 0, 0, 0, 0, 0, 0, 0, 0, 0, 0, 0, 0, 0, 0, 0, 0, 0, 0, 4, 0, 0, 0, 0,
    0, 0, 0, 0, 0, 0, 0, 0, 0, 4, 4, 0, 4, 4, 4, 0, 4, 0, 0, 5, 5, 5, 5, 5, 5, 5, 5, 5, 5, 5, 5, 5,
    5, 5, 5, 5, 5, 5, 5, 5, 5, 5, 5, 5, 5, 5, 5, 5, 5, 5, 5, 5, 0, 0, 0, 0, 0, 0, 0, 0, 0, 0, 0, 0,
    0, 5, 0, 0, 0, 0, 0, 0, 0, 5, 0, 0, 5, 5, 5, 5, 5, 5, 5, 5, 5, 5, 5, 5, 5, 5, 5, 5, 5, 5, 5, 5,
    5, 5, 5, 5, 5, 5, 5, 5, 5, 5, 5, 5, 5, 5, 5, 5, 5, 5, 5, 5, 5, 5, 5, 5, 5, 5, 5, 5, 5, 5, 5, 5,
    5, 5, 5, 5, 5, 5, 5, 5, 5, 5, 5, 5, 5, 5, 0, 0, 0, 0, 0, 0, 0, 0, 0, 0, 0, 0, 0, 0, 0, 0, 0, 0,
    0, 0, 0, 0, 0, 0, 0, 0, 0, 0, 0, 0, 0, 0, 0, 0, 0, 0, 0, 0, 0, 0, 0, 0, 0, 0, 7, 7, 7, 6, 0, 0,
    0, 0, 0, 0, 0, 0, 0, 0, 0, 0, 0, 0, 0, 0, 0, 0, 0, 0, 0, 0, 0, 0, 0, 0, 0, 0, 0, 0, 0, 0, 0, 0,
    0, 0, 0, 0, 0, 0, 7, 0, 0, 7, 0, 0, 0, 0, 0, 0, 7, 0, 0, 0, 7, 0, 0, 0, 0, 0, 0, 0, 0, 0, 0, 0,
    0, 0, 0, 0, 0, 0, 0, 7, 0, 0, 0, 0, 0, 0, 0, 0, 0, 0, 0, 0, 0, 7, 7, 0, 7, 7, 7, 0, 7, 0, 0, 8,
    8, 8, 8, 8, 8, 8, 8, 8, 8, 8, 8, 8, 8, 8, 8, 8, 8, 8, 8, 8, 8, 8, 8, 8, 8, 8, 8, 8, 8, 8, 8, 8,
    0, 0, 0, 0, 0, 0, 0, 0, 0, 0, 0, 0, 0, 8, 0, 0, 0, 0, 0, 0, 0, 8, 0, 0, 8, 8, 8, 8, 8, 8, 8, 8,
    8, 8, 8, 8, 8, 8, 8, 8, 8, 8, 8, 8, 8, 8, 8, 8, 8, 8, 8, 8, 8, 8, 8, 8, 8, 8, 8, 8, 8, 8, 8, 8,
    8, 8, 8, 8, 8, 8, 8, 8, 8, 8, 8, 8, 8, 8, 8, 8, 8, 8, 8, 8, 8, 8, 8, 8, 8, 8, 0, 0, 0, 0, 0, 0,
    0, 0, 0, 0, 0, 0, 0, 0, 0, 0, 0, 0, 0, 0, 0, 0, 0, 0, 0, 0, 0, 0, 0, 0, 0, 0, 0, 0, 0, 0, 0, 0,
    0, 0, 0, 0, 0, 0, 10, 10, 10, 10, 9, 9, 9, 9, 9, 9, 0, 0, 0, 0, 0, 0, 0, 0, 0, 0, 0, 0, 0, 0,
    0, 0, 0, 0, 0, 0, 0, 0, 0, 0, 0, 0, 0, 0, 0, 0, 0, 0, 0, 0, 10, 0, 0, 10, 0, 0, 0, 0, 0, 0, 10,
    0, 0, 0, 10, 0, 0, 0, 0, 0, 0, 0, 0, 0, 0, 0, 0, 0, 0, 0, 0, 0, 0, 10, 0, 0, 0, 0, 0, 0, 0, 0,
    0, 0, 0, 0, 0, 10, 10, 0, 10, 10, 10, 0, 10, 0, 0, 11, 11, 11, 11, 11, 11, 11, 11, 11, 11, 11,
    11, 11, 11, 11, 11, 11, 11, 11, 11, 11, 11, 11, 11, 11, 11, 11, 11, 11, 11, 11, 11, 11, 0, 0,
    0, 0, 0, 0, 0, 0, 0, 0, 0, 0, 0, 11, 0, 0, 0, 0, 0, 0, 0, 11, 0, 0, 11, 11, 11, 11, 11, 11, 11,
    11, 11, 11, 11, 11, 11, 11, 11, 11, 11, 11, 11, 11, 11, 11, 11, 11, 11, 11, 11, 11, 11, 11, 11,
    11, 11, 11, 11, 11, 11, 11, 11, 11, 11, 11, 11, 11, 11, 11, 11, 11, 11, 11, 11, 11, 11, 11, 11,
    11, 11, 11, 11, 11, 11, 11, 11, 11, 11, 11, 0, 0, 0, 0, 0, 0, 0, 0, 0, 0, 0, 0, 0, 0, 0, 0, 0,
    0, 0, 0, 0, 0, 0, 0, 0, 0, 0, 0, 0, 0, 0, 0, 0, 0, 0, 0, 0, 0, 0, 0, 0, 0, 0, 0, 13, 13, 13,
    13, 13, 13, 13, 13, 13, 13, 12, 12, 12, 12, 0, 0, 0, 0, 0, 0, 0, 0, 0, 0, 0, 0, 0, 0, 0, 0, 0,
    0, 0, 0, 0, 0, 0, 0, 0, 0, 0, 0, 0, 0, 13, 0, 0, 13, 0, 0, 0, 0, 0, 0, 13, 0, 0, 0, 13, 0, 0,
    0, 0, 0, 0, 0, 0, 0, 0, 0, 0, 0, 0, 13, 0, 0, 0, 13, 0, 0, 0, 0, 0, 0, 0, 0, 0, 0, 0, 0, 0, 13,
    13, 0, 13, 13, 13, 0, 13, 0, 0, 14, 14, 14, 14, 14, 14, 14, 14, 14, 14, 14, 14, 14, 14, 14, 14,
    14, 14, 14, 14, 14, 14, 14, 14, 14, 14, 14, 14, 14, 14, 14, 14, 14, 0, 0, 0, 0, 0, 0, 0, 0, 0,
    0, 0, 0, 0, 14, 0, 0, 0, 0, 0, 0, 0, 14, 0, 0, 14, 14, 14, 14, 14, 14, 14, 14, 14, 14, 14, 14,
    14, 14, 14, 14, 14, 14, 14, 14, 14, 14, 14, 14, 14, 14, 14, 14, 14, 14, 14, 14, 14, 14, 14, 14,
    14, 14, 14, 14, 14, 14, 14, 14, 14, 14, 14, 14, 14, 14, 14, 14, 14, 14, 14, 14, 14, 14, 14, 14,
    14, 14, 14, 14, 14, 14, 0, 0, 0, 0, 0, 0, 0, 0, 0, 0, 0, 0, 0, 0, 0, 0, 0, 0, 0, 0, 0, 0, 0, 0,
    0, 0, 0, 0, 0, 0, 0, 0, 0, 0, 0, 0, 0, 0, 0, 0, 0, 0, 0, 0, 16, 16, 16, 16, 16, 16, 16, 16, 16,
    16, 16, 16, 16, 16, 15, 15, 15, 15, 15, 15, 15, 0, 0, 0, 0, 0, 0, 0, 0, 0, 0, 0, 0, 0, 0, 0, 0,
    0, 0, 0, 0, 0, 0, 0, 16, 0, 0, 16, 0, 0, 0, 0, 0, 0, 16, 0, 0, 0, 16, 0, 0, 0, 0, 0, 0, 0, 0,
    0, 0, 0, 0, 0, 0, 16, 0, 0, 0, 16, 0, 0, 0, 0, 0, 0, 0, 0, 0, 0, 0, 0, 0, 16, 16, 0, 16, 16,
    16, 0, 16, 0, 0, 18, 18, 18, 18, 18, 18, 18, 18, 18, 18, 18, 18, 18, 18, 18, 18, 18, 18, 18,
    18, 18, 18, 18, 18, 18, 18, 18, 18, 18, 18, 18, 18, 18, 0, 0, 0, 0, 0, 0, 0, 0, 0, 0, 0, 0, 0,
    17, 0, 0, 0, 0, 0, 0, 0, 17, 0, 0, 18, 18, 18, 18, 18, 18, 18, 18, 18, 18, 18, 18, 18, 18, 18,
    18, 18, 18, 18, 18, 18, 18, 18, 18, 18, 18, 18, 18, 18, 18, 18, 18, 18, 18, 18, 18, 18, 18, 18,
    18, 18, 18, 18, 18, 18, 18, 18, 18, 18, 18, 18, 18, 18, 18, 18, 18, 18, 18, 18, 18, 18, 18, 18,
    18, 18, 18, 0, 0, 0, 0, 0, 0, 0, 0, 0, 0, 0, 21, 23, 23, 23, 23, 24, 24, 24, 24, 24, 24, 25,
    25, 25, 25, 25, 25, 25, 25, 26, 26, 26, 26, 26, 20, 20, 20, 20, 20, 20, 20, 19, 22, 0, 0, 0, 0,
    0, 0, 0, 0, 0, 0, 0, 0, 0, 0, 0, 0, 0, 0, 0, 0, 0, 0, 0, 0, 21, 21, 21, 21, 21, 21, 21, 21, 21,
    21, 21, 21, 21, 21, 21, 21, 21, 21, 21, 21, 21, 21, 21, 21, 21, 21, 21, 21, 21, 21, 21, 21, 21,
    21, 21, 21, 21, 21, 21, 21, 21, 21, 21, 21, 21, 21, 21, 21, 21, 21, 21, 21, 21, 21, 21, 21, 21,
    21, 21, 21, 21, 21, 21, 21, 21, 21, 0, 0, 0, 0, 0, 0, 0, 0, 0, 0, 0, 0, 0, 0, 0, 0, 0, 0, 0, 0,
    0, 0, 0, 0, 0, 0, 0, 0, 0, 0, 0, 0, 0, 0, 0, 0, 0, 0, 0, 0, 0, 0, 0, 27, 28, 28, 28, 28, 28,
    28, 28, 28, 28, 28, 28, 28, 28, 28, 28, 28, 28, 28, 28, 28, 28, 0, 0, 0, 0, 0, 0, 0, 0, 0, 0,
    0, 0, 0, 0, 0, 0, 0, 0, 0, 0, 0, 0, 0, 28, 0, 0, 28, 0, 0, 0, 0, 0, 0, 28, 0, 0, 0, 28, 0, 0,
    0, 0, 0, 0, 0, 0, 0, 0, 0, 0, 0, 0, 28, 0, 0, 0, 28, 0, 0, 0, 0, 0, 0, 0, 0, 0, 0, 0, 0, 0, 28,
    28, 0, 28, 28, 28, 0, 28, 0, 0, 0, 0, 0, 0, 0, 0, 0, 0, 0, 0, 0, 0, 0, 0, 0, 0, 0, 0, 0, 0, 0,
    0, 0, 0, 0, 0, 0, 0, 0, 0, 0, 0, 29, 30, 30, 30, 30, 30, 30, 30, 30, 30, 30, 30, 30, 30, 30,
    30, 30, 30, 30, 30, 30, 30, 0, 0, 0, 0, 0, 0, 0, 0, 0, 0, 0, 0, 0, 0, 0, 0, 0, 0, 0, 0, 0, 0,
    0, 30, 0, 0, 30, 0, 0, 0, 0, 0, 0, 30, 0, 0, 0, 30, 0, 0, 0, 0, 0, 0, 0, 0, 0, 0, 0, 0, 0, 0,
    30, 0, 0, 0, 30, 0, 0, 0, 0, 0, 0, 0, 0, 0, 0, 0, 0, 0, 30, 30, 0, 30, 30, 30, 0, 30, 0, 0, 0,
    0, 0, 0, 0, 0, 0, 0, 0, 0, 0, 0, 0, 0, 0, 0, 0, 0, 0, 0, 0, 0, 0, 0, 0, 0, 0, 0, 0, 0, 0, 0,
    31, 32, 32, 32, 32, 32, 32, 32, 32, 32, 32, 32, 32, 32, 32, 32, 32, 32, 32, 32, 32, 32, 0, 0,
    0, 0, 0, 0, 0, 0, 0, 0, 0, 0, 0, 0, 0, 0, 0, 0, 0, 0, 0, 0, 0, 32, 0, 0, 32, 0, 0, 0, 0, 0, 0,
    32, 0, 0, 0, 32, 0, 0, 0, 0, 0, 0, 0, 0, 0, 0, 0, 0, 0, 0, 32, 0, 0, 0, 32, 0, 0, 0, 0, 0, 0,
    0, 0, 0, 0, 0, 0, 0, 32, 32, 0, 32, 32, 32, 0, 32, 0, 0, 0, 0, 0, 0, 0, 0, 0, 0, 0, 0, 0, 0, 0,
    0, 0, 0, 0, 0, 0, 0, 0, 0, 0, 0, 0, 0, 0, 0, 0, 0, 0, 0, 33, 34, 34, 34, 34, 34, 34, 34, 34,
    34, 34, 34, 34, 34, 34, 34, 34, 34, 34, 34, 34, 34, 0, 0, 0, 0, 0, 0, 0, 0, 0, 0, 0, 0, 0, 0,
    0, 0, 0, 0, 0, 0, 0, 0, 0, 34, 0, 0, 34, 0, 0, 0, 0, 0, 0, 34, 0, 0, 0, 34, 0, 0, 0, 0, 0, 0,
    0, 0, 0, 0, 0, 0, 0, 0, 34, 0, 0, 0, 34, 0, 0, 0, 0, 0, 0, 0, 0, 0, 0, 0, 0, 0, 34, 34, 0, 34,
    34, 34, 0, 34, 0, 0, 0, 0, 0, 0, 0, 0, 0, 0, 0, 0, 0, 0, 0, 0, 0, 0, 0, 0, 0, 0, 0, 0, 0, 0, 0,
    0, 0, 0, 0, 0, 0, 0, 0, 0, 0, 0, 0, 0, 0, 0, 0, 0, 0, 0, 0, 0, 0, 0, 0, 0, 0, 0, 0, 0, 0, 0, 0,
    35, 35, 35, 0, 0, 0, 0, 0, 0, 0, 0, 0, 0, 0, 0, 0, 0, 0, 0, 0, 0, 0, 0, 0, 0, 0, 0, 0, 0, 0, 0,
    0, 0, 0, 0, 0, 0, 0, 0, 0, 0, 0, 0, 0, 0, 0, 0, 0, 0, 0, 0, 0, 0, 0, 0, 0, 0, 0, 0, 0, 0, 0, 0,
    0, 0, 0, 0, 0, 0, 0, 0, 0, 0, 0, 0, 0, 0, 0, 0, 0, 0, 0, 0, 0, 0, 0, 0, 0, 0, 0, 0, 0, 0, 0, 0,
    0, 0, 0, 0, 0, 0, 0, 0, 0, 0, 0, 0, 0, 0, 0, 0, 0, 0, 0, 0, 0, 0, 0, 0, 0, 0, 0, 0, 0, 0, 0, 0,
    0, 0, 0, 0, 0, 0, 0, 36, 37, 37, 0, 0, 0, 0, 0, 0, 0, 0, 0, 0, 0, 0, 0, 0, 0, 0, 0, 0, 0, 0, 0,
    0, 0, 0, 0, 0, 0, 0, 0, 0, 0, 0, 0, 0, 0, 0, 0, 0, 0, 0, 0, 0, 0, 0, 0, 0, 0, 0, 0, 0, 0, 0, 0,
    0, 0, 0, 0, 0, 0, 0, 0, 0, 0, 0, 0, 0, 0, 0, 0, 0, 0, 0, 0, 0, 0, 0, 0, 0, 0, 0, 0, 0, 0, 0, 0,
    0, 0, 0, 0, 0, 0, 0, 0, 0, 0, 0, 0, 0, 0, 0, 0, 0, 0, 0, 0, 0, 0, 0, 0, 0, 0, 0, 0, 0, 0, 0, 0,
    0, 0, 0, 0, 0, 0, 0, 0, 0, 0, 0, 0, 0, 0, 0, 38, 39, 0, 0, 0, 0, 0, 0, 0, 0, 0, 0, 0, 0, 0, 0,
    0, 0, 0, 0, 0, 0, 0, 0, 0, 0, 0, 0, 0, 0, 0, 0, 0, 0, 0, 0, 0, 0, 0, 0, 0, 0, 0, 0, 0, 0, 0, 0,
    0, 0, 0, 0, 0, 0, 0, 0, 0, 0, 0, 0, 0, 0, 0, 0, 0, 0, 0, 0, 0, 0, 0, 0, 0, 0, 0, 0, 0, 0, 0, 0,
    0, 0, 0, 0, 0, 0, 0, 0, 0, 0, 0, 0, 0, 0, 0, 0, 0, 0, 0, 0, 0, 0, 0, 0, 0, 0, 0, 0, 0, 0, 0, 0,
    0, 0, 0, 0, 0, 0, 0, 0, 0, 0, 0, 0, 0, 0, 0, 0, 0, 0, 0, 0, 0, 0, 0, 0, 0, 0, 0, 0, 0, 40, 0,
    0, 0, 0, 0, 0, 0, 0, 0, 0, 0, 0, 0, 0, 0, 0, 0, 0, 0, 0, 0, 0, 0, 0, 0, 0, 0, 0, 0, 0, 0, 0, 0,
    0, 0, 0, 0, 0, 0, 0, 0, 0, 0, 0, 0, 0, 0, 0, 0, 0, 0, 0, 0, 0, 0, 0, 0, 0, 0, 0, 0, 0, 0, 0, 0,
    0, 0, 0, 0, 0, 0, 0, 0, 0, 0, 0, 0, 0, 0, 0, 0, 0, 0, 0, 0, 0, 0, 0, 0, 0, 0, 0, 0, 0, 0, 0, 0,
    0, 0, 0, 0, 0, 0, 0, 0, 0, 0, 0, 0, 0, 0, 0, 0, 0, 0, 0, 0, 0, 0, 0, 0, 0, 0, 0, 0, 0, 0, 0, 0,
    0, 0, 0, 0, 41, 0, 0, 0, 0, 0, 0, 0, 0, 0, 0, 0, 0, 0, 0, 0, 0, 0, 0, 0, 0, 0, 0, 0, 0, 0, 0,
    0, 0, 0, 0, 0, 0, 0, 0, 0, 0, 0, 0, 0, 0, 0, 0, 0, 0, 0, 0, 0, 0, 0, 0, 0, 0, 0, 0, 0, 0, 0, 0,
    0, 42, 0, 0, 0, 0, 0, 0, 0, 44, 0, 0, 0, 0, 0, 0, 0, 0, 0, 0, 0, 0, 0, 0, 0, 0, 0, 0, 0, 0, 0,
    0, 0, 0, 0, 0, 0, 0, 0, 0, 0, 0, 0, 0, 0, 0, 0, 0, 0, 0, 0, 0, 0, 0, 0, 0, 0, 0, 0, 0, 0, 0, 0,
    0, 0, 0, 0, 0, 0, 0, 0, 0, 0, 44, 44, 0, 0, 0, 0, 0, 43, 0, 0, 0, 0, 0, 0, 0, 0, 0, 0, 0, 0, 0,
    0, 0, 0, 0, 0, 0, 0, 0, 0, 0, 0, 0, 0, 0, 0, 0, 0, 0, 0, 0, 0, 0, 0, 0, 0, 0, 0, 0, 0, 0, 0, 0,
    0, 0, 0, 0, 0, 0, 0, 0, 0, 0, 0, 0, 0, 0, 0, 0, 0, 46, 0, 0, 0, 0, 0, 0, 0, 0, 0, 0, 0, 0, 0,
    0, 0, 0, 0, 0, 0, 0, 0, 0, 0, 0, 0, 0, 0, 0, 0, 0, 0, 0, 0, 0, 0, 0, 0, 0, 0, 0, 0, 0, 0, 0, 0,
    0, 0, 0, 0, 0, 0, 0, 0, 0, 0, 0, 0, 0, 0, 0, 0, 0, 0, 45, 46, 0, 0, 0, 0, 0, 0, 0, 0, 0, 0, 0,
    0, 0, 0, 0, 0, 0, 0, 0, 0, 0, 0, 0, 0, 0, 0, 0, 0, 0, 0, 0, 0, 0, 0, 0, 0, 0, 0, 0, 0, 0, 0, 0,
    0, 0, 0, 0, 0, 0, 0, 0, 0, 0, 0, 0, 0, 0, 0, 0, 0, 0, 0, 0, 0, 0, 0, 0, 0, 48, 0, 0, 0, 0, 0,
    0, 0, 0, 0, 0, 0, 0, 0, 0, 0, 0, 0, 0, 0, 0, 0, 0, 0, 0, 0, 0, 0, 0, 0, 0, 0, 0, 0, 0, 0, 0, 0,
    0, 0, 0, 0, 0, 0, 0, 0, 0, 0, 0, 0, 0, 0, 0, 0, 0, 0, 0, 0, 0, 0, 0, 0, 0, 0, 0, 47, 0, 0, 0,
    0, 0, 0, 0, 0, 0, 0, 0, 0, 0, 0, 0, 0, 0, 0, 0, 0, 0, 0, 0, 0, 0, 0, 0, 0, 0, 0, 0, 0, 0, 0, 0,
    0, 0, 0, 0, 0, 0, 0, 0, 0, 0, 0, 0, 0, 0, 0, 0, 0, 0, 0, 0, 0, 0, 0, 0, 0, 0, 0, 0, 0, 0, 0, 0,
    0, 0, 0, 0, 0, 0, 0, 0, 0, 0, 0, 0, 0, 0, 0, 0, 0, 0, 0, 0, 0, 0, 0, 0, 0, 0, 0, 0, 0, 0, 0, 0,
    0, 0, 0, 0, 0, 0, 0, 0, 0, 0, 0, 0, 0, 0, 0, 0, 0, 0, 0, 0, 0, 0, 0, 0, 0, 0, 0, 0, 0, 0, 0, 0,
    0, 0, 0, 0, 49, 50, 0, 0, 0, 0, 0, 0, 0, 0, 0, 0, 0, 0, 0, 0, 0, 0, 0, 0, 0, 0, 0, 0, 0, 0, 0,
    0, 0, 0, 0, 0, 0, 0, 0, 0, 0, 0, 0, 0, 0, 0, 0, 0, 0, 0, 0, 0, 0, 0, 0, 0, 0, 0, 0, 0, 0, 0, 0,
    0, 0, 0, 0, 0, 0, 0, 0, 0, 0, 0, 0, 0, 0, 0, 0, 0, 0, 0, 0, 0, 0, 0, 0, 0, 0, 0, 0, 0, 0, 0, 0,
    0, 0, 0, 0, 0, 0, 0, 0, 0, 51, 0, 0, 0, 0, 0, 0, 0, 0, 0, 0, 0, 0, 0, 0, 0, 0, 0, 0, 0, 0, 0,
    0, 0, 0, 0, 0, 0, 0, 0, 0, 0, 0, 0, 0, 0, 0, 0, 0, 0, 0, 0, 0, 0, 0, 0, 0, 0, 0, 0, 0, 0, 0, 0,
    0, 0, 0, 0, 0, 0, 0, 0, 0, 0, 0, 0, 0, 0, 0, 0, 0, 0, 0, 0, 0, 0, 0, 0, 0, 0, 0, 0, 0, 0, 0, 0,
    0, 0, 0, 0, 0, 0, 0, 0, 0, 0, 0, 0, 0, 0, 0, 0, 52, 52, 52, 52, 52, 52, 52, 52, 52, 52, 52, 52,
    52, 52, 52, 52, 52, 52, 52, 52, 52, 52, 52, 52, 52, 52, 52, 52, 52, 52, 52, 0, 0, 53, 0, 0, 0,
    0, 0, 0, 0, 0, 0, 0, 0, 0, 0, 0, 0, 0, 0, 0, 0, 0, 0, 0, 0, 52, 52, 52, 52, 52, 52, 52, 52, 52,
    52, 52, 52, 52, 52, 52, 52, 52, 52, 52, 52, 52, 52, 52, 52, 52, 52, 52, 52, 52, 52, 52, 52, 52,
    52, 52, 52, 52, 52, 52, 52, 52, 52, 52, 52, 52, 52, 52, 52, 52, 52, 52, 52, 52, 52, 52, 52, 52,
    52, 52, 52, 52, 52, 52, 52, 52, 52, 0, 0, 0, 0, 0, 0, 0, 0, 0, 0, 0, 0, 0, 0, 0, 0, 0, 0, 0, 0,
    0, 0, 0, 0, 0, 0, 0, 0, 0, 0, 0, 0, 0, 0, 0, 0, 0, 0, 0, 0, 0, 0, 0, 0, 55, 54, 0, 0, 0, 0, 0,
    0, 0, 0, 0, 0, 0, 0, 0, 0, 0, 0, 0, 0, 0, 0, 0, 0, 0, 0, 0, 0, 0, 0, 0, 0, 0, 0, 0, 0, 0, 0, 0,
    0, 0, 0, 0, 0, 0, 0, 0, 0, 0, 0, 0, 0, 0, 0, 0, 0, 0, 0, 0, 0, 0, 0, 0, 0, 0, 0, 0, 0, 0, 0, 0,
    0, 0, 0, 0, 0, 0, 0, 0, 0, 0, 0, 0, 0, 0, 0, 0, 0, 0, 0, 0, 0, 0, 0, 0, 0, 0, 0, 0, 0, 0, 0, 0,
    0, 0, 0, 0, 0, 0, 0, 0, 0, 0, 0, 0, 0, 0, 0, 0, 0, 0, 0, 0, 0, 0, 0, 0, 0, 0, 0, 0, 0, 0, 56,
    0, 0, 0, 0, 0, 0, 0, 0, 0, 0, 0, 0, 0, 0, 0, 0, 0, 0, 0, 0, 0, 0, 0, 0, 0, 0, 0, 0, 0, 0, 0, 0,
    0, 0, 0, 0, 0, 0, 0, 0, 0, 0, 0, 0, 0, 0, 0, 0, 0, 0, 0, 0, 0, 0, 0, 0, 0, 0, 0, 0, 0, 0, 0, 0,
    0, 0, 0, 0, 0, 0, 0, 0, 0, 0, 0, 0, 0, 0, 0, 0, 0, 0, 0, 0, 0, 0, 0, 0, 0, 0, 0, 0, 0, 0, 0, 0,
    0, 0, 0, 0, 0, 57, 57, 57, 57, 57, 57, 57, 57, 57, 57, 57, 57, 57, 57, 57, 57, 57, 57, 57, 57,
    57, 57, 57, 57, 57, 57, 57, 57, 57, 57, 57, 0, 0, 58, 0, 0, 0, 0, 0, 0, 0, 0, 0, 0, 0, 0, 0, 0,
    0, 0, 0, 0, 0, 0, 0, 0, 0, 57, 57, 57, 57, 57, 57, 57, 57, 57, 57, 57, 57, 57, 57, 57, 57, 57,
    57, 57, 57, 57, 57, 57, 57, 57, 57, 57, 57, 57, 57, 57, 57, 57, 57, 57, 57, 57, 57, 57, 57, 57,
    57, 57, 57, 57, 57, 57, 57, 57, 57, 57, 57, 57, 57, 57, 57, 57, 57, 57, 57, 57, 57, 57, 57, 57,
    57, 0, 0, 0, 0, 0, 0, 0, 0, 0, 0, 0, 0, 0, 0, 0, 0, 0, 0, 0, 0, 0, 0, 0, 0, 0, 0, 0, 0, 0, 0,
    0, 0, 0, 0, 0, 0, 0, 0, 0, 0, 0, 0, 0, 0, 60, 59, 0, 0, 0, 0, 0, 0, 0, 0, 0, 0, 0, 0, 0, 0, 0,
    0, 0, 0, 0, 0, 0, 0, 0, 0, 0, 0, 0, 0, 0, 0, 0, 0, 0, 0, 0, 0, 0, 0, 0, 0, 0, 0, 0, 0, 0, 0, 0,
    0, 0, 0, 0, 0, 0, 0, 0, 0, 0, 0, 0, 0, 0, 0, 0, 0, 0, 0, 0, 0, 0, 0, 0, 0, 0, 0, 0, 0, 0, 0, 0,
    0, 0, 0, 0, 0, 0, 0, 0, 0, 0, 0, 0, 0, 0, 0, 0, 0, 0, 0, 0, 0, 0, 0, 0, 0, 0, 0, 0, 0, 0, 0, 0,
    0, 0, 0, 0, 0, 0, 0, 0, 0, 0, 0, 0, 0, 0, 0, 0, 0, 0, 0, 0, 61, 0, 0, 0, 0, 0, 0, 0, 0, 0, 0,
    0, 0, 0, 0, 0, 0, 0, 0, 0, 0, 0, 0, 0, 0, 0, 0, 0, 0, 0, 0, 0, 0, 0, 0, 0, 0, 0, 0, 0, 0, 0, 0,
    0, 0, 0, 0, 0, 0, 0, 0, 0, 0, 0, 0, 0, 0, 0, 0, 0, 0, 0, 0, 0, 0, 0, 0, 0, 0, 0, 0, 0, 0, 0, 0,
    0, 0, 0, 0, 0, 0, 0, 0, 0, 0, 0, 0, 0, 0, 0, 0, 0, 0, 0, 0, 0, 0, 0, 0, 0, 0, 0, 62, 62, 62,
    62, 62, 62, 62, 62, 62, 62, 62, 62, 62, 62, 62, 62, 62, 62, 62, 62, 62, 62, 62, 62, 62, 62, 62,
    62, 62, 62, 62, 62, 62, 63, 0, 0, 0, 0, 0, 0, 0, 0, 0, 0, 0, 0, 62, 0, 0, 0, 0, 0, 0, 0, 62, 0,
    0, 62, 62, 62, 62, 62, 62, 62, 62, 62, 62, 62, 62, 62, 62, 62, 62, 62, 62, 62, 62, 62, 62, 62,
    62, 62, 62, 62, 62, 62, 62, 62, 62, 62, 62, 62, 62, 62, 62, 62, 62, 62, 62, 62, 62, 62, 62, 62,
    62, 62, 62, 62, 62, 62, 62, 62, 62, 62, 62, 62, 62, 62, 62, 62, 62, 62, 62, 0, 0, 0, 0, 63, 0,
    0, 0, 0, 0, 0, 0, 0, 0, 0, 0, 0, 0, 0, 0, 0, 0, 0, 0, 0, 0, 0, 0, 0, 0, 0, 0, 0, 0, 0, 0, 0, 0,
    0, 0, 0, 0, 0, 0, 65, 64, 0, 0, 0, 0, 0, 0, 0, 0, 0, 0, 0, 0, 0, 0, 0, 0, 0, 0, 0, 0, 0, 0, 0,
    0, 0, 0, 0, 0, 0, 0, 0, 0, 0, 0, 0, 0, 0, 0, 0, 0, 0, 0, 0, 0, 0, 0, 0, 0, 0, 0, 0, 0, 0, 0, 0,
    0, 0, 0, 0, 0, 0, 0, 0, 0, 0, 0, 0, 0, 0, 0, 0, 0, 0, 0, 0, 0, 0, 0, 0, 0, 0, 0, 0, 0, 0, 0, 0,
    0, 0, 0, 0, 0, 65, 0, 0, 0, 0, 0, 0, 66, 66, 66, 66, 66, 66, 66, 66, 66, 66, 66, 66, 66, 66,
    66, 66, 66, 66, 66, 66, 66, 66, 66, 66, 66, 66, 66, 66, 66, 66, 66, 0, 0, 0, 0, 0, 0, 0, 0, 0,
    0, 0, 0, 0, 0, 0, 0, 0, 0, 0, 0, 0, 0, 0, 0, 0, 0, 66, 66, 66, 66, 66, 66, 66, 66, 66, 66, 66,
    66, 66, 66, 66, 66, 66, 66, 66, 66, 66, 66, 66, 66, 66, 66, 66, 66, 66, 66, 66, 66, 66, 66, 66,
    66, 66, 66, 66, 66, 66, 66, 66, 66, 66, 66, 66, 66, 66, 66, 66, 66, 66, 66, 66, 66, 66, 66, 66,
    66, 66, 66, 66, 66, 66, 66, 0, 0, 0, 0, 0, 0, 0, 0, 0, 0, 0, 68, 68, 68, 68, 68, 68, 68, 68,
    68, 68, 68, 68, 68, 68, 68, 68, 68, 68, 68, 68, 68, 68, 68, 68, 68, 68, 68, 68, 68, 68, 68, 0,
    0, 0, 0, 0, 0, 0, 0, 0, 0, 0, 0, 0, 0, 0, 0, 0, 0, 0, 0, 0, 0, 0, 0, 0, 0, 68, 68, 68, 68, 68,
    68, 68, 68, 68, 68, 68, 68, 68, 68, 68, 68, 68, 68, 68, 68, 68, 68, 68, 68, 68, 68, 68, 68, 68,
    68, 68, 68, 68, 68, 68, 68, 68, 68, 68, 68, 68, 68, 68, 68, 68, 68, 68, 68, 68, 68, 68, 68, 68,
    68, 68, 68, 68, 68, 68, 68, 68, 68, 68, 68, 67, 68, 0, 0, 0, 0, 0, 0, 0, 0, 0, 0, 0, 78, 78,
    78, 78, 78, 78, 78, 78, 78, 78, 78, 78, 78, 78, 78, 78, 78, 78, 78, 78, 78, 78, 78, 78, 78, 78,
    78, 78, 78, 78, 78, 0, 0, 0, 0, 0, 0, 0, 0, 0, 0, 0, 0, 0, 0, 0, 0, 0, 0, 0, 0, 0, 0, 0, 0, 0,
    0, 78, 78, 78, 78, 78, 78, 78, 78, 78, 78, 78, 78, 78, 78, 78, 78, 78, 78, 78, 78, 78, 78, 78,
    78, 78, 78, 78, 78, 78, 78, 78, 78, 78, 78, 78, 78, 78, 78, 78, 78, 78, 78, 78, 78, 78, 78, 78,
    78, 78, 78, 78, 78, 78, 78, 69, 70, 70, 71, 72, 73, 74, 75, 76, 77, 0, 78, 0, 0, 0, 0, 0, 0, 0,
    0, 0, 0, 0, 0, 0, 0, 0, 0, 0, 0, 0, 0, 0, 0, 0, 0, 0, 0, 0, 0, 0, 0, 0, 0, 0, 0, 0, 0, 0, 0, 0,
    0, 0, 0, 0, 79, 0, 0, 0, 0, 0, 0, 0, 0, 0, 0, 0, 0, 0, 0, 0, 0, 0, 0, 0, 0, 0, 0, 0, 0, 0, 0,
    0, 0, 0, 0, 0, 0, 0, 0, 0, 0, 0, 0, 0, 0, 0, 0, 0, 0, 0, 0, 0, 0, 0, 0, 0, 0, 0, 0, 0, 0, 0, 0,
    0, 0, 0, 0, 0, 0, 0, 0, 0, 0, 0, 0, 0, 0, 0, 0, 0, 0, 0, 0, 0, 0, 0, 0, 0, 0, 0, 0, 0, 0, 0, 0,
    0, 0, 0, 0, 0, 0, 0, 0, 0, 0, 0, 0, 0, 0, 0, 0, 0, 0, 0, 0, 0, 0, 0, 0, 0, 0, 0, 0, 0, 0, 0, 0,
    0, 0, 0, 0, 0, 0, 0, 0, 0, 0, 0, 80, 0, 0, 0, 0, 0, 0, 0, 0, 0, 0, 0, 0, 0, 0, 0, 0, 0, 0, 0,
    0, 0, 0, 0, 0, 0, 0, 0, 0, 0, 0, 0, 0, 0, 0, 0, 0, 0, 0, 0, 0, 0, 0, 0, 0, 0, 0, 0, 0, 0, 0, 0,
    0, 0, 0, 0, 0, 0, 0, 0, 0, 0, 0, 0, 0, 0, 0, 0, 0, 0, 0, 0, 0, 0, 0, 0, 0, 0, 0, 0, 0, 0, 0, 0,
    0, 0, 0, 0, 0, 0, 0, 0, 0, 0, 0, 0, 0, 0, 0, 0, 0, 0, 0, 0, 0, 0, 0, 0, 0, 0, 0, 0, 0, 0, 0, 0,
    0, 0, 0, 0, 0, 0, 0, 0, 0, 0, 0, 0, 0, 0, 0, 0, 0, 0, 81, 0, 0, 0, 0, 0, 0, 0, 0, 0, 0, 0, 0,
    0, 0, 0, 0, 0, 0, 0, 0, 0, 0, 0, 0, 0, 0, 0, 0, 0, 0, 0, 0, 0, 0, 0, 0, 0, 0, 0, 0, 0, 0, 0, 0,
    0, 0, 0, 0, 0, 0, 0, 0, 0, 0, 0, 0, 0, 0, 0, 0, 0, 0, 0, 0, 0, 0, 0, 0, 0, 0, 0, 0, 0, 0, 0, 0,
    0, 0, 0, 0, 0, 0, 0, 0, 0, 0, 0, 0, 0, 0, 0, 0, 0, 0, 0, 0, 0, 0, 0, 0, 0, 0, 0, 0, 0, 0, 0, 0,
    0, 0, 0, 0, 0, 0, 0, 0, 0, 0, 0, 0, 0, 0, 0, 0, 0, 0, 0, 0, 0, 0, 0, 0, 0, 82, 0, 0, 0, 0, 0,
    0, 0, 0, 0, 0, 0, 0, 0, 0, 0, 0, 0, 0, 0, 0, 0, 0, 0, 0, 0, 0, 0, 0, 0, 0, 0, 0, 0, 0, 0, 0, 0,
    0, 0, 0, 0, 0, 0, 0, 0, 0, 0, 0, 0, 0, 0, 0, 0, 0, 0, 0, 0, 0, 0, 0, 0, 0, 0, 0, 0, 0, 0, 0, 0,
    0, 0, 0, 0, 0, 0, 0, 0, 0, 0, 0, 0, 0, 0, 0, 0, 0, 0, 0, 0, 0, 0, 0, 0, 0, 0, 0, 0, 0, 0, 0, 0,
    0, 0, 0, 0, 0, 0, 0, 0, 0, 0, 0, 0, 0, 0, 0, 0, 0, 0, 0, 0, 0, 0, 0, 0, 0, 0, 0, 0, 0, 0, 0, 0,
    83, 0, 0, 0, 0, 0, 0, 0, 0, 0, 0, 0, 0, 0, 0, 0, 0, 0, 0, 0, 0, 0, 0, 0, 0, 0, 0, 0, 0, 0, 0,
    0, 0, 0, 0, 0, 0, 0, 0, 0, 0, 0, 0, 0, 0, 0, 0, 0, 0, 0, 0, 0, 0, 0, 0, 0, 0, 0, 0, 0, 0, 0, 0,
    0, 0, 0, 0, 0, 0, 0, 0, 0, 0, 0, 0, 0, 0, 0, 0, 0, 0, 0, 0, 0, 0, 0, 0, 0, 0, 0, 0, 0, 0, 0, 0,
    0, 0, 0, 0, 0, 0, 0, 0, 0, 0, 0, 0, 0, 0, 0, 0, 0, 0, 0, 0, 0, 0, 0, 0, 0, 0, 0, 0, 0, 0, 0, 0,
    0, 0, 0, 0, 0, 0, 0, 84, 0, 0, 0, 0, 0, 0, 0, 0, 0, 0, 0, 0, 0, 0, 0, 0, 0, 0, 0, 0, 0, 0, 0,
    0, 0, 0, 0, 0, 0, 0, 0, 0, 0, 0, 0, 0, 0, 0, 0, 0, 0, 0, 0, 0, 0, 0, 0, 0, 0, 0, 0, 0, 0, 0, 0,
    0, 0, 0, 0, 0, 0, 0, 0, 0, 0, 0, 0, 0, 0, 0, 0, 0, 0, 0, 0, 0, 0, 0, 0, 0, 0, 0, 0, 0, 0, 0, 0,
    0, 0, 0, 0, 0, 0, 0, 0, 0, 0, 0, 0, 0, 0, 0, 0, 0, 0, 0, 0, 0, 0, 0, 0, 0, 0, 0, 0, 0, 0, 0, 0,
    0, 0, 0, 0, 0, 0, 0, 0, 0, 0, 0, 0, 0, 0, 85, 0, 0, 0, 0, 0, 0, 0, 0, 0, 0, 0, 0, 0, 0, 0, 0,
    0, 0, 0, 0, 0, 0, 0, 0, 0, 0, 0, 0, 0, 0, 0, 0, 0, 0, 0, 0, 0, 0, 0, 0, 0, 0, 0, 0, 0, 0, 0, 0,
    0, 0, 0, 0, 0, 0, 0, 0, 0, 0, 0, 0, 0, 0, 0, 0, 0, 0, 0, 0, 0, 0, 0, 0, 0, 0, 0, 0, 0, 0, 0, 0,
    0, 0, 0, 0, 0, 0, 0, 0, 0, 0, 0, 0, 0, 0, 0, 0, 0, 0, 0, 0, 0, 0, 0, 0, 0, 0, 0, 0, 0, 0, 0, 0,
    0, 0, 0, 0, 0, 0, 0, 0, 0, 0, 0, 0, 0, 0, 0, 0, 0, 0, 0, 0, 0, 86, 0, 0, 0, 0, 0, 0, 0, 0, 0,
    0, 0, 0, 0, 0, 0, 0, 0, 0, 0, 0, 0, 0, 0, 0, 0, 0, 0, 0, 0, 0, 0, 0, 0, 0, 0, 0, 0, 0, 0, 0, 0,
    0, 0, 0, 0, 0, 0, 0, 0, 0, 0, 0, 0, 0, 0, 0, 0, 0, 0, 0, 0, 0, 0, 0, 0, 0, 0, 0, 0, 0, 0, 0, 0,
    0, 0, 0, 0, 0, 0, 0, 0, 0, 0, 0, 0, 0, 0, 0, 0, 0, 0, 0, 0, 0, 0, 0, 0, 0, 0, 0, 0, 0, 0, 0, 0,
    0, 0, 0, 0, 0, 0, 0, 0, 0, 0, 0, 0, 0, 0, 0, 0, 0, 0, 0, 0, 0, 0, 0, 0, 0, 0, 0, 0, 0, 88, 87,
    0, 0, 0, 0, 0, 0, 0, 0, 0, 0, 0, 0, 0, 0, 0, 0, 0, 0, 0, 0, 0, 0, 0, 0, 0, 0, 0, 0, 0, 0, 0, 0,
    0, 0, 0, 0, 0, 0, 0, 0, 0, 0, 0, 0, 0, 0, 0, 0, 0, 0, 0, 0, 0, 0, 0, 0, 0, 0, 0, 0, 0, 0, 0, 0,
    0, 0, 0, 0, 0, 0, 0, 0, 0, 0, 0, 0, 0, 0, 0, 0, 0, 0, 0, 0, 0, 0, 0, 0, 0, 0, 0, 0, 0, 0, 0, 0,
    0, 0, 0, 0, 0, 0, 0, 0, 0, 0, 0, 0, 0, 0, 0, 0, 0, 0, 0, 0, 0, 0, 0, 0, 0, 0, 0, 0, 0, 0, 0, 0,
    0, 0, 0, 89, 0, 0, 0, 0, 0, 0, 0, 0, 0, 0, 0, 0, 0, 0, 0, 0, 0, 0, 0, 0, 0, 0, 0, 0, 0, 0, 0,
    0, 0, 0, 0, 0, 0, 0, 0, 0, 0, 0, 0, 0, 0, 0, 0, 0, 0, 0, 0, 0, 0, 0, 0, 0, 0, 0, 0, 0, 0, 0, 0,
    0, 0, 0, 0, 0, 0, 0, 0, 0, 0, 0, 0, 0, 0, 0, 0, 0, 0, 0, 0, 0, 0, 0, 0, 0, 0, 0, 0, 0, 0, 0, 0,
    0, 0, 0, 0, 0, 0, 0, 0, 0, 0, 0, 0, 0, 0, 0, 0, 0, 0, 0, 0, 0, 0, 0, 0, 0, 0, 0, 0, 0, 0, 0, 0,
    0, 0, 0, 0, 0, 0, 0, 0, 0, 0, 0, 91, 90, 0, 0, 0, 0, 0, 0, 0, 0, 0, 0, 0, 0, 0, 0, 0, 0, 0, 0,
    0, 0, 0, 0, 0, 0, 0, 0, 0, 0, 0, 0, 0, 0, 0, 0, 0, 0, 0, 0, 0, 0, 0, 0, 0, 0, 0, 0, 0, 0, 0, 0,
    0, 0, 0, 0, 0, 0, 0, 0, 0, 0, 0, 0, 0, 0, 0, 0, 0, 0, 0, 0, 0, 0, 0, 0, 0, 0, 0, 0, 0, 0, 0, 0,
    0, 0, 0, 0, 0, 0, 0, 0, 0, 0, 0, 0, 0, 0, 0, 0, 0, 0, 0, 0, 0, 0, 0, 0, 0, 0, 0, 0, 0, 0, 0, 0,
    0, 0, 0, 0, 0, 0, 0, 0, 0, 0, 0, 0, 0, 0, 0, 0, 0, 92, 0, 0, 0, 0, 0, 0, 0, 0, 0, 0, 0, 0, 0,
    0, 0, 0, 0, 0, 0, 0, 0, 0, 0, 0, 0, 0, 0, 0, 0, 0, 0, 0, 0, 0, 0, 0, 0, 0, 0, 0, 0, 0, 0, 0, 0,
    0, 0, 0, 0, 0, 0, 0, 0, 0, 0, 0, 0, 0, 0, 0, 0, 0, 0, 0, 0, 0, 0, 0, 0, 0, 0, 0, 0, 0, 0, 0, 0,
    0, 0, 0, 0, 0, 0, 0, 0, 0, 0, 0, 0, 0, 0, 0, 0, 0, 0, 0, 0, 0, 0, 0, 0, 0, 0, 0, 0, 0, 0, 0, 0,
    0, 0, 0, 0, 0, 0, 0, 0, 0, 0, 0, 0, 0, 0, 0, 0, 0, 0, 0, 0, 0, 0, 0, 0, 0, 0, 0, 0, 0, 0, 0, 0,
    0, 0, 0, 0, 0, 0, 0, 0, 0, 0, 0, 0, 0, 0, 0, 0, 0, 0, 0, 0, 0, 0, 0, 0, 0, 0, 0, 0, 0, 0, 0, 0,
    0, 0, 0, 0, 0, 0, 0, 0, 0, 0, 0, 0, 0, 0, 0, 0, 0, 0, 0, 0, 0, 0, 0, 0, 0, 0, 0, 0, 0, 0, 0, 0,
    0, 0, 0, 0, 0, 0, 93, 0, 0, 0, 0, 0, 0, 0, 0, 0, 0, 0, 0, 0, 0, 0, 0, 0, 0, 94, 0, 0, 0, 0, 95,
    95, 95, 95, 95, 95, 95, 95, 95, 95, 95, 95, 95, 95, 95, 95, 95, 95, 95, 95, 95, 95, 95, 95, 95,
    95, 95, 95, 95, 95, 95, 0, 0, 0, 0, 0, 0, 0, 0, 0, 0, 0, 0, 0, 0, 0, 0, 0, 0, 0, 0, 0, 0, 0, 0,
    0, 0, 95, 95, 95, 95, 95, 95, 95, 95, 95, 95, 95, 95, 95, 95, 95, 95, 95, 95, 95, 95, 95, 95,
    95, 95, 95, 95, 95, 95, 95, 95, 95, 95, 95, 95, 95, 95, 95, 95, 95, 95, 95, 95, 95, 95, 95, 95,
    95, 95, 95, 95, 95, 95, 95, 95, 95, 95, 95, 95, 95, 95, 95, 95, 95, 95, 95, 95, 0, 0, 0, 0, 0,
    0, 0, 0, 0, 0, 0, 0, 0, 0, 0, 0, 0, 0, 0, 0, 0, 0, 0, 0, 0, 0, 0, 0, 0, 0, 0, 0, 0, 0, 0, 0, 0,
    0, 0, 0, 0, 0, 0, 0, 97, 96, 0, 0, 0, 0, 0, 0, 0, 0, 0, 0, 0, 0, 0, 0, 0, 0, 0, 0, 0, 0, 0, 0,
    0, 0, 0, 0, 0, 0, 0, 0, 0, 0, 0, 0, 0, 0, 0, 0, 0, 0, 0, 0, 0, 0, 0, 0, 0, 0, 0, 0, 0, 0, 0, 0,
    0, 0, 0, 0, 0, 0, 0, 0, 0, 0, 0, 0, 0, 0, 0, 0, 0, 0, 0, 0, 0, 0, 0, 0, 0, 0, 0, 0, 0, 0, 0, 0,
    0, 0, 0, 0, 0, 0, 0, 97, 0, 0, 0, 0, 0, 0, 0, 0, 0, 0, 0, 0, 0, 0, 0, 0, 0, 0, 0, 0, 0, 0, 0,
    0, 0, 0, 0, 0, 0, 0, 0, 0, 0, 0, 0, 0, 0, 98, 0, 0, 0, 0, 0, 0, 0, 0, 0, 0, 0, 0, 0, 0, 0, 0,
    0, 0, 0, 0, 0, 0, 0, 0, 0, 0, 0, 0, 0, 0, 0, 0, 0, 0, 0, 0, 0, 0, 0, 0, 0, 0, 0, 0, 0, 0, 0, 0,
    0, 0, 0, 0, 0, 0, 0, 0, 0, 0, 0, 0, 0, 0, 0, 0, 0, 0, 0, 0, 0, 0, 0, 0, 0, 0, 0, 0, 0, 0, 0, 0,
    0, 0, 0, 0, 0, 0, 0, 0, 0, 0, 0, 0, 0, 0, 0, 0, 0, 0, 0, 0, 0, 0, 0, 0, 0, 0, 0, 0, 0, 0, 0, 0,
    0, 0, 0, 0, 0, 0, 0, 0, 0, 0, 0, 0, 0, 0, 0, 0, 0, 0, 0, 0, 0, 0, 0, 0, 0, 0, 0, 0, 0, 0, 0, 0,
    0, 0, 0, 0, 0, 0, 0, 0, 0, 0, 0, 0, 0, 0, 0, 0, 0, 0, 0, 0, 0, 0, 0, 0, 0, 0, 0, 0, 0, 0, 0, 0,
    0, 0, 0, 0, 0, 0, 0, 0, 0, 0, 0, 0, 0, 0, 0, 0, 0, 0, 0, 0, 0, 0, 0, 0, 0, 0, 0, 0, 0, 0, 0, 0,
    0, 0, 0, 0, 0, 0, 0, 0, 0, 0, 0, 0, 0, 0, 0, 0, 0, 99, 0, 0, 0, 0, 0, 0, 0, 0, 0, 100, 100,
    100, 100, 100, 100, 100, 100, 100, 100, 100, 100, 100, 100, 100, 100, 100, 100, 100, 100, 100,
    100, 100, 100, 100, 100, 100, 100, 100, 100, 100, 100, 100, 0, 0, 0, 0, 0, 0, 0, 0, 0, 0, 0, 0,
    0, 100, 0, 0, 0, 0, 0, 0, 0, 100, 0, 0, 100, 100, 100, 100, 100, 100, 100, 100, 100, 100, 100,
    100, 100, 100, 100, 100, 100, 100, 100, 100, 100, 100, 100, 100, 100, 100, 100, 100, 100, 100,
    100, 100, 100, 100, 100, 100, 100, 100, 100, 100, 100, 100, 100, 100, 100, 100, 100, 100, 100,
    100, 100, 100, 100, 100, 100, 100, 100, 100, 100, 100, 100, 100, 100, 100, 100, 100, 0, 0, 101,
    0, 0, 0, 0, 0, 0, 0, 0, 110, 105, 105, 105, 105, 106, 106, 106, 106, 106, 106, 107, 107, 107,
    107, 107, 107, 107, 107, 108, 108, 108, 108, 108, 109, 109, 109, 109, 109, 109, 109, 103, 104,
    0, 0, 0, 0, 0, 0, 0, 0, 0, 0, 0, 0, 0, 102, 0, 0, 0, 0, 0, 0, 0, 102, 0, 0, 110, 110, 110, 110,
    110, 110, 110, 110, 110, 110, 110, 110, 110, 110, 110, 110, 110, 110, 110, 110, 110, 110, 110,
    110, 110, 110, 110, 110, 110, 110, 110, 110, 110, 110, 110, 110, 110, 110, 110, 110, 110, 110,
    110, 110, 110, 110, 110, 110, 110, 110, 110, 110, 110, 110, 111, 112, 112, 113, 114, 115, 116,
    117, 118, 119, 120, 110, 0, 0, 0, 0, 0, 0, 0, 0, 0, 0, 0, 0, 0, 0, 0, 0, 0, 0, 0, 0, 0, 0, 0,
    0, 0, 0, 0, 0, 0, 0, 0, 0, 0, 0, 0, 0, 0, 0, 0, 0, 0, 0, 0, 121, 0, 0, 122, 122, 122, 122, 122,
    122, 122, 122, 122, 122, 122, 122, 122, 122, 122, 122, 122, 122, 122, 0, 0, 0, 0, 0, 0, 0, 0,
    0, 0, 0, 0, 0, 0, 0, 0, 0, 0, 0, 0, 0, 0, 0, 0, 0, 0, 0, 0, 0, 0, 0, 0, 0, 0, 0, 0, 0, 0, 0, 0,
    0, 0, 0, 0, 0, 0, 0, 0, 0, 0, 0, 0, 0, 0, 0, 0, 0, 0, 0, 0, 0, 0, 0, 0, 0, 0, 0, 0, 0, 0, 0, 0,
    0, 0, 122, 0, 0, 0, 0, 0, 0, 0, 0, 0, 0, 0, 0, 0, 0, 0, 0, 0, 0, 0, 0, 0, 0, 0, 0, 0, 0, 0, 0,
    0, 0, 0, 0, 0, 0, 0, 0, 0, 123, 0, 0, 124, 124, 124, 124, 124, 124, 124, 124, 124, 124, 124,
    124, 124, 124, 124, 124, 124, 124, 124, 0, 0, 0, 0, 0, 0, 0, 0, 0, 0, 0, 0, 0, 0, 0, 0, 0, 0,
    0, 0, 0, 0, 0, 0, 0, 0, 0, 0, 0, 0, 0, 0, 0, 0, 0, 0, 0, 0, 0, 0, 0, 0, 0, 0, 0, 0, 0, 0, 0, 0,
    0, 0, 0, 0, 0, 0, 0, 0, 0, 0, 0, 0, 0, 0, 0, 0, 0, 0, 0, 0, 0, 0, 0, 0, 124, 0, 0, 0, 0, 0, 0,
    0, 0, 0, 0, 0, 0, 0, 0, 0, 0, 0, 0, 0, 0, 0, 0, 0, 0, 0, 0, 0, 0, 0, 0, 0, 0, 0, 0, 0, 0, 0,
    125, 0, 0, 126, 126, 126, 126, 126, 126, 126, 126, 126, 126, 126, 126, 126, 126, 126, 126, 126,
    126, 126, 0, 0, 0, 0, 0, 0, 0, 0, 0, 0, 0, 0, 0, 0, 0, 0, 0, 0, 0, 0, 0, 0, 0, 0, 0, 0, 0, 0,
    0, 0, 0, 0, 0, 0, 0, 0, 0, 0, 0, 0, 0, 0, 0, 0, 0, 0, 0, 0, 0, 0, 0, 0, 0, 0, 0, 0, 0, 0, 0, 0,
    0, 0, 0, 0, 0, 0, 0, 0, 0, 0, 0, 0, 0, 0, 126, 0, 0, 0, 0, 0, 0, 0, 0, 0, 0, 0, 0, 0, 0, 0, 0,
    0, 0, 0, 0, 0, 0, 0, 0, 0, 0, 0, 0, 0, 0, 0, 0, 0, 0, 0, 0, 0, 127, 0, 0, 128, 128, 128, 128,
    128, 128, 128, 128, 128, 128, 128, 128, 128, 128, 128, 128, 128, 128, 128, 0, 0, 0, 0, 0, 0, 0,
    0, 0, 0, 0, 0, 0, 0, 0, 0, 0, 0, 0, 0, 0, 0, 0, 0, 0, 0, 0, 0, 0, 0, 0, 0, 0, 0, 0, 0, 0, 0, 0,
    0, 0, 0, 0, 0, 0, 0, 0, 0, 0, 0, 0, 0, 0, 0, 0, 0, 0, 0, 0, 0, 0, 0, 0, 0, 0, 0, 0, 0, 0, 0, 0,
    0, 0, 0, 128, 0, 0, 0, 0, 0, 0, 0, 0, 0, 0, 0, 0, 0, 0, 0, 0, 0, 0, 0, 0, 0, 0, 0, 0, 0, 0, 0,
    0, 0, 0, 0, 0, 0, 0, 0, 0, 0, 129, 0, 0, 130, 130, 130, 130, 130, 130, 130, 130, 130, 130, 130,
    130, 130, 130, 130, 130, 130, 130, 130, 0, 0, 0, 0, 0, 0, 0, 0, 0, 0, 0, 0, 0, 0, 0, 0, 0, 0,
    0, 0, 0, 0, 0, 0, 0, 0, 0, 0, 0, 0, 0, 0, 0, 0, 0, 0, 0, 0, 0, 0, 0, 0, 0, 0, 0, 0, 0, 0, 0, 0,
    0, 0, 0, 0, 0, 0, 0, 0, 0, 0, 0, 0, 0, 0, 0, 0, 0, 0, 0, 0, 0, 0, 0, 0, 130, 0, 0, 0, 0, 0, 0,
    0, 0, 0, 0, 0, 0, 0, 0, 0, 0, 0, 0, 0, 0, 0, 0, 0, 0, 0, 0, 0, 0, 0, 0, 0, 0, 0, 0, 0, 0, 0,
    131, 0, 0, 132, 132, 132, 132, 132, 132, 132, 132, 132, 132, 132, 132, 132, 132, 132, 132, 132,
    132, 132, 0, 0, 0, 0, 0, 0, 0, 0, 0, 0, 0, 0, 0, 0, 0, 0, 0, 0, 0, 0, 0, 0, 0, 0, 0, 0, 0, 0,
    0, 0, 0, 0, 0, 0, 0, 0, 0, 0, 0, 0, 0, 0, 0, 0, 0, 0, 0, 0, 0, 0, 0, 0, 0, 0, 0, 0, 0, 0, 0, 0,
    0, 0, 0, 0, 0, 0, 0, 0, 0, 0, 0, 0, 0, 0, 132, 0, 0, 0, 0, 0, 0, 0, 0, 0, 0, 0, 0, 0, 0, 0, 0,
    0, 0, 0, 0, 0, 0, 0, 0, 0, 0, 0, 0, 0, 0, 0, 0, 0, 0, 0, 0, 0, 133, 0, 0, 134, 134, 134, 134,
    134, 134, 134, 134, 134, 134, 134, 134, 134, 134, 134, 134, 134, 134, 134, 0, 0, 0, 0, 0, 0, 0,
    0, 0, 0, 0, 0, 0, 0, 0, 0, 0, 0, 0, 0, 0, 0, 0, 0, 0, 0, 0, 0, 0, 0, 0, 0, 0, 0, 0, 0, 0, 0, 0,
    0, 0, 0, 0, 0, 0, 0, 0, 0, 0, 0, 0, 0, 0, 0, 0, 0, 0, 0, 0, 0, 0, 0, 0, 0, 0, 0, 0, 0, 0, 0, 0,
    0, 0, 0, 134, 0, 0, 0, 0, 0, 0, 0, 0, 0, 0, 0, 0, 0, 0, 0, 0, 0, 0, 0, 0, 0, 0, 0, 0, 0, 0, 0,
    0, 0, 0, 0, 0, 0, 0, 0, 0, 0, 135, 0, 0, 136, 136, 136, 136, 136, 136, 136, 136, 136, 136, 136,
    136, 136, 136, 136, 136, 136, 136, 136, 0, 0, 0, 0, 0, 0, 0, 0, 0, 0, 0, 0, 0, 0, 0, 0, 0, 0,
    0, 0, 0, 0, 0, 0, 0, 0, 0, 0, 0, 0, 0, 0, 0, 0, 0, 0, 0, 0, 0, 0, 0, 0, 0, 0, 0, 0, 0, 0, 0, 0,
    0, 0, 0, 0, 0, 0, 0, 0, 0, 0, 0, 0, 0, 0, 0, 0, 0, 0, 0, 0, 0, 0, 0, 0, 136, 0, 0, 0, 0, 0, 0,
    0, 0, 0, 0, 0, 0, 0, 0, 0, 0, 0, 0, 0, 0, 0, 0, 0, 0, 0, 0, 0, 0, 0, 0, 0, 0, 0, 0, 0, 0, 0,
    137, 0, 0, 138, 138, 138, 138, 138, 138, 138, 138, 138, 138, 138, 138, 138, 138, 138, 138, 138,
    138, 138, 0, 0, 0, 0, 0, 0, 0, 0, 0, 0, 0, 0, 0, 0, 0, 0, 0, 0, 0, 0, 0, 0, 0, 0, 0, 0, 0, 0,
    0, 0, 0, 0, 0, 0, 0, 0, 0, 0, 0, 0, 0, 0, 0, 0, 0, 0, 0, 0, 0, 0, 0, 0, 0, 0, 0, 0, 0, 0, 0, 0,
    0, 0, 0, 0, 0, 0, 0, 0, 0, 0, 0, 0, 0, 0, 138, 0, 0, 0, 0, 0, 0, 0, 0, 0, 0, 0, 0, 0, 0, 0, 0,
    0, 0, 0, 0, 0, 0, 0, 0, 0, 0, 0, 0, 0, 0, 0, 0, 0, 0, 0, 0, 0, 139, 0, 0, 140, 140, 140, 140,
    140, 140, 140, 140, 140, 140, 140, 140, 140, 140, 140, 140, 140, 140, 140, 0, 0, 0, 0, 0, 0, 0,
    0, 0, 0, 0, 0, 0, 0, 0, 0, 0, 0, 0, 0, 0, 0, 0, 0, 0, 0, 0, 0, 0, 0, 0, 0, 0, 0, 0, 0, 0, 0, 0,
    0, 0, 0, 0, 0, 0, 0, 0, 0, 0, 0, 0, 0, 0, 0, 0, 0, 0, 0, 0, 0, 0, 0, 0, 0, 0, 0, 0, 0, 0, 0, 0,
    0, 0, 0, 140, 0, 0, 0, 0, 0, 0, 0, 0, 0, 0, 0, 0, 0, 0, 0, 0, 0, 0, 0, 0, 0, 0, 0, 0, 0, 0, 0,
    0, 0, 0, 0, 0, 0, 0, 0, 0, 0, 141, 0, 0, 142, 142, 142, 142, 142, 142, 142, 142, 142, 142, 142,
    142, 142, 142, 142, 142, 142, 142, 142, 0, 0, 0, 0, 0, 0, 0, 0, 0, 0, 0, 0, 0, 0, 0, 0, 0, 0,
    0, 0, 0, 0, 0, 0, 0, 0, 0, 0, 0, 0, 0, 0, 0, 0, 0, 0, 0, 0, 0, 0, 0, 0, 0, 0, 0, 0, 0, 0, 0, 0,
    0, 0, 0, 0, 0, 0, 0, 0, 0, 0, 0, 0, 0, 0, 0, 0, 0, 0, 0, 0, 0, 0, 0, 0, 142, 0, 0, 0, 0, 0, 0,
    0, 0, 0, 0, 0, 0, 0, 0, 0, 0, 0, 0, 0, 0, 0, 0, 0, 0, 0, 0, 0, 0, 0, 0, 0, 0, 0, 0, 0, 0, 0,
    143, 0, 0, 144, 144, 144, 144, 144, 144, 144, 144, 144, 144, 144, 144, 144, 144, 144, 144, 144,
    144, 144, 0, 0, 0, 0, 0, 0, 0, 0, 0, 0, 0, 0, 0, 0, 0, 0, 0, 0, 0, 0, 0, 0, 0, 0, 0, 0, 0, 0,
    0, 0, 0, 0, 0, 0, 0, 0, 0, 0, 0, 0, 0, 0, 0, 0, 0, 0, 0, 0, 0, 0, 0, 0, 0, 0, 0, 0, 0, 0, 0, 0,
    0, 0, 0, 0, 0, 0, 0, 0, 0, 0, 0, 0, 0, 0, 144, 0, 0, 0, 0, 0, 0, 0, 0, 0, 0, 0, 0, 0, 0, 0, 0,
    0, 0, 0, 0, 0, 0, 0, 0, 0, 0, 0, 0, 0, 0, 0, 0, 0, 0, 0, 0, 0, 0, 0, 0, 145, 145, 145, 145,
    145, 145, 145, 145, 145, 145, 145, 145, 145, 145, 145, 145, 145, 145, 145, 0, 0, 0, 0, 0, 0, 0,
    0, 0, 0, 0, 0, 0, 0, 0, 0, 0, 0, 0, 0, 0, 0, 0, 0, 0, 0, 0, 0, 0, 0, 0, 0, 0, 0, 0, 0, 0, 0, 0,
    0, 0, 0, 0, 0, 0, 0, 0, 0, 0, 0, 0, 0, 0, 0, 0, 0, 0, 0, 0, 0, 0, 0, 0, 0, 0, 0, 0, 0, 0, 0, 0,
    0, 0, 0, 145, 0, 0, 0, 0, 0, 0, 0, 0, 0, 0, 0, 0, 0, 0, 0, 0, 0, 0, 0, 0, 0, 0, 0, 0, 0, 0, 0,
    0, 0, 0, 0, 0, 0, 0, 0, 0, 0, 0, 0, 0, 146, 146, 146, 146, 146, 146, 146, 146, 146, 146, 146,
    146, 146, 146, 146, 146, 146, 146, 146, 0, 0, 0, 0, 0, 0, 0, 0, 0, 0, 0, 0, 0, 0, 0, 0, 0, 0,
    0, 0, 0, 0, 0, 0, 0, 0, 146, 0, 0, 0, 0, 0, 0, 0, 0, 0, 0, 0, 0, 0, 0, 0, 0, 0, 0, 0, 0, 0, 0,
    0, 0, 0, 0, 0, 0, 0, 0, 0, 0, 0, 0, 0, 0, 0, 0, 0, 0, 0, 0, 0, 0, 0, 0, 0, 146, 0, 0, 0, 0, 0,
    148, 148, 148, 148, 148, 148, 148, 148, 148, 148, 148, 148, 148, 148, 148, 148, 148, 148, 148,
    148, 148, 148, 148, 148, 148, 148, 148, 148, 148, 148, 148, 148, 148, 0, 0, 0, 0, 0, 0, 0, 0,
    0, 0, 0, 0, 0, 0, 0, 0, 0, 0, 0, 0, 0, 147, 0, 0, 148, 148, 148, 148, 148, 148, 148, 148, 148,
    148, 148, 148, 148, 148, 148, 148, 148, 148, 148, 148, 148, 148, 148, 148, 148, 148, 148, 148,
    148, 148, 148, 148, 148, 148, 148, 148, 148, 148, 148, 148, 148, 148, 148, 148, 148, 148, 148,
    148, 148, 148, 148, 148, 148, 148, 148, 148, 148, 148, 148, 148, 148, 148, 148, 148, 148, 148,
    0, 0, 0, 0, 0, 0, 0, 0, 0, 0, 0, 149, 149, 149, 149, 149, 149, 149, 149, 149, 149, 149, 149,
    149, 149, 149, 149, 149, 149, 149, 149, 149, 149, 149, 149, 149, 149, 149, 149, 149, 149, 149,
    149, 149, 0, 0, 0, 0, 0, 0, 0, 0, 0, 0, 0, 0, 0, 149, 0, 0, 0, 0, 0, 0, 0, 149, 0, 0, 149, 149,
    149, 149, 149, 149, 149, 149, 149, 149, 149, 149, 149, 149, 149, 149, 149, 149, 149, 149, 149,
    149, 149, 149, 149, 149, 149, 149, 149, 149, 149, 149, 149, 149, 149, 149, 149, 149, 149, 149,
    149, 149, 149, 149, 149, 149, 149, 149, 149, 149, 149, 149, 149, 149, 149, 149, 149, 149, 149,
    149, 149, 149, 149, 149, 149, 149, 0, 0, 0, 0, 0, 0, 0, 0, 0, 0, 0, 150, 150, 150, 150, 150,
    150, 150, 150, 150, 150, 150, 150, 150, 150, 150, 150, 150, 150, 150, 150, 150, 150, 150, 150,
    150, 150, 150, 150, 150, 150, 150, 150, 150, 0, 0, 0, 0, 0, 0, 0, 0, 0, 0, 0, 0, 0, 150, 0, 0,
    0, 0, 0, 0, 0, 150, 0, 0, 150, 150, 150, 150, 150, 150, 150, 150, 150, 150, 150, 150, 150, 150,
    150, 150, 150, 150, 150, 150, 150, 150, 150, 150, 150, 150, 150, 150, 150, 150, 150, 150, 150,
    150, 150, 150, 150, 150, 150, 150, 150, 150, 150, 150, 150, 150, 150, 150, 150, 150, 150, 150,
    150, 150, 150, 150, 150, 150, 150, 150, 150, 150, 150, 150, 150, 150, 0, 0, 0, 0, 0, 0, 0, 0,
    0, 0, 0, 152, 152, 152, 152, 152, 152, 152, 152, 152, 152, 152, 152, 152, 152, 152, 152, 152,
    152, 152, 152, 152, 152, 152, 152, 152, 152, 152, 152, 152, 152, 152, 152, 152, 0, 0, 151, 0,
    0, 0, 0, 0, 0, 0, 0, 0, 0, 0, 0, 0, 0, 0, 0, 0, 0, 152, 0, 0, 152, 152, 152, 152, 152, 152,
    152, 152, 152, 152, 152, 152, 152, 152, 152, 152, 152, 152, 152, 152, 152, 152, 152, 152, 152,
    152, 152, 152, 152, 152, 152, 152, 152, 152, 152, 152, 152, 152, 152, 152, 152, 152, 152, 152,
    152, 152, 152, 152, 152, 152, 152, 152, 152, 152, 152, 152, 152, 152, 152, 152, 152, 152, 152,
    152, 152, 152, 0, 0, 0, 0, 0, 0, 0, 0, 0, 0, 0, 153, 153, 153, 153, 153, 153, 153, 153, 153,
    153, 153, 153, 153, 153, 153, 153, 153, 153, 153, 153, 153, 153, 153, 153, 153, 153, 153, 153,
    153, 153, 153, 153, 153, 0, 0, 0, 0, 0, 0, 0, 0, 0, 0, 0, 0, 0, 153, 0, 0, 0, 0, 0, 0, 0, 153,
    0, 0, 153, 153, 153, 153, 153, 153, 153, 153, 153, 153, 153, 153, 153, 153, 153, 153, 153, 153,
    153, 153, 153, 153, 153, 153, 153, 153, 153, 153, 153, 153, 153, 153, 153, 153, 153, 153, 153,
    153, 153, 153, 153, 153, 153, 153, 153, 153, 153, 153, 153, 153, 153, 153, 153, 153, 153, 153,
    153, 153, 153, 153, 153, 153, 153, 153, 153, 153, 0, 0, 0, 0, 0, 0, 0, 0, 0, 0, 0, 155, 155,
    155, 155, 155, 155, 155, 155, 155, 155, 155, 155, 155, 155, 155, 155, 155, 155, 155, 155, 155,
    155, 155, 155, 155, 155, 155, 155, 155, 155, 155, 155, 155, 0, 0, 155, 154, 0, 0, 0, 0, 0, 0,
    0, 0, 0, 0, 0, 0, 0, 0, 0, 0, 0, 155, 0, 0, 155, 155, 155, 155, 155, 155, 155, 155, 155, 155,
    155, 155, 155, 155, 155, 155, 155, 155, 155, 155, 155, 155, 155, 155, 155, 155, 155, 155, 155,
    155, 155, 155, 155, 155, 155, 155, 155, 155, 155, 155, 155, 155, 155, 155, 155, 155, 155, 155,
    155, 155, 155, 155, 155, 155, 155, 155, 155, 155, 155, 155, 155, 155, 155, 155, 155, 155, 0, 0,
    0, 0, 0, 0, 0, 0, 0, 0, 0, 156, 156, 156, 156, 156, 156, 156, 156, 156, 156, 156, 156, 156,
    156, 156, 156, 156, 156, 156, 156, 156, 156, 156, 156, 156, 156, 156, 156, 156, 156, 156, 156,
    156, 0, 0, 0, 0, 0, 0, 0, 0, 0, 0, 0, 0, 0, 156, 0, 0, 0, 0, 0, 0, 0, 156, 0, 0, 156, 156, 156,
    156, 156, 156, 156, 156, 156, 156, 156, 156, 156, 156, 156, 156, 156, 156, 156, 156, 156, 156,
    156, 156, 156, 156, 156, 156, 156, 156, 156, 156, 156, 156, 156, 156, 156, 156, 156, 156, 156,
    156, 156, 156, 156, 156, 156, 156, 156, 156, 156, 156, 156, 156, 156, 156, 156, 156, 156, 156,
    156, 156, 156, 156, 156, 156, 0, 0, 0, 0, 0, 0, 0, 0, 0, 0, 0, 158, 158, 158, 158, 158, 158,
    158, 158, 158, 158, 158, 158, 158, 158, 158, 158, 158, 158, 158, 158, 158, 158, 158, 158, 158,
    158, 158, 158, 158, 158, 158, 158, 158, 0, 0, 158, 158, 157, 157, 157, 157, 157, 157, 0, 0, 0,
    0, 0, 0, 0, 0, 0, 0, 0, 158, 0, 0, 158, 158, 158, 158, 158, 158, 158, 158, 158, 158, 158, 158,
    158, 158, 158, 158, 158, 158, 158, 158, 158, 158, 158, 158, 158, 158, 158, 158, 158, 158, 158,
    158, 158, 158, 158, 158, 158, 158, 158, 158, 158, 158, 158, 158, 158, 158, 158, 158, 158, 158,
    158, 158, 158, 158, 158, 158, 158, 158, 158, 158, 158, 158, 158, 158, 158, 158, 0, 0, 0, 0, 0,
    0, 0, 0, 0, 0, 0, 159, 159, 159, 159, 159, 159, 159, 159, 159, 159, 159, 159, 159, 159, 159,
    159, 159, 159, 159, 159, 159, 159, 159, 159, 159, 159, 159, 159, 159, 159, 159, 159, 159, 0, 0,
    0, 0, 0, 0, 0, 0, 0, 0, 0, 0, 0, 159, 0, 0, 0, 0, 0, 0, 0, 159, 0, 0, 159, 159, 159, 159, 159,
    159, 159, 159, 159, 159, 159, 159, 159, 159, 159, 159, 159, 159, 159, 159, 159, 159, 159, 159,
    159, 159, 159, 159, 159, 159, 159, 159, 159, 159, 159, 159, 159, 159, 159, 159, 159, 159, 159,
    159, 159, 159, 159, 159, 159, 159, 159, 159, 159, 159, 159, 159, 159, 159, 159, 159, 159, 159,
    159, 159, 159, 159, 0, 0, 0, 0, 0, 0, 0, 0, 0, 0, 0, 161, 161, 161, 161, 161, 161, 161, 161,
    161, 161, 161, 161, 161, 161, 161, 161, 161, 161, 161, 161, 161, 161, 161, 161, 161, 161, 161,
    161, 161, 161, 161, 161, 161, 0, 0, 161, 161, 161, 161, 161, 161, 161, 161, 160, 160, 160, 160,
    0, 0, 0, 0, 0, 0, 0, 161, 0, 0, 161, 161, 161, 161, 161, 161, 161, 161, 161, 161, 161, 161,
    161, 161, 161, 161, 161, 161, 161, 161, 161, 161, 161, 161, 161, 161, 161, 161, 161, 161, 161,
    161, 161, 161, 161, 161, 161, 161, 161, 161, 161, 161, 161, 161, 161, 161, 161, 161, 161, 161,
    161, 161, 161, 161, 161, 161, 161, 161, 161, 161, 161, 161, 161, 161, 161, 161, 0, 0, 0, 0, 0,
    0, 0, 0, 0, 0, 0, 162, 162, 162, 162, 162, 162, 162, 162, 162, 162, 162, 162, 162, 162, 162,
    162, 162, 162, 162, 162, 162, 162, 162, 162, 162, 162, 162, 162, 162, 162, 162, 162, 162, 0, 0,
    0, 0, 0, 0, 0, 0, 0, 0, 0, 0, 0, 162, 0, 0, 0, 0, 0, 0, 0, 162, 0, 0, 162, 162, 162, 162, 162,
    162, 162, 162, 162, 162, 162, 162, 162, 162, 162, 162, 162, 162, 162, 162, 162, 162, 162, 162,
    162, 162, 162, 162, 162, 162, 162, 162, 162, 162, 162, 162, 162, 162, 162, 162, 162, 162, 162,
    162, 162, 162, 162, 162, 162, 162, 162, 162, 162, 162, 162, 162, 162, 162, 162, 162, 162, 162,
    162, 162, 162, 162, 0, 0, 0, 0, 0, 0, 0, 0, 0, 0, 0, 164, 164, 164, 164, 164, 164, 164, 164,
    164, 164, 164, 164, 164, 164, 164, 164, 164, 164, 164, 164, 164, 164, 164, 164, 164, 164, 164,
    164, 164, 164, 164, 164, 164, 0, 0, 164, 164, 164, 164, 164, 164, 164, 164, 164, 164, 164, 164,
    163, 163, 163, 163, 163, 163, 163, 164, 0, 0, 164, 164, 164, 164, 164, 164, 164, 164, 164, 164,
    164, 164, 164, 164, 164, 164, 164, 164, 164, 164, 164, 164, 164, 164, 164, 164, 164, 164, 164,
    164, 164, 164, 164, 164, 164, 164, 164, 164, 164, 164, 164, 164, 164, 164, 164, 164, 164, 164,
    164, 164, 164, 164, 164, 164, 164, 164, 164, 164, 164, 164, 164, 164, 164, 164, 164, 164, 0, 0,
    0, 0, 0, 0, 0, 0, 0, 0, 0, 166, 166, 166, 166, 166, 166, 166, 166, 166, 166, 166, 166, 166,
    166, 166, 166, 166, 166, 166, 166, 166, 166, 166, 166, 166, 166, 166, 166, 166, 166, 166, 166,
    166, 0, 0, 0, 0, 0, 0, 0, 0, 0, 0, 0, 0, 0, 165, 0, 0, 0, 0, 0, 0, 0, 165, 0, 0, 166, 166, 166,
    166, 166, 166, 166, 166, 166, 166, 166, 166, 166, 166, 166, 166, 166, 166, 166, 166, 166, 166,
    166, 166, 166, 166, 166, 166, 166, 166, 166, 166, 166, 166, 166, 166, 166, 166, 166, 166, 166,
    166, 166, 166, 166, 166, 166, 166, 166, 166, 166, 166, 166, 166, 166, 166, 166, 166, 166, 166,
    166, 166, 166, 166, 166, 166, 0, 0, 0, 0, 0, 0, 0, 0, 0, 0, 0, 169, 171, 171, 171, 171, 172,
    172, 172, 172, 172, 172, 173, 173, 173, 173, 173, 173, 173, 173, 174, 174, 174, 174, 174, 168,
    168, 168, 168, 168, 168, 168, 167, 170, 0, 0, 0, 0, 0, 0, 0, 0, 0, 0, 0, 0, 0, 0, 0, 0, 0, 0,
    0, 0, 0, 0, 0, 0, 169, 169, 169, 169, 169, 169, 169, 169, 169, 169, 169, 169, 169, 169, 169,
    169, 169, 169, 169, 169, 169, 169, 169, 169, 169, 169, 169, 169, 169, 169, 169, 169, 169, 169,
    169, 169, 169, 169, 169, 169, 169, 169, 169, 169, 169, 169, 169, 169, 169, 169, 169, 169, 169,
    169, 169, 169, 169, 169, 169, 169, 169, 169, 169, 169, 169, 169, 0, 0, 0, 0, 0, 0, 0, 0, 0, 0,
    0, 175, 175, 175, 175, 175, 175, 175, 175, 175, 175, 175, 175, 175, 175, 175, 175, 175, 175,
    175, 175, 175, 175, 175, 175, 175, 175, 175, 175, 175, 175, 175, 175, 175, 0, 0, 0, 0, 0, 0, 0,
    0, 0, 0, 0, 0, 0, 175, 0, 0, 0, 0, 0, 0, 0, 175, 0, 0, 175, 175, 175, 175, 175, 175, 175, 175,
    175, 175, 175, 175, 175, 175, 175, 175, 175, 175, 175, 175, 175, 175, 175, 175, 175, 175, 175,
    175, 175, 175, 175, 175, 175, 175, 175, 175, 175, 175, 175, 175, 175, 175, 175, 175, 175, 175,
    175, 175, 175, 175, 175, 175, 175, 175, 175, 175, 175, 175, 175, 175, 175, 175, 175, 175, 175,
    175, 0, 0, 0, 0, 0, 0, 0, 0, 0, 0, 0, 0, 0, 0, 0, 0, 0, 0, 0, 0, 0, 0, 0, 0, 0, 0, 0, 0, 0, 0,
    0, 0, 0, 0, 0, 0, 0, 0, 0, 0, 0, 0, 0, 0, 0, 0, 0, 0, 177, 176, 176, 176, 176, 176, 0, 0, 0, 0,
    0, 0, 0, 0, 0, 0, 0, 0, 0, 0, 0, 0, 0, 0, 0, 0, 0, 0, 0, 0, 0, 0, 0, 0, 0, 0, 0, 0, 0, 0, 0, 0,
    0, 0, 0, 0, 0, 0, 0, 0, 0, 0, 0, 0, 0, 0, 0, 0, 0, 0, 0, 0, 0, 0, 0, 0, 0, 0, 0, 0, 0, 0, 0, 0,
    0, 0, 0, 0, 0, 0, 0, 0, 0, 0, 0, 0, 0, 0, 0, 0, 0, 0, 0, 0, 0, 0, 0, 0, 0, 0, 0, 0, 0, 0, 0, 0,
    0, 0, 0, 0, 0, 0, 0, 0, 0, 0, 0, 0, 0, 0, 0, 0, 0, 0, 0, 0, 0, 0, 0, 0, 180, 0, 0, 0, 179, 178,
    178, 178, 178, 178, 0, 0, 0, 0, 0, 0, 0, 0, 0, 0, 0, 0, 0, 0, 0, 0, 0, 0, 0, 0, 0, 0, 0, 0, 0,
    0, 0, 0, 0, 0, 0, 0, 0, 0, 0, 0, 0, 0, 0, 0, 0, 0, 0, 0, 0, 0, 0, 0, 0, 0, 0, 0, 0, 0, 0, 0, 0,
    0, 0, 0, 0, 0, 0, 180, 0, 0, 0, 0, 0, 0, 0, 0, 0, 0, 0, 0, 0, 0, 0, 0, 0, 0, 180, 0, 0, 180, 0,
    0, 0, 0, 0, 0, 0, 0, 0, 0, 0, 0, 0, 0, 0, 0, 0, 0, 0, 0, 0, 0, 0, 0, 0, 0, 0, 0, 0, 0, 0, 0, 0,
    0, 0, 0, 0, 0, 0, 0, 0, 0, 0, 0, 0, 0, 0, 0, 0, 0, 0, 0, 0, 0, 0, 0, 0, 0, 0, 0, 0, 0, 0, 0, 0,
    0, 0, 0, 0, 0, 0, 0, 0, 0, 0, 0, 0, 0, 0, 0, 0, 0, 0, 0, 0, 0, 0, 0, 186, 0, 0, 0, 0, 0, 0, 0,
    0, 0, 0, 0, 0, 0, 0, 0, 0, 0, 0, 0, 181, 182, 183, 0, 184, 185, 187, 0, 0, 0, 0, 0, 0, 0, 0, 0,
    0, 0, 0, 0, 0, 0, 0, 0, 0, 0, 0, 0, 0, 0, 0, 0, 0, 0, 0, 0, 0, 0, 0, 0, 0, 0, 0, 0, 0, 0, 0, 0,
    0, 0, 0, 0, 0, 0, 0, 0, 0, 0, 0, 0, 0, 0, 0, 0, 189, 0, 0, 0, 0, 0, 0, 0, 0, 0, 0, 0, 0, 0, 0,
    0, 0, 0, 0, 0, 0, 0, 0, 0, 0, 0, 0, 0, 0, 0, 0, 0, 0, 0, 0, 0, 0, 0, 0, 0, 0, 0, 0, 0, 0, 0, 0,
    0, 0, 0, 0, 0, 0, 0, 0, 0, 0, 0, 0, 0, 0, 0, 0, 0, 0, 0, 0, 0, 0, 0, 0, 0, 0, 188, 0, 0, 0, 0,
    0, 0, 0, 0, 0, 0, 0, 0, 0, 0, 0, 0, 0, 0, 189, 0, 0, 189, 0, 0, 0, 0, 0, 0, 0, 0, 0, 0, 0, 0,
    0, 0, 0, 0, 0, 0, 0, 0, 0, 0, 0, 0, 0, 0, 0, 0, 0, 0, 0, 0, 0, 0, 0, 0, 190, 0, 191, 0, 0, 0,
    0, 0, 0, 0, 0, 0, 0, 190, 0, 0, 0, 0, 0, 0, 0, 0, 0, 0, 190, 0, 0, 0, 0, 0, 0, 0, 0, 0, 0, 0,
    0, 0, 0, 0, 0, 0, 0, 0, 0, 0, 0, 0, 0, 0, 0, 0, 0, 0, 0, 0, 0, 0, 0, 0, 0, 0, 0, 0, 0, 0, 0, 0,
    0, 0, 0, 0, 0, 0, 0, 0, 0, 0, 0, 0, 0, 0, 0, 0, 0, 0, 0, 0, 0, 0, 0, 0, 0, 0, 0, 0, 0, 0, 0, 0,
    0, 0, 0, 0, 0, 0, 0, 0, 0, 0, 0, 0, 0, 0, 0, 0, 0, 0, 0, 0, 0, 0, 0, 0, 0, 0, 0, 0, 0, 0, 0, 0,
    0, 0, 0, 0, 193, 192, 0, 0, 0, 0, 0, 0, 0, 0, 0, 0, 0, 0, 0, 0, 0, 0, 0, 0, 0, 0, 0, 0, 0, 0,
    0, 0, 0, 0, 0, 0, 0, 0, 0, 0, 0, 0, 0, 0, 0, 0, 0, 0, 0, 0, 0, 0, 0, 0, 0, 0, 0, 0, 0, 0, 0, 0,
    0, 0, 0, 0, 0, 0, 0, 0, 0, 0, 0, 0, 0, 0, 0, 0, 0, 0, 0, 0, 0, 0, 0, 0, 0, 0, 0, 0, 0, 0, 0, 0,
    0, 0, 0, 0, 0, 0, 0, 0, 0, 0, 0, 0, 0, 0, 0, 0, 0, 0, 0, 0, 0, 0, 0, 0, 0, 0, 0, 0, 0, 0, 0, 0,
    0, 0, 0, 0, 0, 0, 0, 0, 0, 0, 194, 0, 0, 0, 0, 0, 0, 0, 0, 0, 0, 0, 0, 195, 0, 0, 0, 0, 0, 0,
    0, 0, 0, 0, 194, 0, 0, 0, 0, 0, 0, 0, 0, 0, 0, 0, 0, 0, 0, 0, 0, 0, 0, 0, 0, 0, 0, 0, 0, 0, 0,
    0, 0, 0, 0, 0, 0, 0, 0, 0, 0, 0, 0, 0, 0, 0, 0, 0, 0, 0, 0, 0, 0, 0, 0, 0, 0, 0, 0, 0, 0, 0, 0,
    0, 0, 0, 0, 0, 0, 0, 0, 0, 0, 0, 0, 0, 0, 0, 0, 0, 0, 0, 0, 0, 0, 0, 0, 0, 0, 0, 0, 0, 0, 0, 0,
    0, 0, 0, 0, 0, 0, 0, 0, 0, 0, 0, 0, 0, 0, 0, 0, 0, 0, 0, 0, 0, 0, 0, 0, 0, 0, 0, 0, 0, 0, 0, 0,
    0, 0, 0, 0, 0, 0, 0, 0, 0, 0, 0, 0, 0, 0, 0, 0, 0, 0, 0, 0, 0, 0, 0, 0, 0, 0, 0, 0, 0, 0, 0, 0,
    196, 0, 0, 0, 0, 0, 0, 197, 0, 0, 0, 0, 0, 0, 0, 0, 0, 0, 0, 0, 0, 0, 0, 0, 0, 0, 0, 197, 197,
    197, 0, 197, 197, 197, 0, 0, 0, 0, 0, 0, 0, 0, 0, 0, 0, 0, 0, 0, 0, 0, 0, 0, 0, 0, 0, 0, 0, 0,
    0, 0, 0, 0, 0, 0, 0, 0, 0, 0, 0, 0, 0, 0, 0, 0, 0, 0, 0, 0, 0, 0, 0, 0, 0, 0, 0, 0, 0, 0, 0, 0,
    0, 0, 0, 0, 0, 0, 0, 0, 0, 0, 0, 0, 0, 0, 0, 0, 0, 0, 0, 0, 0, 0, 0, 0, 0, 0, 0, 0, 0, 0, 0, 0,
    0, 0, 0, 0, 0, 0, 0, 0, 0, 0, 0, 0, 0, 0, 0, 0, 0, 0, 0, 198, 0, 0, 0, 0, 0, 0, 0, 0, 0, 0, 0,
    0, 0, 0, 0, 0, 0, 0, 0, 198, 198, 198, 0, 198, 198, 198, 0, 0, 0, 0, 0, 0, 0, 0, 0, 0, 0, 0, 0,
    0, 0, 0, 0, 0, 0, 0, 0, 0, 199, 0, 0, 0, 0, 0, 0, 0, 0, 0, 0, 0, 0, 0, 0, 0, 0, 0, 0, 0, 0, 0,
    0, 0, 0, 0, 0, 0, 0, 0, 0, 0, 0, 0, 0, 0, 0, 0, 0, 0, 0, 0, 0, 0, 0, 0, 0, 0, 0, 0, 0, 0, 0, 0,
    0, 0, 0, 0, 0, 213, 0, 210, 0, 0, 0, 0, 0, 0, 0, 0, 0, 0, 0, 0, 0, 0, 0, 200, 0, 0, 201, 202,
    215, 0, 203, 0, 204, 205, 0, 0, 0, 0, 206, 0, 208, 209, 210, 211, 212, 214, 0, 0, 216, 217,
    218, 0, 0, 0, 0, 0, 0, 0, 0, 0, 0, 207, 0, 0, 0, 0, 0, 0, 0, 0, 0, 0, 0, 0, 0, 0, 0, 0, 0, 0,
    0, 0, 0, 0, 0, 0, 0, 0, 0, 0, 0, 0, 0, 0, 0, 0, 0, 0, 0, 0, 0, 0, 0, 0, 0, 0, 0, 0, 0, 0, 0, 0,
    0, 0, 0, 0, 0, 0, 0, 0, 0, 0, 0, 0, 0, 0, 0, 0, 0, 0, 0, 0, 0, 0, 0, 0, 0, 0, 0, 0, 0, 0, 0, 0,
    0, 0, 0, 0, 0, 0, 0, 0, 0, 0, 0, 0, 0, 0, 0, 0, 0, 0, 0, 0, 0, 0, 0, 0, 219, 0, 220, 0, 0, 0,
    0, 0, 0, 0, 0, 0, 0, 0, 0, 0, 0, 0, 0, 0, 0, 0, 0, 0, 0, 0, 0, 0, 0, 0, 0, 0, 0, 0, 0, 0, 0, 0,
    0, 0, 0, 0, 0, 0, 0, 0, 0, 0, 0, 0, 0, 0, 0, 0, 0, 0, 0, 0, 0, 0, 0, 0, 0, 0, 0, 0, 0, 0, 0, 0,
    0, 0, 0, 0, 0, 0, 0, 0, 0, 0, 0, 0, 0, 0, 0, 0, 0, 0, 0, 0, 0, 0, 0, 0, 0, 0, 0, 0, 0, 0, 0, 0,
    0, 0, 0, 0, 0, 0, 0, 0, 0, 0, 0, 0, 0, 0, 0, 0, 0, 0, 0, 0, 0, 0, 0, 0, 0, 0, 0, 0, 0, 0, 0, 0,
    0, 222, 0, 0, 0, 221, 0, 0, 0, 0, 0, 0, 0, 222, 0, 0, 0, 0, 0, 0, 0, 0, 0, 0, 0, 0, 0, 0, 0, 0,
    0, 0, 0, 0, 0, 0, 0, 0, 222, 0, 0, 0, 222, 0, 0, 0, 0, 0, 0, 0, 0, 0, 0, 0, 0, 0, 0, 0, 0, 0,
    0, 0, 0, 0, 0, 0, 0, 0, 0, 0, 0, 0, 0, 0, 0, 0, 0, 0, 0, 0, 0, 0, 0, 0, 0, 0, 0, 0, 0, 0, 0, 0,
    0, 0, 0, 0, 0, 0, 0, 0, 0, 0, 0, 0, 0, 0, 0, 0, 0, 0, 0, 0, 0, 0, 0, 0, 0, 0, 0, 0, 0, 0, 0, 0,
    0, 0, 0, 0, 0, 0, 0, 0, 0, 0, 0, 223, 0, 0, 0, 0, 0, 0, 0, 0, 0, 0, 0, 224, 0, 0, 0, 0, 0, 0,
    0, 0, 0, 0, 0, 0, 0, 0, 0, 0, 0, 0, 0, 0, 0, 0, 0, 0, 224, 0, 0, 0, 224, 0, 0, 0, 0, 0, 0, 0,
    0, 0, 0, 0, 0, 0, 0, 0, 0, 0, 0, 0, 0, 0, 0, 0, 0, 0, 0, 0, 0, 0, 0, 0, 0, 0, 0, 0, 0, 0, 0, 0,
    0, 0, 0, 0, 0, 0, 0, 0, 0, 0, 0, 0, 0, 0, 0, 0, 0, 0, 0, 0, 0, 0, 0, 0, 0, 0, 0, 0, 0, 0, 0, 0,
    0, 0, 0, 0, 0, 0, 0, 0, 0, 0, 0, 0, 0, 0, 0, 0, 0, 0, 0, 0, 0, 0, 0, 0, 0, 0, 0, 0, 0, 0, 0, 0,
    0, 225, 0, 0, 0, 0, 0, 0, 0, 0, 0, 0, 0, 0, 0, 0, 0, 0, 0, 0, 0, 0, 0, 0, 0, 0, 226, 0, 0, 0,
    226, 0, 0, 0, 0, 0, 0, 0, 0, 0, 0, 0, 0, 0, 0, 0, 0, 0, 0, 0, 0, 0, 0, 0, 0, 0, 0, 0, 0, 0, 0,
    0, 0, 0, 0, 0, 0, 0, 0, 0, 0, 0, 0, 0, 0, 0, 0, 0, 0, 0, 0, 0, 0, 0, 0, 0, 0, 0, 0, 0, 0, 0, 0,
    0, 0, 0, 0, 0, 0, 0, 0, 0, 0, 0, 0, 0, 0, 0, 0, 0, 0, 0, 0, 0, 0, 0, 0, 0, 0, 0, 0, 0, 0, 0, 0,
    0, 0, 0, 0, 0, 0, 0, 0, 0, 0, 0, 0, 0, 0, 0, 0, 0, 0, 0, 0, 0, 0, 0, 0, 0, 0, 0, 0, 0, 0, 0, 0,
    0, 0, 0, 0, 228, 0, 0, 227, 0, 0, 0, 0, 0, 0, 0, 0, 0, 0, 0, 0, 0, 0, 0, 0, 0, 0, 0, 0, 0, 0,
    0, 0, 0, 0, 0, 0, 0, 0, 0, 0, 0, 0, 0, 0, 0, 0, 0, 0, 0, 0, 0, 0, 0, 0, 0, 0, 0, 0, 0, 0, 0, 0,
    0, 0, 0, 0, 0, 0, 0, 0, 0, 0, 0, 0, 0, 0, 0, 0, 0, 0, 0, 0, 0, 0, 0, 0, 0, 0, 0, 0, 0, 0, 0, 0,
    0, 0, 0, 0, 0, 0, 0, 0, 0, 0, 0, 0, 0, 0, 0, 0, 0, 0, 0, 0, 0, 0, 0, 0, 0, 0, 0, 0, 0, 0, 0, 0,
    0, 0, 0, 0, 0, 0, 0, 0, 0, 0, 0, 229, 0, 0, 0, 0, 0, 0, 0, 0, 0, 0, 0, 0, 0, 0, 0, 0, 0, 0, 0,
    0, 0, 0, 0, 0, 0, 0, 0, 0, 0, 0, 0, 230, 0, 0, 0, 0, 0, 0, 0, 0, 0, 0, 0, 0, 0, 0, 0, 0, 0, 0,
    0, 0, 0, 0, 0, 0, 0, 0, 0, 0, 0, 0, 0, 0, 0, 0, 230, 0, 230, 0, 0, 0, 0, 0, 0, 0, 0, 0, 0, 0,
    0, 0, 230, 231, 230, 230, 0, 230, 230, 230, 230, 230, 232, 230, 230, 0, 0, 0, 230, 230, 0, 230,
    230, 230, 230, 230, 230, 233, 0, 230, 230, 230, 0, 0, 0, 0, 0, 0, 0, 0, 0, 0, 230, 0, 0, 0, 0,
    0, 0, 0, 0, 0, 0, 0, 234, 0, 0, 0, 0, 0, 0, 0, 0, 0, 0, 0, 0, 0, 0, 0, 0, 0, 0, 0, 0, 0, 0, 0,
    0, 0, 0, 0, 0, 0, 0, 0, 0, 0, 0, 0, 0, 0, 0, 0, 0, 235, 0, 0, 0, 0, 0, 0, 0, 0, 0, 0, 0, 0, 0,
    0, 0, 0, 0, 0, 0, 0, 0, 0, 0, 0, 0, 0, 0, 0, 0, 0, 0, 0, 0, 0, 0, 0, 0, 0, 0, 0, 0, 0, 0, 0, 0,
    0, 0, 0, 0, 0, 0, 0, 0, 0, 0, 0, 0, 0, 0, 0, 0, 0, 0, 0, 0, 0, 0, 0, 0, 0, 0, 0, 0, 0, 0, 0, 0,
    0, 0, 0, 0, 0, 0, 0, 0, 0, 0, 0, 0, 0, 0, 236, 0, 0, 0, 0, 0, 0, 0, 0, 0, 0, 0, 0, 0, 0, 0, 0,
    0, 0, 0, 0, 0, 0, 0, 0, 0, 0, 0, 0, 0, 0, 0, 0, 0, 0, 0, 0, 0, 0, 0, 0, 0, 0, 0, 0, 0, 0, 0, 0,
    0, 0, 0, 0, 0, 0, 0, 0, 0, 0, 0, 0, 0, 0, 0, 0, 0, 0, 0, 0, 0, 0, 0, 0, 0, 0, 0, 0, 0, 0, 0, 0,
    0, 0, 0, 0, 0, 0, 0, 0, 0, 0, 0, 0, 0, 0, 0, 0, 0, 0, 0, 0, 0, 0, 0, 0, 0, 0, 0, 0, 0, 0, 0, 0,
    0, 0, 0, 0, 0, 0, 0, 0, 0, 0, 0, 0, 0, 0, 0, 0, 0, 0, 0, 0, 0, 237, 0, 0, 0, 0, 0, 0, 0, 0, 0,
    0, 0, 0, 0, 0, 0, 0, 0, 0, 0, 0, 0, 0, 0, 0, 0, 0, 0, 0, 0, 0, 0, 0, 0, 0, 0, 0, 0, 0, 0, 0, 0,
    0, 0, 0, 0, 0, 0, 0, 0, 0, 0, 0, 0, 0, 0, 0, 0, 0, 0, 0, 0, 0, 0, 0, 0, 0, 0, 0, 0, 0, 0, 0, 0,
    0, 0, 0, 0, 0, 0, 0, 0, 0, 0, 0, 0, 0, 0, 0, 0, 0, 0, 0, 0, 0, 0, 0, 0, 0, 0, 0, 0, 0, 0, 0, 0,
    0, 0, 0, 0, 0, 0, 0, 0, 0, 0, 0, 0, 0, 0, 0, 0, 0, 0, 0, 0, 0, 0, 0, 0, 0, 0, 0, 0, 238, 239,
    0, 0, 239, 0, 0, 0, 0, 0, 0, 0, 0, 0, 0, 0, 0, 0, 0, 0, 0, 0, 0, 0, 0, 0, 0, 0, 0, 0, 0, 0, 0,
    0, 0, 0, 0, 0, 0, 0, 0, 0, 0, 0, 0, 0, 0, 0, 0, 0, 0, 0, 0, 0, 0, 0, 0, 0, 0, 0, 0, 0, 0, 0, 0,
    0, 0, 0, 0, 0, 0, 0, 0, 0, 0, 0, 0, 0, 0, 0, 0, 0, 0, 0, 0, 0, 0, 0, 0, 0, 0, 0, 0, 0, 0, 0, 0,
    0, 0, 0, 0, 0, 0, 0, 0, 0, 0, 0, 0, 0, 0, 0, 0, 0, 0, 0, 0, 0, 0, 0, 0, 0, 0, 0, 0, 0, 0, 0, 0,
    0, 0, 0, 0, 0, 241, 0, 0, 0, 240, 0, 0, 0, 0, 0, 0, 0, 0, 0, 0, 0, 0, 0, 0, 0, 0, 0, 0, 0, 0,
    0, 0, 0, 0, 0, 0, 0, 0, 0, 0, 0, 0, 0, 0, 0, 0, 0, 0, 0, 0, 0, 0, 0, 0, 0, 0, 0, 0, 0, 0, 0, 0,
    0, 0, 0, 0, 0, 0, 0, 0, 0, 0, 0, 0, 0, 0, 0, 0, 0, 0, 0, 0, 0, 0, 0, 0, 0, 0, 0, 0, 0, 0, 0, 0,
    0, 0, 0, 0, 0, 0, 0, 0, 0, 0, 0, 0, 0, 0, 0, 0, 0, 0, 0, 0, 0, 0, 0, 0, 0, 0, 0, 0, 0, 0, 0, 0,
    0, 0, 0, 0, 0, 0, 0, 0, 0, 0, 0, 0, 0, 242, 243, 0, 0, 243, 0, 0, 0, 0, 0, 0, 0, 0, 0, 0, 0, 0,
    0, 0, 0, 0, 0, 0, 0, 0, 0, 0, 0, 0, 0, 0, 0, 248, 0, 0, 0, 0, 0, 0, 0, 0, 0, 0, 0, 0, 0, 0, 0,
    0, 0, 0, 0, 0, 0, 0, 0, 0, 0, 0, 0, 0, 0, 0, 0, 0, 0, 0, 244, 0, 244, 0, 0, 0, 0, 0, 0, 0, 0,
    0, 0, 0, 0, 0, 247, 0, 244, 245, 0, 244, 244, 244, 246, 244, 0, 244, 244, 0, 0, 0, 248, 244, 0,
    244, 244, 244, 244, 244, 244, 0, 0, 244, 244, 244, 0, 0, 0, 0, 0, 0, 0, 0, 0, 0, 244, 0, 0, 0,
    0, 0, 0, 0, 0, 0, 0, 0, 0, 0, 0, 0, 0, 0, 0, 0, 0, 0, 0, 0, 0, 0, 0, 0, 0, 0, 0, 0, 0, 0, 0, 0,
    0, 0, 0, 0, 0, 0, 0, 0, 0, 0, 0, 0, 0, 0, 0, 0, 0, 0, 0, 0, 0, 0, 0, 0, 0, 0, 0, 0, 0, 0, 0, 0,
    0, 0, 0, 0, 0, 0, 0, 0, 0, 0, 0, 0, 0, 0, 0, 0, 0, 0, 0, 0, 0, 0, 0, 0, 0, 0, 0, 0, 0, 0, 0, 0,
    0, 0, 0, 0, 0, 0, 0, 0, 0, 0, 0, 0, 0, 0, 0, 0, 0, 0, 0, 0, 0, 0, 0, 0, 0, 0, 0, 0, 0, 0, 0, 0,
    0, 0, 0, 0, 0, 0, 0, 0, 0, 0, 0, 0, 0, 249, 0, 0, 0, 0, 0, 0, 0, 0, 0, 0, 0, 0, 0, 0, 0, 0, 0,
    0, 0, 0, 0, 0, 0, 0, 0, 0, 0, 0, 0, 0, 0, 250, 0, 0, 0, 0, 0, 0, 0, 0, 0, 0, 0, 0, 0, 0, 0, 0,
    0, 0, 0, 0, 0, 0, 0, 0, 0, 0, 0, 0, 0, 0, 0, 0, 0, 0, 250, 0, 250, 0, 0, 0, 0, 0, 0, 0, 0, 0,
    0, 0, 0, 0, 250, 251, 250, 250, 0, 250, 250, 250, 250, 250, 252, 250, 250, 0, 0, 0, 250, 250,
    0, 250, 250, 250, 250, 250, 250, 253, 0, 250, 250, 250, 0, 0, 0, 0, 0, 0, 0, 0, 0, 0, 250, 0,
    0, 0, 0, 0, 0, 0, 0, 0, 0, 0, 254, 0, 0, 0, 0, 0, 0, 0, 0, 0, 0, 0, 0, 0, 0, 0, 0, 0, 0, 0, 0,
    0, 0, 0, 0, 0, 0, 0, 0, 0, 0, 0, 0, 0, 0, 0, 0, 0, 0, 0, 0, 255, 0, 0, 0, 0, 0, 0, 0, 0, 0, 0,
    0, 0, 0, 0, 0, 0, 0, 0, 0, 0, 0, 0, 0, 0, 0, 0, 0, 0, 0, 0, 0, 0, 0, 0, 0, 0, 0, 0, 0, 0, 0, 0,
    0, 0, 0, 0, 0, 0, 0, 0, 0, 0, 0, 0, 0, 0, 0, 0, 0, 0, 0, 0, 0, 0, 0, 0, 0, 0, 0, 0, 0, 0, 0, 0,
    0, 0, 0, 0, 0, 0, 0, 0, 0, 0, 0, 0, 0, 0, 0, 0, 0, 256, 0, 0, 0, 0, 0, 0, 0, 0, 0, 0, 0, 0, 0,
    0, 0, 0, 0, 0, 0, 0, 0, 0, 0, 0, 0, 0, 0, 0, 0, 0, 0, 0, 0, 0, 0, 0, 0, 0, 0, 0, 0, 0, 0, 0, 0,
    0, 0, 0, 0, 0, 0, 0, 0, 0, 0, 0, 0, 0, 0, 0, 0, 0, 0, 0, 0, 0, 0, 0, 0, 0, 0, 0, 0, 0, 0, 0, 0,
    0, 0, 0, 0, 0, 0, 0, 0, 0, 0, 0, 0, 0, 0, 0, 0, 0, 0, 0, 0, 0, 0, 0, 0, 0, 0, 0, 0, 0, 0, 0, 0,
    0, 0, 0, 0, 0, 0, 0, 0, 0, 0, 0, 0, 0, 0, 0, 0, 0, 0, 0, 0, 0, 0, 0, 0, 257, 0, 0, 0, 0, 0, 0,
    0, 0, 0, 0, 0, 0, 0, 0, 0, 0, 0, 0, 0, 0, 0, 0, 0, 0, 0, 0, 0, 0, 0, 0, 0, 0, 0, 0, 0, 0, 0, 0,
    0, 0, 0, 0, 0, 0, 0, 0, 0, 0, 0, 0, 0, 0, 0, 0, 0, 0, 0, 0, 0, 0, 0, 0, 0, 0, 0, 0, 0, 0, 0, 0,
    0, 0, 0, 0, 0, 0, 0, 0, 0, 0, 0, 0, 0, 0, 0, 0, 0, 0, 0, 0, 0, 0, 0, 0, 0, 0, 0, 0, 0, 0, 0, 0,
    0, 0, 0, 0, 0, 0, 0, 0, 0, 0, 0, 0, 0, 0, 0, 0, 0, 0, 0, 0, 0, 0, 0, 0, 0, 0, 0, 0, 0, 0, 0,
    258, 259, 0, 0, 259, 0, 0, 0, 0, 0, 0, 0, 0, 0, 0, 0, 0, 0, 0, 0, 0, 0, 0, 0, 0, 0, 0, 0, 0, 0,
    0, 0, 0, 0, 0, 0, 0, 0, 0, 0, 0, 0, 0, 0, 0, 0, 0, 0, 0, 0, 0, 0, 0, 0, 0, 0, 0, 0, 0, 0, 0, 0,
    0, 0, 0, 0, 0, 0, 0, 0, 0, 0, 0, 0, 0, 0, 0, 0, 0, 0, 0, 0, 0, 0, 0, 0, 0, 0, 0, 0, 0, 0, 0, 0,
    0, 0, 0, 0, 0, 0, 0, 0, 0, 0, 0, 0, 0, 0, 0, 0, 0, 0, 0, 0, 0, 0, 0, 0, 0, 0, 0, 0, 0, 0, 0, 0,
    0, 0, 0, 0, 0, 0, 0, 0, 261, 0, 0, 0, 260, 0, 0, 0, 0, 0, 0, 0, 0, 0, 0, 0, 0, 0, 0, 0, 0, 0,
    0, 0, 0, 0, 0, 0, 0, 0, 0, 0, 0, 0, 0, 0, 0, 0, 0, 0, 0, 0, 0, 0, 0, 0, 0, 0, 0, 0, 0, 0, 0, 0,
    0, 0, 0, 0, 0, 0, 0, 0, 0, 0, 0, 0, 0, 0, 0, 0, 0, 0, 0, 0, 0, 0, 0, 0, 0, 0, 0, 0, 0, 0, 0, 0,
    0, 0, 0, 0, 0, 0, 0, 0, 0, 0, 0, 0, 0, 0, 0, 0, 0, 0, 0, 0, 0, 0, 0, 0, 0, 0, 0, 0, 0, 0, 0, 0,
    0, 0, 0, 0, 0, 0, 0, 0, 0, 0, 0, 0, 0, 0, 0, 0, 262, 263, 0, 0, 263, 0, 0, 0, 0, 0, 0, 0, 0, 0,
    0, 0, 0, 0, 0, 0, 0, 0, 0, 0, 0, 0, 0, 0, 0, 0, 0, 0, 268, 0, 0, 0, 0, 0, 0, 0, 0, 0, 0, 0, 0,
    0, 0, 0, 0, 0, 0, 0, 0, 0, 0, 0, 0, 0, 0, 0, 0, 0, 0, 0, 0, 0, 0, 264, 0, 264, 0, 0, 0, 0, 0,
    0, 0, 0, 0, 0, 0, 0, 0, 267, 0, 264, 265, 0, 264, 264, 264, 266, 264, 0, 264, 264, 0, 0, 0,
    268, 264, 0, 264, 264, 264, 264, 264, 264, 0, 0, 264, 264, 264, 0, 0, 0, 0, 0, 0, 0, 0, 0, 0,
    264, 0, 0, 0, 0, 0, 0, 0, 0, 0, 0, 0, 0, 0, 0, 0, 0, 0, 0, 0, 0, 0, 0, 0, 0, 0, 0, 0, 0, 0, 0,
    0, 0, 0, 0, 0, 0, 0, 0, 0, 0, 0, 0, 0, 0, 0, 0, 0, 0, 0, 0, 0, 0, 269, 0, 0, 0, 0, 0, 0, 0, 0,
    0, 0, 0, 0, 0, 0, 0, 0, 0, 0, 0, 0, 0, 0, 0, 0, 0, 0, 0, 0, 0, 0, 0, 0, 0, 0, 0, 0, 0, 0, 0, 0,
    0, 0, 0, 0, 0, 0, 0, 0, 0, 0, 0, 0, 0, 0, 0, 0, 0, 0, 0, 0, 0, 0, 0, 0, 0, 0, 0, 0, 0, 0, 0, 0,
    0, 0, 0, 0, 0, 0, 0, 0, 0, 0, 0, 0, 0, 0, 0, 0, 0, 0, 0, 0, 0, 0, 0, 0, 0, 0, 0, 0, 0, 271,
    271, 271, 271, 271, 271, 271, 271, 271, 271, 271, 271, 271, 271, 271, 271, 271, 271, 271, 271,
    271, 271, 271, 271, 271, 271, 271, 271, 271, 271, 271, 271, 271, 271, 0, 0, 0, 0, 0, 0, 0, 0,
    0, 0, 0, 0, 271, 0, 0, 0, 0, 0, 0, 0, 271, 0, 0, 271, 271, 271, 271, 271, 271, 271, 271, 271,
    271, 271, 271, 271, 271, 271, 271, 271, 271, 271, 271, 271, 271, 271, 271, 271, 271, 271, 271,
    271, 271, 271, 271, 271, 271, 271, 271, 271, 271, 271, 271, 271, 271, 271, 271, 271, 271, 271,
    271, 271, 271, 271, 271, 271, 271, 271, 271, 271, 271, 271, 271, 271, 271, 271, 271, 271, 271,
    0, 0, 0, 0, 0, 0, 0, 0, 0, 270, 0, 272, 272, 272, 272, 272, 272, 272, 272, 272, 272, 272, 272,
    272, 272, 272, 272, 272, 272, 272, 272, 272, 272, 272, 272, 272, 272, 272, 272, 272, 272, 272,
    0, 0, 0, 0, 0, 0, 0, 0, 0, 0, 0, 0, 0, 0, 0, 0, 0, 0, 0, 0, 0, 0, 0, 0, 0, 0, 272, 272, 272,
    272, 272, 272, 272, 272, 272, 272, 272, 272, 272, 272, 272, 272, 272, 272, 272, 272, 272, 272,
    272, 272, 272, 272, 272, 272, 272, 272, 272, 272, 272, 272, 272, 272, 272, 272, 272, 272, 272,
    272, 272, 272, 272, 272, 272, 272, 272, 272, 272, 272, 272, 272, 272, 272, 272, 272, 272, 272,
    272, 272, 272, 272, 272, 272, 0, 0, 0, 0, 0, 0, 0, 0, 0, 273,
];

pub const WIDTH: u8 = 134;

/// The script grammar.
pub fn script_grammar() -> Grammar
    ensures tables { tables_of result ≡ script_tables }
    ensures text { MayBegin (tables_of result) NAME_TEXT }
{
    Grammar {
        roots: &ROOTS,
        names: &NAMES,
        symbols: &SYMBOLS,
        starts: &STARTS,
        classes: &CLASSES,
        set_starts: &SET_STARTS,
        table: &TABLE,
        width: WIDTH,
    }
}
