//! The gosyntax grammar as tables. Made by tools/grammar.py from gosyntax.grammar: edit that.
ghost use Rattle.std.specs.Prelude.{◌≡◌};
ghost use Rattle.gv_grammar.specs.Derivation.{tables_of};
ghost use Rattle.gv_grammar.specs.Predictive.{MayBegin};
ghost use Rattle.gv_gosyntax.specs.GosyntaxTable.{gosyntax_tables};

use gv_grammar::{Grammar, OPEN, OPEN_BEFORE, RESTORE, SAVE, Symbol};

pub const CLASS_PACKAGE: u8 = 1;

pub const CLASS_IMPORT: u8 = 2;

pub const CLASS_TYPE: u8 = 3;

pub const CLASS_STRUCT: u8 = 4;

pub const CLASS_CONST: u8 = 5;

pub const CLASS_FUNC: u8 = 6;

pub const CLASS_MAP: u8 = 7;

pub const CLASS_VAR: u8 = 8;

pub const CLASS_IF: u8 = 9;

pub const CLASS_ELSE: u8 = 10;

pub const CLASS_FOR: u8 = 11;

pub const CLASS_BREAK: u8 = 12;

pub const CLASS_CONTINUE: u8 = 13;

pub const CLASS_RETURN: u8 = 14;

pub const CLASS_GO: u8 = 15;

pub const CLASS_UINT64: u8 = 16;

pub const CLASS_BYTE: u8 = 17;

pub const CLASS_BOOL: u8 = 18;

pub const CLASS_TRUE: u8 = 19;

pub const CLASS_FALSE: u8 = 20;

pub const CLASS_NIL: u8 = 21;

pub const CLASS_MAKE: u8 = 22;

pub const CLASS_NEW: u8 = 23;

pub const CLASS_LEN: u8 = 24;

pub const CLASS_DELETE: u8 = 25;

pub const CLASS_APPEND: u8 = 26;

pub const CLASS_SYNC: u8 = 27;

pub const CLASS_MUTEX: u8 = 28;

pub const CLASS_DISK: u8 = 29;

pub const CLASS_TWODISK: u8 = 30;

pub const CLASS_BLOCK: u8 = 31;

pub const CLASS_IDENT: u8 = 32;

pub const CLASS_NUMBER: u8 = 33;

pub const CLASS_TEXT: u8 = 34;

pub const CLASS_SEMI: u8 = 35;

pub const CLASS_L_PAREN: u8 = 36;

pub const CLASS_R_PAREN: u8 = 37;

pub const CLASS_L_BRACKET: u8 = 38;

pub const CLASS_R_BRACKET: u8 = 39;

pub const CLASS_L_BRACE: u8 = 40;

pub const CLASS_R_BRACE: u8 = 41;

pub const CLASS_COMMA: u8 = 42;

pub const CLASS_DOT: u8 = 43;

pub const CLASS_COLON: u8 = 44;

pub const CLASS_DEFINE: u8 = 45;

pub const CLASS_ASSIGN: u8 = 46;

pub const CLASS_INCREMENT: u8 = 47;

pub const CLASS_DECREMENT: u8 = 48;

pub const CLASS_OR_OR: u8 = 49;

pub const CLASS_AND_AND: u8 = 50;

pub const CLASS_EQUAL: u8 = 51;

pub const CLASS_NOT_EQUAL: u8 = 52;

pub const CLASS_LESS: u8 = 53;

pub const CLASS_AT_MOST: u8 = 54;

pub const CLASS_GREATER: u8 = 55;

pub const CLASS_AT_LEAST: u8 = 56;

pub const CLASS_PLUS: u8 = 57;

pub const CLASS_MINUS: u8 = 58;

pub const CLASS_BAR: u8 = 59;

pub const CLASS_CARET: u8 = 60;

pub const CLASS_STAR: u8 = 61;

pub const CLASS_SLASH: u8 = 62;

pub const CLASS_PERCENT: u8 = 63;

pub const CLASS_SHIFT_LEFT: u8 = 64;

pub const CLASS_SHIFT_RIGHT: u8 = 65;

pub const CLASS_AMP: u8 = 66;

pub const CLASS_AMP_CARET: u8 = 67;

pub const CLASS_BANG: u8 = 68;

pub const CLASS_PLUS_ASSIGN: u8 = 69;

pub const CLASS_MINUS_ASSIGN: u8 = 70;

pub const CLASS_BAR_ASSIGN: u8 = 71;

pub const CLASS_CARET_ASSIGN: u8 = 72;

pub const CLASS_STAR_ASSIGN: u8 = 73;

pub const CLASS_SLASH_ASSIGN: u8 = 74;

pub const CLASS_PERCENT_ASSIGN: u8 = 75;

pub const CLASS_SHIFT_LEFT_ASSIGN: u8 = 76;

pub const CLASS_SHIFT_RIGHT_ASSIGN: u8 = 77;

pub const CLASS_AMP_ASSIGN: u8 = 78;

pub const CLASS_AMP_CARET_ASSIGN: u8 = 79;

pub const CLASS_OUTSIDE: u8 = 80;

pub const SET_ID: u8 = 0;

pub const SET_STRUCT_NAME: u8 = 1;

pub const SET_DISK_WORD: u8 = 2;

pub const SET_BASIC_TYPE: u8 = 3;

pub const SET_ITEM_TYPE: u8 = 4;

pub const SET_CONSTANT: u8 = 5;

pub const SET_CONVERTING: u8 = 6;

pub const SET_OF_TWO: u8 = 7;

pub const SET_JUMP: u8 = 8;

pub const SET_ASSIGNING: u8 = 9;

pub const SET_COUNTING: u8 = 10;

pub const SET_UPDATING: u8 = 11;

pub const SET_INVERTING: u8 = 12;

pub const SET_COMPARING: u8 = 13;

pub const SET_ADDING: u8 = 14;

pub const SET_MULTIPLYING: u8 = 15;

pub const SET_PACKAGE: u8 = 16;

pub const SET_SEMI: u8 = 17;

pub const SET_IMPORT: u8 = 18;

pub const SET_TEXT: u8 = 19;

pub const SET_L_PAREN: u8 = 20;

pub const SET_R_PAREN: u8 = 21;

pub const SET_TYPE: u8 = 22;

pub const SET_STRUCT: u8 = 23;

pub const SET_L_BRACE: u8 = 24;

pub const SET_R_BRACE: u8 = 25;

pub const SET_CONST: u8 = 26;

pub const SET_FUNC: u8 = 27;

pub const SET_UINT64: u8 = 28;

pub const SET_ASSIGN: u8 = 29;

pub const SET_STAR: u8 = 30;

pub const SET_COMMA: u8 = 31;

pub const SET_L_BRACKET: u8 = 32;

pub const SET_R_BRACKET: u8 = 33;

pub const SET_MAP: u8 = 34;

pub const SET_DOT: u8 = 35;

pub const SET_BLOCK: u8 = 36;

pub const SET_SYNC: u8 = 37;

pub const SET_MUTEX: u8 = 38;

pub const SET_IF: u8 = 39;

pub const SET_ELSE: u8 = 40;

pub const SET_VAR: u8 = 41;

pub const SET_FOR: u8 = 42;

pub const SET_RETURN: u8 = 43;

pub const SET_GO: u8 = 44;

pub const SET_COLON: u8 = 45;

pub const SET_MAKE: u8 = 46;

pub const SET_NEW: u8 = 47;

pub const SET_AMP: u8 = 48;

pub const SET_OR_OR: u8 = 49;

pub const SET_AND_AND: u8 = 50;

pub const NAME_FILE: u8 = 0;

pub const NAME_IMPORTS: u8 = 1;

pub const NAME_IMP: u8 = 2;

pub const NAME_TEXTS: u8 = 3;

pub const NAME_AFTER_TEXT: u8 = 4;

pub const NAME_DECLS: u8 = 5;

pub const NAME_DECL: u8 = 6;

pub const NAME_CONST_REST: u8 = 7;

pub const NAME_RECEIVER: u8 = 8;

pub const NAME_FIELDS: u8 = 9;

pub const NAME_AFTER_FIELD: u8 = 10;

pub const NAME_PARAMS: u8 = 11;

pub const NAME_AFTER_PARAM: u8 = 12;

pub const NAME_GROUP: u8 = 13;

pub const NAME_MORE_NAMES: u8 = 14;

pub const NAME_RESULTS: u8 = 15;

pub const NAME_MORE_TYPES: u8 = 16;

pub const NAME_TYPE_OF: u8 = 17;

pub const NAME_ITEMS: u8 = 18;

pub const NAME_POINTED: u8 = 19;

pub const NAME_AFTER_SYNC: u8 = 20;

pub const NAME_BRACES: u8 = 21;

pub const NAME_STMTS: u8 = 22;

pub const NAME_AFTER_STMT: u8 = 23;

pub const NAME_STMT: u8 = 24;

pub const NAME_IF_REST: u8 = 25;

pub const NAME_OTHERWISE: u8 = 26;

pub const NAME_OTHER: u8 = 27;

pub const NAME_LOOP_BRACES: u8 = 28;

pub const NAME_LOOP_STMTS: u8 = 29;

pub const NAME_LOOP_AFTER_STMT: u8 = 30;

pub const NAME_LOOP_STMT: u8 = 31;

pub const NAME_LOOP_IF_REST: u8 = 32;

pub const NAME_LOOP_OTHERWISE: u8 = 33;

pub const NAME_LOOP_OTHER: u8 = 34;

pub const NAME_PLAIN: u8 = 35;

pub const NAME_VAR_REST: u8 = 36;

pub const NAME_SIMPLE: u8 = 37;

pub const NAME_SIMPLE_NAME: u8 = 38;

pub const NAME_SIMPLE_MEMBER: u8 = 39;

pub const NAME_SIMPLE_INDEX: u8 = 40;

pub const NAME_SIMPLE_TAIL: u8 = 41;

pub const NAME_SIMPLE_BRACKET: u8 = 42;

pub const NAME_SIMPLE_CLOSING: u8 = 43;

pub const NAME_SIMPLE_ASSIGN: u8 = 44;

pub const NAME_POST: u8 = 45;

pub const NAME_POST_NAME: u8 = 46;

pub const NAME_POST_MEMBER: u8 = 47;

pub const NAME_POST_INDEX: u8 = 48;

pub const NAME_POST_TAIL: u8 = 49;

pub const NAME_POST_BRACKET: u8 = 50;

pub const NAME_POST_CLOSING: u8 = 51;

pub const NAME_POST_ASSIGN: u8 = 52;

pub const NAME_HEADER: u8 = 53;

pub const NAME_FIRST_NAME: u8 = 54;

pub const NAME_FIRST_MEMBER: u8 = 55;

pub const NAME_FIRST_INDEX: u8 = 56;

pub const NAME_FIRST_TAIL: u8 = 57;

pub const NAME_FIRST_BRACKET: u8 = 58;

pub const NAME_FIRST_CLOSING: u8 = 59;

pub const NAME_FIRST_ASSIGN: u8 = 60;

pub const NAME_AFTER_FIRST: u8 = 61;

pub const NAME_CLAUSES: u8 = 62;

pub const NAME_POST_PART: u8 = 63;

pub const NAME_LEFT: u8 = 64;

pub const NAME_LEFT_END: u8 = 65;

pub const NAME_LEFT_TAIL: u8 = 66;

pub const NAME_LEFT_BRACKET: u8 = 67;

pub const NAME_LEFT_CLOSING: u8 = 68;

pub const NAME_RIGHT: u8 = 69;

pub const NAME_PLAIN_RIGHT: u8 = 70;

pub const NAME_RIGHT_MEMBER: u8 = 71;

pub const NAME_RIGHT_TAIL: u8 = 72;

pub const NAME_RETURNED: u8 = 73;

pub const NAME_RETURNED_MEMBER: u8 = 74;

pub const NAME_RETURNED_TAIL: u8 = 75;

pub const NAME_MORE_RETURNED: u8 = 76;

pub const NAME_ARGUMENTS: u8 = 77;

pub const NAME_EXPRS: u8 = 78;

pub const NAME_AFTER_EXPR: u8 = 79;

pub const NAME_BUILT_IN: u8 = 80;

pub const NAME_MAKE_REST: u8 = 81;

pub const NAME_LITERAL: u8 = 82;

pub const NAME_KEYED: u8 = 83;

pub const NAME_AFTER_KEYED: u8 = 84;

pub const NAME_WHOLE: u8 = 85;

pub const NAME_BOUND: u8 = 86;

pub const NAME_EXPR: u8 = 87;

pub const NAME_EXPR_TAIL: u8 = 88;

pub const NAME_CONJUNCTION: u8 = 89;

pub const NAME_CONJUNCTION_TAIL: u8 = 90;

pub const NAME_COMPARISON: u8 = 91;

pub const NAME_COMPARISON_TAIL: u8 = 92;

pub const NAME_SUM: u8 = 93;

pub const NAME_SUM_TAIL: u8 = 94;

pub const NAME_PRODUCT: u8 = 95;

pub const NAME_PRODUCT_TAIL: u8 = 96;

pub const NAME_OPERATORS: u8 = 97;

pub const NAME_PRODUCT_OPERATORS: u8 = 98;

pub const NAME_SUM_OPERATORS: u8 = 99;

pub const NAME_COMPARISON_OPERATORS: u8 = 100;

pub const NAME_CONJUNCTION_OPERATORS: u8 = 101;

pub const NAME_UNARY: u8 = 102;

pub const NAME_PRIM_TAIL: u8 = 103;

pub const NAME_CLOSED: u8 = 104;

pub const NAME_BRACKET: u8 = 105;

pub const NAME_IN_BRACKET: u8 = 106;

pub const NAME_CLOSING: u8 = 107;

pub const ACT_NO_NAMES: u8 = 4;

pub const ACT_NAME: u8 = 5;

pub const ACT_PAST_NAMES: u8 = 6;

pub const ACT_IN_PARENS: u8 = 7;

pub const ACT_CONSTANT: u8 = 8;

pub const ACT_OPERAND: u8 = 9;

pub const ACT_PAREN: u8 = 10;

pub const ACT_CONVERT: u8 = 11;

pub const ACT_SELECT: u8 = 12;

pub const ACT_INDEX: u8 = 13;

pub const ACT_SLICE_TO: u8 = 14;

pub const ACT_SLICE_FROM: u8 = 15;

pub const ACT_UNARY: u8 = 16;

pub const ACT_BINARY: u8 = 17;

pub const ACT_NO_BOUND: u8 = 18;

pub const ACT_BOUND: u8 = 19;

pub const ACT_NO_EXPRS: u8 = 20;

pub const ACT_EXPR: u8 = 21;

pub const ACT_PAST_EXPRS: u8 = 22;

pub const ACT_CALL: u8 = 23;

pub const ACT_PAIR: u8 = 24;

pub const ACT_MAKE: u8 = 25;

pub const ACT_MAKE_LENGTH: u8 = 26;

pub const ACT_NEW: u8 = 27;

pub const ACT_NO_KEYED: u8 = 28;

pub const ACT_KEYED: u8 = 29;

pub const ACT_PAST_KEYED: u8 = 30;

pub const ACT_LITERAL: u8 = 31;

pub const ACT_VALUE: u8 = 32;

pub const ACT_RESULT: u8 = 33;

pub const ACT_LEFT: u8 = 34;

pub const ACT_ASSIGN: u8 = 35;

pub const ACT_COUNT: u8 = 36;

pub const ACT_UPDATE: u8 = 37;

pub const ACT_DO: u8 = 38;

pub const ACT_NO_PART: u8 = 39;

pub const ACT_PART: u8 = 40;

pub const ACT_NO_STMTS: u8 = 41;

pub const ACT_STMT: u8 = 42;

pub const ACT_EMPTY: u8 = 43;

pub const ACT_PAST_STMTS: u8 = 44;

pub const ACT_BLOCK: u8 = 45;

pub const ACT_SIMPLE: u8 = 46;

pub const ACT_VAR: u8 = 47;

pub const ACT_VAR_VALUE: u8 = 48;

pub const ACT_IF: u8 = 49;

pub const ACT_IF_ELSE: u8 = 50;

pub const ACT_NESTED: u8 = 51;

pub const ACT_JUMP: u8 = 52;

pub const ACT_FOREVER: u8 = 53;

pub const ACT_WHILE: u8 = 54;

pub const ACT_FOR: u8 = 55;

pub const ACT_NO_RIGHTS: u8 = 56;

pub const ACT_RIGHT: u8 = 57;

pub const ACT_PAST_RIGHTS: u8 = 58;

pub const ACT_RETURN: u8 = 59;

pub const ACT_GO: u8 = 60;

pub const ACT_NAMED: u8 = 61;

pub const ACT_MUTEX: u8 = 62;

pub const ACT_WORD_TYPE: u8 = 63;

pub const ACT_SLICE_TYPE: u8 = 64;

pub const ACT_POINTERS_TYPE: u8 = 65;

pub const ACT_MAP_TYPE: u8 = 66;

pub const ACT_POINTER_TYPE: u8 = 67;

pub const ACT_BLOCK_TYPE: u8 = 68;

pub const ACT_NO_GROUPS: u8 = 69;

pub const ACT_GROUP: u8 = 70;

pub const ACT_PAST_GROUPS: u8 = 71;

pub const ACT_NO_TYPES: u8 = 72;

pub const ACT_TYPE: u8 = 73;

pub const ACT_PAST_TYPES: u8 = 74;

pub const ACT_NO_RECEIVER: u8 = 75;

pub const ACT_RECEIVER: u8 = 76;

pub const ACT_STRUCT: u8 = 77;

pub const ACT_CONST: u8 = 78;

pub const ACT_TYPED_CONST: u8 = 79;

pub const ACT_FUNC: u8 = 80;

pub const ACT_NO_IMPORTS: u8 = 81;

pub const ACT_IMPORT: u8 = 82;

pub const ACT_NO_DECLS: u8 = 83;

pub const ACT_DECL: u8 = 84;

pub const ACT_FILE: u8 = 85;

pub const RULE_FILE_WHOLE: u16 = 0;

pub const RULE_IMPORTS_MORE: u16 = 1;

pub const RULE_IMPORTS_END: u16 = 2;

pub const RULE_IMP_ONE: u16 = 3;

pub const RULE_IMP_MANY: u16 = 4;

pub const RULE_TEXTS_MORE: u16 = 5;

pub const RULE_TEXTS_END: u16 = 6;

pub const RULE_AFTER_TEXT_MORE: u16 = 7;

pub const RULE_AFTER_TEXT_END: u16 = 8;

pub const RULE_DECLS_MORE: u16 = 9;

pub const RULE_DECLS_END: u16 = 10;

pub const RULE_DECL_STRUCT: u16 = 11;

pub const RULE_DECL_CONST: u16 = 12;

pub const RULE_DECL_FUNC: u16 = 13;

pub const RULE_CONST_REST_TYPED: u16 = 14;

pub const RULE_CONST_REST_PLAIN: u16 = 15;

pub const RULE_RECEIVER_SOME: u16 = 16;

pub const RULE_RECEIVER_NONE: u16 = 17;

pub const RULE_FIELDS_MORE: u16 = 18;

pub const RULE_FIELDS_END: u16 = 19;

pub const RULE_AFTER_FIELD_MORE: u16 = 20;

pub const RULE_AFTER_FIELD_END: u16 = 21;

pub const RULE_PARAMS_MORE: u16 = 22;

pub const RULE_PARAMS_END: u16 = 23;

pub const RULE_AFTER_PARAM_MORE: u16 = 24;

pub const RULE_AFTER_PARAM_END: u16 = 25;

pub const RULE_GROUP_NAMES: u16 = 26;

pub const RULE_MORE_NAMES_MORE: u16 = 27;

pub const RULE_MORE_NAMES_END: u16 = 28;

pub const RULE_RESULTS_ONE: u16 = 29;

pub const RULE_RESULTS_MANY: u16 = 30;

pub const RULE_RESULTS_NONE: u16 = 31;

pub const RULE_MORE_TYPES_MORE: u16 = 32;

pub const RULE_MORE_TYPES_END: u16 = 33;

pub const RULE_TYPE_OF_WORD: u16 = 34;

pub const RULE_TYPE_OF_SLICE: u16 = 35;

pub const RULE_TYPE_OF_MAP: u16 = 36;

pub const RULE_TYPE_OF_POINTER: u16 = 37;

pub const RULE_TYPE_OF_BLOCK: u16 = 38;

pub const RULE_ITEMS_WORD: u16 = 39;

pub const RULE_ITEMS_POINTERS: u16 = 40;

pub const RULE_POINTED_NAME: u16 = 41;

pub const RULE_POINTED_SYNC: u16 = 42;

pub const RULE_AFTER_SYNC_MUTEX: u16 = 43;

pub const RULE_AFTER_SYNC_NAME: u16 = 44;

pub const RULE_BRACES_BLOCK: u16 = 45;

pub const RULE_STMTS_MORE: u16 = 46;

pub const RULE_STMTS_EMPTY: u16 = 47;

pub const RULE_STMTS_END: u16 = 48;

pub const RULE_AFTER_STMT_MORE: u16 = 49;

pub const RULE_AFTER_STMT_END: u16 = 50;

pub const RULE_STMT_PLAIN: u16 = 51;

pub const RULE_STMT_IF: u16 = 52;

pub const RULE_STMT_BLOCK: u16 = 53;

pub const RULE_IF_REST_BODY: u16 = 54;

pub const RULE_OTHERWISE_ELSE: u16 = 55;

pub const RULE_OTHERWISE_NONE: u16 = 56;

pub const RULE_OTHER_BLOCK: u16 = 57;

pub const RULE_OTHER_IF: u16 = 58;

pub const RULE_LOOP_BRACES_BLOCK: u16 = 59;

pub const RULE_LOOP_STMTS_MORE: u16 = 60;

pub const RULE_LOOP_STMTS_EMPTY: u16 = 61;

pub const RULE_LOOP_STMTS_END: u16 = 62;

pub const RULE_LOOP_AFTER_STMT_MORE: u16 = 63;

pub const RULE_LOOP_AFTER_STMT_END: u16 = 64;

pub const RULE_LOOP_STMT_PLAIN: u16 = 65;

pub const RULE_LOOP_STMT_IF: u16 = 66;

pub const RULE_LOOP_STMT_BLOCK: u16 = 67;

pub const RULE_LOOP_STMT_JUMP: u16 = 68;

pub const RULE_LOOP_IF_REST_BODY: u16 = 69;

pub const RULE_LOOP_OTHERWISE_ELSE: u16 = 70;

pub const RULE_LOOP_OTHERWISE_NONE: u16 = 71;

pub const RULE_LOOP_OTHER_BLOCK: u16 = 72;

pub const RULE_LOOP_OTHER_IF: u16 = 73;

pub const RULE_PLAIN_SIMPLE: u16 = 74;

pub const RULE_PLAIN_VAR: u16 = 75;

pub const RULE_PLAIN_FOR: u16 = 76;

pub const RULE_PLAIN_RETURN: u16 = 77;

pub const RULE_PLAIN_GO: u16 = 78;

pub const RULE_VAR_REST_VALUE: u16 = 79;

pub const RULE_VAR_REST_NONE: u16 = 80;

pub const RULE_SIMPLE_LITERAL: u16 = 81;

pub const RULE_SIMPLE_BUILTIN: u16 = 82;

pub const RULE_SIMPLE_NAME: u16 = 83;

pub const RULE_SIMPLE_CLOSED: u16 = 84;

pub const RULE_SIMPLE_NAME_COUNT: u16 = 85;

pub const RULE_SIMPLE_NAME_UPDATE: u16 = 86;

pub const RULE_SIMPLE_NAME_MORE: u16 = 87;

pub const RULE_SIMPLE_MEMBER_CALL: u16 = 88;

pub const RULE_SIMPLE_MEMBER_MORE: u16 = 89;

pub const RULE_SIMPLE_INDEX_ASSIGN: u16 = 90;

pub const RULE_SIMPLE_INDEX_MORE: u16 = 91;

pub const RULE_SIMPLE_TAIL_MEMBER: u16 = 92;

pub const RULE_SIMPLE_TAIL_BRACKET: u16 = 93;

pub const RULE_SIMPLE_BRACKET_SLICE: u16 = 94;

pub const RULE_SIMPLE_BRACKET_INDEX: u16 = 95;

pub const RULE_SIMPLE_CLOSING_INDEX: u16 = 96;

pub const RULE_SIMPLE_CLOSING_SLICE: u16 = 97;

pub const RULE_SIMPLE_ASSIGN_ONE: u16 = 98;

pub const RULE_SIMPLE_ASSIGN_TWO: u16 = 99;

pub const RULE_POST_BUILTIN: u16 = 100;

pub const RULE_POST_NAME: u16 = 101;

pub const RULE_POST_CLOSED: u16 = 102;

pub const RULE_POST_NAME_COUNT: u16 = 103;

pub const RULE_POST_NAME_UPDATE: u16 = 104;

pub const RULE_POST_NAME_MORE: u16 = 105;

pub const RULE_POST_MEMBER_CALL: u16 = 106;

pub const RULE_POST_MEMBER_MORE: u16 = 107;

pub const RULE_POST_INDEX_ASSIGN: u16 = 108;

pub const RULE_POST_INDEX_MORE: u16 = 109;

pub const RULE_POST_TAIL_MEMBER: u16 = 110;

pub const RULE_POST_TAIL_BRACKET: u16 = 111;

pub const RULE_POST_BRACKET_SLICE: u16 = 112;

pub const RULE_POST_BRACKET_INDEX: u16 = 113;

pub const RULE_POST_CLOSING_INDEX: u16 = 114;

pub const RULE_POST_CLOSING_SLICE: u16 = 115;

pub const RULE_POST_ASSIGN_ONE: u16 = 116;

pub const RULE_POST_ASSIGN_TWO: u16 = 117;

pub const RULE_HEADER_FOREVER: u16 = 118;

pub const RULE_HEADER_CLAUSES: u16 = 119;

pub const RULE_HEADER_SIGN: u16 = 120;

pub const RULE_HEADER_BUILTIN: u16 = 121;

pub const RULE_HEADER_NAME: u16 = 122;

pub const RULE_HEADER_CLOSED: u16 = 123;

pub const RULE_FIRST_NAME_COUNT: u16 = 124;

pub const RULE_FIRST_NAME_UPDATE: u16 = 125;

pub const RULE_FIRST_NAME_MORE: u16 = 126;

pub const RULE_FIRST_MEMBER_CALL: u16 = 127;

pub const RULE_FIRST_MEMBER_MORE: u16 = 128;

pub const RULE_FIRST_INDEX_ASSIGN: u16 = 129;

pub const RULE_FIRST_INDEX_MORE: u16 = 130;

pub const RULE_FIRST_TAIL_MEMBER: u16 = 131;

pub const RULE_FIRST_TAIL_BRACKET: u16 = 132;

pub const RULE_FIRST_TAIL_VALUE: u16 = 133;

pub const RULE_FIRST_BRACKET_SLICE: u16 = 134;

pub const RULE_FIRST_BRACKET_INDEX: u16 = 135;

pub const RULE_FIRST_CLOSING_INDEX: u16 = 136;

pub const RULE_FIRST_CLOSING_SLICE: u16 = 137;

pub const RULE_FIRST_ASSIGN_ONE: u16 = 138;

pub const RULE_FIRST_ASSIGN_TWO: u16 = 139;

pub const RULE_AFTER_FIRST_CLAUSES: u16 = 140;

pub const RULE_CLAUSES_REST: u16 = 141;

pub const RULE_POST_PART_SOME: u16 = 142;

pub const RULE_POST_PART_NONE: u16 = 143;

pub const RULE_LEFT_NAME: u16 = 144;

pub const RULE_LEFT_CLOSED: u16 = 145;

pub const RULE_LEFT_END_MORE: u16 = 146;

pub const RULE_LEFT_END_END: u16 = 147;

pub const RULE_LEFT_TAIL_MEMBER: u16 = 148;

pub const RULE_LEFT_TAIL_BRACKET: u16 = 149;

pub const RULE_LEFT_BRACKET_SLICE: u16 = 150;

pub const RULE_LEFT_BRACKET_INDEX: u16 = 151;

pub const RULE_LEFT_CLOSING_INDEX: u16 = 152;

pub const RULE_LEFT_CLOSING_SLICE: u16 = 153;

pub const RULE_RIGHT_LITERAL: u16 = 154;

pub const RULE_RIGHT_PLAIN: u16 = 155;

pub const RULE_PLAIN_RIGHT_SIGN: u16 = 156;

pub const RULE_PLAIN_RIGHT_BUILTIN: u16 = 157;

pub const RULE_PLAIN_RIGHT_NAME: u16 = 158;

pub const RULE_PLAIN_RIGHT_CLOSED: u16 = 159;

pub const RULE_RIGHT_MEMBER_CALL: u16 = 160;

pub const RULE_RIGHT_MEMBER_MORE: u16 = 161;

pub const RULE_RIGHT_TAIL_MEMBER: u16 = 162;

pub const RULE_RIGHT_TAIL_BRACKET: u16 = 163;

pub const RULE_RIGHT_TAIL_VALUE: u16 = 164;

pub const RULE_RETURNED_NONE: u16 = 165;

pub const RULE_RETURNED_LITERAL: u16 = 166;

pub const RULE_RETURNED_BUILTIN: u16 = 167;

pub const RULE_RETURNED_SIGN: u16 = 168;

pub const RULE_RETURNED_NAME: u16 = 169;

pub const RULE_RETURNED_CLOSED: u16 = 170;

pub const RULE_RETURNED_MEMBER_CALL: u16 = 171;

pub const RULE_RETURNED_MEMBER_MORE: u16 = 172;

pub const RULE_RETURNED_TAIL_MEMBER: u16 = 173;

pub const RULE_RETURNED_TAIL_BRACKET: u16 = 174;

pub const RULE_RETURNED_TAIL_VALUE: u16 = 175;

pub const RULE_MORE_RETURNED_MORE: u16 = 176;

pub const RULE_MORE_RETURNED_END: u16 = 177;

pub const RULE_ARGUMENTS_LIST: u16 = 178;

pub const RULE_EXPRS_MORE: u16 = 179;

pub const RULE_EXPRS_END: u16 = 180;

pub const RULE_AFTER_EXPR_MORE: u16 = 181;

pub const RULE_AFTER_EXPR_END: u16 = 182;

pub const RULE_BUILT_IN_PAIR: u16 = 183;

pub const RULE_BUILT_IN_MAKE: u16 = 184;

pub const RULE_BUILT_IN_NEW: u16 = 185;

pub const RULE_MAKE_REST_LENGTH: u16 = 186;

pub const RULE_MAKE_REST_NONE: u16 = 187;

pub const RULE_LITERAL_FIELDS: u16 = 188;

pub const RULE_KEYED_MORE: u16 = 189;

pub const RULE_KEYED_END: u16 = 190;

pub const RULE_AFTER_KEYED_MORE: u16 = 191;

pub const RULE_AFTER_KEYED_END: u16 = 192;

pub const RULE_WHOLE_EXPR: u16 = 193;

pub const RULE_BOUND_SOME: u16 = 194;

pub const RULE_BOUND_NONE: u16 = 195;

pub const RULE_EXPR_FIRST: u16 = 196;

pub const RULE_EXPR_TAIL_MORE: u16 = 197;

pub const RULE_EXPR_TAIL_END: u16 = 198;

pub const RULE_CONJUNCTION_FIRST: u16 = 199;

pub const RULE_CONJUNCTION_TAIL_MORE: u16 = 200;

pub const RULE_CONJUNCTION_TAIL_END: u16 = 201;

pub const RULE_COMPARISON_FIRST: u16 = 202;

pub const RULE_COMPARISON_TAIL_MORE: u16 = 203;

pub const RULE_COMPARISON_TAIL_END: u16 = 204;

pub const RULE_SUM_FIRST: u16 = 205;

pub const RULE_SUM_TAIL_MORE: u16 = 206;

pub const RULE_SUM_TAIL_END: u16 = 207;

pub const RULE_PRODUCT_FIRST: u16 = 208;

pub const RULE_PRODUCT_TAIL_MORE: u16 = 209;

pub const RULE_PRODUCT_TAIL_END: u16 = 210;

pub const RULE_OPERATORS_TAILS: u16 = 211;

pub const RULE_PRODUCT_OPERATORS_PRODUCT: u16 = 212;

pub const RULE_PRODUCT_OPERATORS_SUM: u16 = 213;

pub const RULE_PRODUCT_OPERATORS_COMPARISON: u16 = 214;

pub const RULE_PRODUCT_OPERATORS_CONJUNCTION: u16 = 215;

pub const RULE_PRODUCT_OPERATORS_EXPR: u16 = 216;

pub const RULE_PRODUCT_OPERATORS_END: u16 = 217;

pub const RULE_SUM_OPERATORS_SUM: u16 = 218;

pub const RULE_SUM_OPERATORS_COMPARISON: u16 = 219;

pub const RULE_SUM_OPERATORS_CONJUNCTION: u16 = 220;

pub const RULE_SUM_OPERATORS_EXPR: u16 = 221;

pub const RULE_SUM_OPERATORS_END: u16 = 222;

pub const RULE_COMPARISON_OPERATORS_COMPARISON: u16 = 223;

pub const RULE_COMPARISON_OPERATORS_CONJUNCTION: u16 = 224;

pub const RULE_COMPARISON_OPERATORS_EXPR: u16 = 225;

pub const RULE_COMPARISON_OPERATORS_END: u16 = 226;

pub const RULE_CONJUNCTION_OPERATORS_CONJUNCTION: u16 = 227;

pub const RULE_CONJUNCTION_OPERATORS_EXPR: u16 = 228;

pub const RULE_CONJUNCTION_OPERATORS_END: u16 = 229;

pub const RULE_UNARY_SIGN: u16 = 230;

pub const RULE_UNARY_NAME: u16 = 231;

pub const RULE_UNARY_CLOSED: u16 = 232;

pub const RULE_PRIM_TAIL_MEMBER: u16 = 233;

pub const RULE_PRIM_TAIL_BRACKET: u16 = 234;

pub const RULE_PRIM_TAIL_END: u16 = 235;

pub const RULE_CLOSED_CONSTANT: u16 = 236;

pub const RULE_CLOSED_PAREN: u16 = 237;

pub const RULE_CLOSED_CONVERT: u16 = 238;

pub const RULE_BRACKET_OPEN: u16 = 239;

pub const RULE_IN_BRACKET_SLICE: u16 = 240;

pub const RULE_IN_BRACKET_INDEX: u16 = 241;

pub const RULE_CLOSING_INDEX: u16 = 242;

pub const RULE_CLOSING_SLICE: u16 = 243;

pub static ROOTS: [u8; 1] = [0];

pub static NAMES: [u8; 244] = [
    0, 1, 1, 2, 2, 3, 3, 4, 4, 5, 5, 6, 6, 6, 7, 7, 8, 8, 9, 9, 10, 10, 11, 11, 12, 12, 13, 14, 14,
    15, 15, 15, 16, 16, 17, 17, 17, 17, 17, 18, 18, 19, 19, 20, 20, 21, 22, 22, 22, 23, 23, 24, 24,
    24, 25, 26, 26, 27, 27, 28, 29, 29, 29, 30, 30, 31, 31, 31, 31, 32, 33, 33, 34, 34, 35, 35, 35,
    35, 35, 36, 36, 37, 37, 37, 37, 38, 38, 38, 39, 39, 40, 40, 41, 41, 42, 42, 43, 43, 44, 44, 45,
    45, 45, 46, 46, 46, 47, 47, 48, 48, 49, 49, 50, 50, 51, 51, 52, 52, 53, 53, 53, 53, 53, 53, 54,
    54, 54, 55, 55, 56, 56, 57, 57, 57, 58, 58, 59, 59, 60, 60, 61, 62, 63, 63, 64, 64, 65, 65, 66,
    66, 67, 67, 68, 68, 69, 69, 70, 70, 70, 70, 71, 71, 72, 72, 72, 73, 73, 73, 73, 73, 73, 74, 74,
    75, 75, 75, 76, 76, 77, 78, 78, 79, 79, 80, 80, 80, 81, 81, 82, 83, 83, 84, 84, 85, 86, 86, 87,
    88, 88, 89, 90, 90, 91, 92, 92, 93, 94, 94, 95, 96, 96, 97, 98, 98, 98, 98, 98, 98, 99, 99, 99,
    99, 99, 100, 100, 100, 100, 101, 101, 101, 102, 102, 102, 103, 103, 103, 104, 104, 104, 105,
    106, 106, 107, 107,
];

pub static STARTS: [u16; 245] = [
    0, 8, 13, 13, 16, 24, 27, 27, 30, 30, 34, 34, 42, 45, 59, 63, 66, 75, 76, 78, 78, 81, 81, 83,
    83, 86, 86, 92, 97, 97, 99, 109, 109, 114, 114, 116, 119, 125, 128, 132, 134, 137, 139, 141,
    144, 145, 153, 156, 159, 159, 162, 162, 163, 167, 169, 172, 174, 175, 178, 182, 190, 193, 196,
    196, 199, 199, 200, 204, 206, 208, 211, 213, 214, 217, 221, 225, 229, 232, 236, 250, 255, 256,
    258, 260, 263, 265, 267, 270, 271, 273, 274, 276, 277, 282, 285, 290, 292, 295, 300, 305, 316,
    318, 321, 323, 325, 328, 329, 331, 332, 334, 335, 340, 343, 348, 350, 353, 358, 363, 374, 377,
    380, 388, 391, 394, 396, 399, 403, 404, 407, 408, 410, 411, 416, 419, 423, 428, 430, 433, 438,
    444, 456, 459, 465, 469, 470, 473, 475, 476, 476, 481, 484, 489, 491, 494, 499, 501, 502, 508,
    510, 513, 515, 517, 518, 523, 525, 527, 529, 534, 539, 548, 551, 553, 558, 559, 564, 566, 571,
    577, 578, 586, 589, 589, 592, 592, 602, 608, 618, 623, 626, 633, 638, 638, 641, 641, 644, 646,
    647, 649, 654, 654, 656, 661, 661, 663, 668, 668, 670, 675, 675, 677, 682, 682, 683, 688, 693,
    698, 703, 708, 708, 713, 718, 723, 728, 728, 733, 738, 743, 743, 748, 753, 753, 757, 760, 762,
    767, 769, 769, 771, 778, 786, 789, 793, 795, 797, 801,
];

pub static SYMBOLS: [Symbol; 801] = [
    // File/whole = Package Id Semi {NO_IMPORTS} Imports {NO_DECLS} Decls {FILE}
    Symbol::Token(SET_PACKAGE),
    Symbol::Token(SET_ID),
    Symbol::Token(SET_SEMI),
    Symbol::Act(ACT_NO_IMPORTS),
    Symbol::Name(NAME_IMPORTS),
    Symbol::Act(ACT_NO_DECLS),
    Symbol::Name(NAME_DECLS),
    Symbol::Act(ACT_FILE),
    // Imports/more = Import Imp Semi {IMPORT} Imports
    Symbol::Token(SET_IMPORT),
    Symbol::Name(NAME_IMP),
    Symbol::Token(SET_SEMI),
    Symbol::Act(ACT_IMPORT),
    Symbol::Name(NAME_IMPORTS),
    // Imports/end =
    // Imp/one = {NO_NAMES} Text {NAME}
    Symbol::Act(ACT_NO_NAMES),
    Symbol::Token(SET_TEXT),
    Symbol::Act(ACT_NAME),
    // Imp/many = {SAVE} {OPEN} LParen {NO_NAMES} Texts RParen {RESTORE} {IN_PARENS}
    Symbol::Act(SAVE),
    Symbol::Act(OPEN),
    Symbol::Token(SET_L_PAREN),
    Symbol::Act(ACT_NO_NAMES),
    Symbol::Name(NAME_TEXTS),
    Symbol::Token(SET_R_PAREN),
    Symbol::Act(RESTORE),
    Symbol::Act(ACT_IN_PARENS),
    // Texts/more = Text {NAME} AfterText
    Symbol::Token(SET_TEXT),
    Symbol::Act(ACT_NAME),
    Symbol::Name(NAME_AFTER_TEXT),
    // Texts/end =
    // AfterText/more = Semi {PAST_NAMES} Texts
    Symbol::Token(SET_SEMI),
    Symbol::Act(ACT_PAST_NAMES),
    Symbol::Name(NAME_TEXTS),
    // AfterText/end =
    // Decls/more = Decl Semi {DECL} Decls
    Symbol::Name(NAME_DECL),
    Symbol::Token(SET_SEMI),
    Symbol::Act(ACT_DECL),
    Symbol::Name(NAME_DECLS),
    // Decls/end =
    // Decl/struct = Type Id Struct LBrace {NO_GROUPS} Fields RBrace {STRUCT}
    Symbol::Token(SET_TYPE),
    Symbol::Token(SET_ID),
    Symbol::Token(SET_STRUCT),
    Symbol::Token(SET_L_BRACE),
    Symbol::Act(ACT_NO_GROUPS),
    Symbol::Name(NAME_FIELDS),
    Symbol::Token(SET_R_BRACE),
    Symbol::Act(ACT_STRUCT),
    // Decl/const = Const Id ConstRest
    Symbol::Token(SET_CONST),
    Symbol::Token(SET_ID),
    Symbol::Name(NAME_CONST_REST),
    // Decl/func = Func Receiver Id {SAVE} {OPEN} LParen {NO_GROUPS} Params RParen {RESTORE} {NO_TYPES} Results Braces {FUNC}
    Symbol::Token(SET_FUNC),
    Symbol::Name(NAME_RECEIVER),
    Symbol::Token(SET_ID),
    Symbol::Act(SAVE),
    Symbol::Act(OPEN),
    Symbol::Token(SET_L_PAREN),
    Symbol::Act(ACT_NO_GROUPS),
    Symbol::Name(NAME_PARAMS),
    Symbol::Token(SET_R_PAREN),
    Symbol::Act(RESTORE),
    Symbol::Act(ACT_NO_TYPES),
    Symbol::Name(NAME_RESULTS),
    Symbol::Name(NAME_BRACES),
    Symbol::Act(ACT_FUNC),
    // ConstRest/typed = Uint64 Assign Whole {TYPED_CONST}
    Symbol::Token(SET_UINT64),
    Symbol::Token(SET_ASSIGN),
    Symbol::Name(NAME_WHOLE),
    Symbol::Act(ACT_TYPED_CONST),
    // ConstRest/plain = Assign Whole {CONST}
    Symbol::Token(SET_ASSIGN),
    Symbol::Name(NAME_WHOLE),
    Symbol::Act(ACT_CONST),
    // Receiver/some = {SAVE} {OPEN} LParen Id Star Id RParen {RESTORE} {RECEIVER}
    Symbol::Act(SAVE),
    Symbol::Act(OPEN),
    Symbol::Token(SET_L_PAREN),
    Symbol::Token(SET_ID),
    Symbol::Token(SET_STAR),
    Symbol::Token(SET_ID),
    Symbol::Token(SET_R_PAREN),
    Symbol::Act(RESTORE),
    Symbol::Act(ACT_RECEIVER),
    // Receiver/none = {NO_RECEIVER}
    Symbol::Act(ACT_NO_RECEIVER),
    // Fields/more = Group AfterField
    Symbol::Name(NAME_GROUP),
    Symbol::Name(NAME_AFTER_FIELD),
    // Fields/end =
    // AfterField/more = Semi {PAST_GROUPS} Fields
    Symbol::Token(SET_SEMI),
    Symbol::Act(ACT_PAST_GROUPS),
    Symbol::Name(NAME_FIELDS),
    // AfterField/end =
    // Params/more = Group AfterParam
    Symbol::Name(NAME_GROUP),
    Symbol::Name(NAME_AFTER_PARAM),
    // Params/end =
    // AfterParam/more = Comma {PAST_GROUPS} Params
    Symbol::Token(SET_COMMA),
    Symbol::Act(ACT_PAST_GROUPS),
    Symbol::Name(NAME_PARAMS),
    // AfterParam/end =
    // Group/names = {NO_NAMES} Id {NAME} MoreNames TypeOf {GROUP}
    Symbol::Act(ACT_NO_NAMES),
    Symbol::Token(SET_ID),
    Symbol::Act(ACT_NAME),
    Symbol::Name(NAME_MORE_NAMES),
    Symbol::Name(NAME_TYPE_OF),
    Symbol::Act(ACT_GROUP),
    // MoreNames/more = Comma {PAST_NAMES} Id {NAME} MoreNames
    Symbol::Token(SET_COMMA),
    Symbol::Act(ACT_PAST_NAMES),
    Symbol::Token(SET_ID),
    Symbol::Act(ACT_NAME),
    Symbol::Name(NAME_MORE_NAMES),
    // MoreNames/end =
    // Results/one = TypeOf {TYPE}
    Symbol::Name(NAME_TYPE_OF),
    Symbol::Act(ACT_TYPE),
    // Results/many = {SAVE} {OPEN} LParen {PAST_TYPES} TypeOf {TYPE} MoreTypes RParen {RESTORE} {PAST_TYPES}
    Symbol::Act(SAVE),
    Symbol::Act(OPEN),
    Symbol::Token(SET_L_PAREN),
    Symbol::Act(ACT_PAST_TYPES),
    Symbol::Name(NAME_TYPE_OF),
    Symbol::Act(ACT_TYPE),
    Symbol::Name(NAME_MORE_TYPES),
    Symbol::Token(SET_R_PAREN),
    Symbol::Act(RESTORE),
    Symbol::Act(ACT_PAST_TYPES),
    // Results/none =
    // MoreTypes/more = Comma {PAST_TYPES} TypeOf {TYPE} MoreTypes
    Symbol::Token(SET_COMMA),
    Symbol::Act(ACT_PAST_TYPES),
    Symbol::Name(NAME_TYPE_OF),
    Symbol::Act(ACT_TYPE),
    Symbol::Name(NAME_MORE_TYPES),
    // MoreTypes/end =
    // TypeOf/word = BasicType {WORD_TYPE}
    Symbol::Token(SET_BASIC_TYPE),
    Symbol::Act(ACT_WORD_TYPE),
    // TypeOf/slice = LBracket RBracket Items
    Symbol::Token(SET_L_BRACKET),
    Symbol::Token(SET_R_BRACKET),
    Symbol::Name(NAME_ITEMS),
    // TypeOf/map = Map LBracket Uint64 RBracket Uint64 {MAP_TYPE}
    Symbol::Token(SET_MAP),
    Symbol::Token(SET_L_BRACKET),
    Symbol::Token(SET_UINT64),
    Symbol::Token(SET_R_BRACKET),
    Symbol::Token(SET_UINT64),
    Symbol::Act(ACT_MAP_TYPE),
    // TypeOf/pointer = Star Pointed {POINTER_TYPE}
    Symbol::Token(SET_STAR),
    Symbol::Name(NAME_POINTED),
    Symbol::Act(ACT_POINTER_TYPE),
    // TypeOf/block = DiskWord Dot Block {BLOCK_TYPE}
    Symbol::Token(SET_DISK_WORD),
    Symbol::Token(SET_DOT),
    Symbol::Token(SET_BLOCK),
    Symbol::Act(ACT_BLOCK_TYPE),
    // Items/word = ItemType {SLICE_TYPE}
    Symbol::Token(SET_ITEM_TYPE),
    Symbol::Act(ACT_SLICE_TYPE),
    // Items/pointers = Star Pointed {POINTERS_TYPE}
    Symbol::Token(SET_STAR),
    Symbol::Name(NAME_POINTED),
    Symbol::Act(ACT_POINTERS_TYPE),
    // Pointed/name = StructName {NAMED}
    Symbol::Token(SET_STRUCT_NAME),
    Symbol::Act(ACT_NAMED),
    // Pointed/sync = Sync AfterSync
    Symbol::Token(SET_SYNC),
    Symbol::Name(NAME_AFTER_SYNC),
    // AfterSync/mutex = Dot Mutex {MUTEX}
    Symbol::Token(SET_DOT),
    Symbol::Token(SET_MUTEX),
    Symbol::Act(ACT_MUTEX),
    // AfterSync/name = {NAMED}
    Symbol::Act(ACT_NAMED),
    // Braces/block = {SAVE} {OPEN} LBrace {NO_STMTS} Stmts RBrace {RESTORE} {BLOCK}
    Symbol::Act(SAVE),
    Symbol::Act(OPEN),
    Symbol::Token(SET_L_BRACE),
    Symbol::Act(ACT_NO_STMTS),
    Symbol::Name(NAME_STMTS),
    Symbol::Token(SET_R_BRACE),
    Symbol::Act(RESTORE),
    Symbol::Act(ACT_BLOCK),
    // Stmts/more = Stmt {STMT} AfterStmt
    Symbol::Name(NAME_STMT),
    Symbol::Act(ACT_STMT),
    Symbol::Name(NAME_AFTER_STMT),
    // Stmts/empty = Semi {EMPTY} Stmts
    Symbol::Token(SET_SEMI),
    Symbol::Act(ACT_EMPTY),
    Symbol::Name(NAME_STMTS),
    // Stmts/end =
    // AfterStmt/more = Semi {PAST_STMTS} Stmts
    Symbol::Token(SET_SEMI),
    Symbol::Act(ACT_PAST_STMTS),
    Symbol::Name(NAME_STMTS),
    // AfterStmt/end =
    // Stmt/plain = Plain
    Symbol::Name(NAME_PLAIN),
    // Stmt/if = {SAVE} If IfRest {RESTORE}
    Symbol::Act(SAVE),
    Symbol::Token(SET_IF),
    Symbol::Name(NAME_IF_REST),
    Symbol::Act(RESTORE),
    // Stmt/block = Braces {NESTED}
    Symbol::Name(NAME_BRACES),
    Symbol::Act(ACT_NESTED),
    // IfRest/body = Whole Braces Otherwise
    Symbol::Name(NAME_WHOLE),
    Symbol::Name(NAME_BRACES),
    Symbol::Name(NAME_OTHERWISE),
    // Otherwise/else = Else Other
    Symbol::Token(SET_ELSE),
    Symbol::Name(NAME_OTHER),
    // Otherwise/none = {IF}
    Symbol::Act(ACT_IF),
    // Other/block = Braces {NESTED} {IF_ELSE}
    Symbol::Name(NAME_BRACES),
    Symbol::Act(ACT_NESTED),
    Symbol::Act(ACT_IF_ELSE),
    // Other/if = {OPEN_BEFORE} If IfRest {IF_ELSE}
    Symbol::Act(OPEN_BEFORE),
    Symbol::Token(SET_IF),
    Symbol::Name(NAME_IF_REST),
    Symbol::Act(ACT_IF_ELSE),
    // LoopBraces/block = {SAVE} {OPEN} LBrace {NO_STMTS} LoopStmts RBrace {RESTORE} {BLOCK}
    Symbol::Act(SAVE),
    Symbol::Act(OPEN),
    Symbol::Token(SET_L_BRACE),
    Symbol::Act(ACT_NO_STMTS),
    Symbol::Name(NAME_LOOP_STMTS),
    Symbol::Token(SET_R_BRACE),
    Symbol::Act(RESTORE),
    Symbol::Act(ACT_BLOCK),
    // LoopStmts/more = LoopStmt {STMT} LoopAfterStmt
    Symbol::Name(NAME_LOOP_STMT),
    Symbol::Act(ACT_STMT),
    Symbol::Name(NAME_LOOP_AFTER_STMT),
    // LoopStmts/empty = Semi {EMPTY} LoopStmts
    Symbol::Token(SET_SEMI),
    Symbol::Act(ACT_EMPTY),
    Symbol::Name(NAME_LOOP_STMTS),
    // LoopStmts/end =
    // LoopAfterStmt/more = Semi {PAST_STMTS} LoopStmts
    Symbol::Token(SET_SEMI),
    Symbol::Act(ACT_PAST_STMTS),
    Symbol::Name(NAME_LOOP_STMTS),
    // LoopAfterStmt/end =
    // LoopStmt/plain = Plain
    Symbol::Name(NAME_PLAIN),
    // LoopStmt/if = {SAVE} If LoopIfRest {RESTORE}
    Symbol::Act(SAVE),
    Symbol::Token(SET_IF),
    Symbol::Name(NAME_LOOP_IF_REST),
    Symbol::Act(RESTORE),
    // LoopStmt/block = LoopBraces {NESTED}
    Symbol::Name(NAME_LOOP_BRACES),
    Symbol::Act(ACT_NESTED),
    // LoopStmt/jump = Jump {JUMP}
    Symbol::Token(SET_JUMP),
    Symbol::Act(ACT_JUMP),
    // LoopIfRest/body = Whole LoopBraces LoopOtherwise
    Symbol::Name(NAME_WHOLE),
    Symbol::Name(NAME_LOOP_BRACES),
    Symbol::Name(NAME_LOOP_OTHERWISE),
    // LoopOtherwise/else = Else LoopOther
    Symbol::Token(SET_ELSE),
    Symbol::Name(NAME_LOOP_OTHER),
    // LoopOtherwise/none = {IF}
    Symbol::Act(ACT_IF),
    // LoopOther/block = LoopBraces {NESTED} {IF_ELSE}
    Symbol::Name(NAME_LOOP_BRACES),
    Symbol::Act(ACT_NESTED),
    Symbol::Act(ACT_IF_ELSE),
    // LoopOther/if = {OPEN_BEFORE} If LoopIfRest {IF_ELSE}
    Symbol::Act(OPEN_BEFORE),
    Symbol::Token(SET_IF),
    Symbol::Name(NAME_LOOP_IF_REST),
    Symbol::Act(ACT_IF_ELSE),
    // Plain/simple = {SAVE} Simple {RESTORE} {SIMPLE}
    Symbol::Act(SAVE),
    Symbol::Name(NAME_SIMPLE),
    Symbol::Act(RESTORE),
    Symbol::Act(ACT_SIMPLE),
    // Plain/var = Var Id TypeOf VarRest
    Symbol::Token(SET_VAR),
    Symbol::Token(SET_ID),
    Symbol::Name(NAME_TYPE_OF),
    Symbol::Name(NAME_VAR_REST),
    // Plain/for = For {SAVE} Header
    Symbol::Token(SET_FOR),
    Symbol::Act(SAVE),
    Symbol::Name(NAME_HEADER),
    // Plain/return = Return {NO_RIGHTS} {SAVE} Returned
    Symbol::Token(SET_RETURN),
    Symbol::Act(ACT_NO_RIGHTS),
    Symbol::Act(SAVE),
    Symbol::Name(NAME_RETURNED),
    // Plain/go = Go Func {SAVE} {OPEN} LParen RParen {RESTORE} Braces {SAVE} {OPEN} LParen RParen {RESTORE} {GO}
    Symbol::Token(SET_GO),
    Symbol::Token(SET_FUNC),
    Symbol::Act(SAVE),
    Symbol::Act(OPEN),
    Symbol::Token(SET_L_PAREN),
    Symbol::Token(SET_R_PAREN),
    Symbol::Act(RESTORE),
    Symbol::Name(NAME_BRACES),
    Symbol::Act(SAVE),
    Symbol::Act(OPEN),
    Symbol::Token(SET_L_PAREN),
    Symbol::Token(SET_R_PAREN),
    Symbol::Act(RESTORE),
    Symbol::Act(ACT_GO),
    // VarRest/value = Assign {SAVE} Right {RESTORE} {VAR_VALUE}
    Symbol::Token(SET_ASSIGN),
    Symbol::Act(SAVE),
    Symbol::Name(NAME_RIGHT),
    Symbol::Act(RESTORE),
    Symbol::Act(ACT_VAR_VALUE),
    // VarRest/none = {VAR}
    Symbol::Act(ACT_VAR),
    // Simple/literal = Literal {DO}
    Symbol::Name(NAME_LITERAL),
    Symbol::Act(ACT_DO),
    // Simple/builtin = BuiltIn {DO}
    Symbol::Name(NAME_BUILT_IN),
    Symbol::Act(ACT_DO),
    // Simple/name = Id {OPERAND} SimpleName
    Symbol::Token(SET_ID),
    Symbol::Act(ACT_OPERAND),
    Symbol::Name(NAME_SIMPLE_NAME),
    // Simple/closed = Closed SimpleTail
    Symbol::Name(NAME_CLOSED),
    Symbol::Name(NAME_SIMPLE_TAIL),
    // SimpleName/count = Counting {COUNT}
    Symbol::Token(SET_COUNTING),
    Symbol::Act(ACT_COUNT),
    // SimpleName/update = Updating Expr {UPDATE}
    Symbol::Token(SET_UPDATING),
    Symbol::Name(NAME_EXPR),
    Symbol::Act(ACT_UPDATE),
    // SimpleName/more = SimpleMember
    Symbol::Name(NAME_SIMPLE_MEMBER),
    // SimpleMember/call = Arguments {DO}
    Symbol::Name(NAME_ARGUMENTS),
    Symbol::Act(ACT_DO),
    // SimpleMember/more = SimpleIndex
    Symbol::Name(NAME_SIMPLE_INDEX),
    // SimpleIndex/assign = {LEFT} SimpleAssign
    Symbol::Act(ACT_LEFT),
    Symbol::Name(NAME_SIMPLE_ASSIGN),
    // SimpleIndex/more = SimpleTail
    Symbol::Name(NAME_SIMPLE_TAIL),
    // SimpleTail/member = {OPEN} Dot Id {SELECT} SimpleMember
    Symbol::Act(OPEN),
    Symbol::Token(SET_DOT),
    Symbol::Token(SET_ID),
    Symbol::Act(ACT_SELECT),
    Symbol::Name(NAME_SIMPLE_MEMBER),
    // SimpleTail/bracket = {OPEN} LBracket SimpleBracket
    Symbol::Act(OPEN),
    Symbol::Token(SET_L_BRACKET),
    Symbol::Name(NAME_SIMPLE_BRACKET),
    // SimpleBracket/slice = Colon Bound RBracket {SLICE_TO} SimpleTail
    Symbol::Token(SET_COLON),
    Symbol::Name(NAME_BOUND),
    Symbol::Token(SET_R_BRACKET),
    Symbol::Act(ACT_SLICE_TO),
    Symbol::Name(NAME_SIMPLE_TAIL),
    // SimpleBracket/index = Whole SimpleClosing
    Symbol::Name(NAME_WHOLE),
    Symbol::Name(NAME_SIMPLE_CLOSING),
    // SimpleClosing/index = RBracket {INDEX} SimpleIndex
    Symbol::Token(SET_R_BRACKET),
    Symbol::Act(ACT_INDEX),
    Symbol::Name(NAME_SIMPLE_INDEX),
    // SimpleClosing/slice = Colon Bound RBracket {SLICE_FROM} SimpleTail
    Symbol::Token(SET_COLON),
    Symbol::Name(NAME_BOUND),
    Symbol::Token(SET_R_BRACKET),
    Symbol::Act(ACT_SLICE_FROM),
    Symbol::Name(NAME_SIMPLE_TAIL),
    // SimpleAssign/one = {RESTORE} {SAVE} Assigning Right {ASSIGN}
    Symbol::Act(RESTORE),
    Symbol::Act(SAVE),
    Symbol::Token(SET_ASSIGNING),
    Symbol::Name(NAME_RIGHT),
    Symbol::Act(ACT_ASSIGN),
    // SimpleAssign/two = {RESTORE} {SAVE} Comma {PAST_EXPRS} Left {EXPR} {RESTORE} {SAVE} Assigning Right {ASSIGN}
    Symbol::Act(RESTORE),
    Symbol::Act(SAVE),
    Symbol::Token(SET_COMMA),
    Symbol::Act(ACT_PAST_EXPRS),
    Symbol::Name(NAME_LEFT),
    Symbol::Act(ACT_EXPR),
    Symbol::Act(RESTORE),
    Symbol::Act(SAVE),
    Symbol::Token(SET_ASSIGNING),
    Symbol::Name(NAME_RIGHT),
    Symbol::Act(ACT_ASSIGN),
    // Post/builtin = BuiltIn {DO}
    Symbol::Name(NAME_BUILT_IN),
    Symbol::Act(ACT_DO),
    // Post/name = Id {OPERAND} PostName
    Symbol::Token(SET_ID),
    Symbol::Act(ACT_OPERAND),
    Symbol::Name(NAME_POST_NAME),
    // Post/closed = Closed PostTail
    Symbol::Name(NAME_CLOSED),
    Symbol::Name(NAME_POST_TAIL),
    // PostName/count = Counting {COUNT}
    Symbol::Token(SET_COUNTING),
    Symbol::Act(ACT_COUNT),
    // PostName/update = Updating Expr {UPDATE}
    Symbol::Token(SET_UPDATING),
    Symbol::Name(NAME_EXPR),
    Symbol::Act(ACT_UPDATE),
    // PostName/more = PostMember
    Symbol::Name(NAME_POST_MEMBER),
    // PostMember/call = Arguments {DO}
    Symbol::Name(NAME_ARGUMENTS),
    Symbol::Act(ACT_DO),
    // PostMember/more = PostIndex
    Symbol::Name(NAME_POST_INDEX),
    // PostIndex/assign = {LEFT} PostAssign
    Symbol::Act(ACT_LEFT),
    Symbol::Name(NAME_POST_ASSIGN),
    // PostIndex/more = PostTail
    Symbol::Name(NAME_POST_TAIL),
    // PostTail/member = {OPEN} Dot Id {SELECT} PostMember
    Symbol::Act(OPEN),
    Symbol::Token(SET_DOT),
    Symbol::Token(SET_ID),
    Symbol::Act(ACT_SELECT),
    Symbol::Name(NAME_POST_MEMBER),
    // PostTail/bracket = {OPEN} LBracket PostBracket
    Symbol::Act(OPEN),
    Symbol::Token(SET_L_BRACKET),
    Symbol::Name(NAME_POST_BRACKET),
    // PostBracket/slice = Colon Bound RBracket {SLICE_TO} PostTail
    Symbol::Token(SET_COLON),
    Symbol::Name(NAME_BOUND),
    Symbol::Token(SET_R_BRACKET),
    Symbol::Act(ACT_SLICE_TO),
    Symbol::Name(NAME_POST_TAIL),
    // PostBracket/index = Whole PostClosing
    Symbol::Name(NAME_WHOLE),
    Symbol::Name(NAME_POST_CLOSING),
    // PostClosing/index = RBracket {INDEX} PostIndex
    Symbol::Token(SET_R_BRACKET),
    Symbol::Act(ACT_INDEX),
    Symbol::Name(NAME_POST_INDEX),
    // PostClosing/slice = Colon Bound RBracket {SLICE_FROM} PostTail
    Symbol::Token(SET_COLON),
    Symbol::Name(NAME_BOUND),
    Symbol::Token(SET_R_BRACKET),
    Symbol::Act(ACT_SLICE_FROM),
    Symbol::Name(NAME_POST_TAIL),
    // PostAssign/one = {RESTORE} {SAVE} Assigning PlainRight {ASSIGN}
    Symbol::Act(RESTORE),
    Symbol::Act(SAVE),
    Symbol::Token(SET_ASSIGNING),
    Symbol::Name(NAME_PLAIN_RIGHT),
    Symbol::Act(ACT_ASSIGN),
    // PostAssign/two = {RESTORE} {SAVE} Comma {PAST_EXPRS} Left {EXPR} {RESTORE} {SAVE} Assigning PlainRight {ASSIGN}
    Symbol::Act(RESTORE),
    Symbol::Act(SAVE),
    Symbol::Token(SET_COMMA),
    Symbol::Act(ACT_PAST_EXPRS),
    Symbol::Name(NAME_LEFT),
    Symbol::Act(ACT_EXPR),
    Symbol::Act(RESTORE),
    Symbol::Act(SAVE),
    Symbol::Token(SET_ASSIGNING),
    Symbol::Name(NAME_PLAIN_RIGHT),
    Symbol::Act(ACT_ASSIGN),
    // Header/forever = {RESTORE} LoopBraces {FOREVER}
    Symbol::Act(RESTORE),
    Symbol::Name(NAME_LOOP_BRACES),
    Symbol::Act(ACT_FOREVER),
    // Header/clauses = {RESTORE} {NO_PART} Clauses
    Symbol::Act(RESTORE),
    Symbol::Act(ACT_NO_PART),
    Symbol::Name(NAME_CLAUSES),
    // Header/sign = {OPEN} Inverting Unary {UNARY} Operators {RESTORE} LoopBraces {WHILE}
    Symbol::Act(OPEN),
    Symbol::Token(SET_INVERTING),
    Symbol::Name(NAME_UNARY),
    Symbol::Act(ACT_UNARY),
    Symbol::Name(NAME_OPERATORS),
    Symbol::Act(RESTORE),
    Symbol::Name(NAME_LOOP_BRACES),
    Symbol::Act(ACT_WHILE),
    // Header/builtin = BuiltIn {DO} AfterFirst
    Symbol::Name(NAME_BUILT_IN),
    Symbol::Act(ACT_DO),
    Symbol::Name(NAME_AFTER_FIRST),
    // Header/name = Id {OPERAND} FirstName
    Symbol::Token(SET_ID),
    Symbol::Act(ACT_OPERAND),
    Symbol::Name(NAME_FIRST_NAME),
    // Header/closed = Closed FirstTail
    Symbol::Name(NAME_CLOSED),
    Symbol::Name(NAME_FIRST_TAIL),
    // FirstName/count = Counting {COUNT} AfterFirst
    Symbol::Token(SET_COUNTING),
    Symbol::Act(ACT_COUNT),
    Symbol::Name(NAME_AFTER_FIRST),
    // FirstName/update = Updating Expr {UPDATE} AfterFirst
    Symbol::Token(SET_UPDATING),
    Symbol::Name(NAME_EXPR),
    Symbol::Act(ACT_UPDATE),
    Symbol::Name(NAME_AFTER_FIRST),
    // FirstName/more = FirstMember
    Symbol::Name(NAME_FIRST_MEMBER),
    // FirstMember/call = Arguments {DO} AfterFirst
    Symbol::Name(NAME_ARGUMENTS),
    Symbol::Act(ACT_DO),
    Symbol::Name(NAME_AFTER_FIRST),
    // FirstMember/more = FirstIndex
    Symbol::Name(NAME_FIRST_INDEX),
    // FirstIndex/assign = {LEFT} FirstAssign
    Symbol::Act(ACT_LEFT),
    Symbol::Name(NAME_FIRST_ASSIGN),
    // FirstIndex/more = FirstTail
    Symbol::Name(NAME_FIRST_TAIL),
    // FirstTail/member = {OPEN} Dot Id {SELECT} FirstMember
    Symbol::Act(OPEN),
    Symbol::Token(SET_DOT),
    Symbol::Token(SET_ID),
    Symbol::Act(ACT_SELECT),
    Symbol::Name(NAME_FIRST_MEMBER),
    // FirstTail/bracket = {OPEN} LBracket FirstBracket
    Symbol::Act(OPEN),
    Symbol::Token(SET_L_BRACKET),
    Symbol::Name(NAME_FIRST_BRACKET),
    // FirstTail/value = Operators {RESTORE} LoopBraces {WHILE}
    Symbol::Name(NAME_OPERATORS),
    Symbol::Act(RESTORE),
    Symbol::Name(NAME_LOOP_BRACES),
    Symbol::Act(ACT_WHILE),
    // FirstBracket/slice = Colon Bound RBracket {SLICE_TO} FirstTail
    Symbol::Token(SET_COLON),
    Symbol::Name(NAME_BOUND),
    Symbol::Token(SET_R_BRACKET),
    Symbol::Act(ACT_SLICE_TO),
    Symbol::Name(NAME_FIRST_TAIL),
    // FirstBracket/index = Whole FirstClosing
    Symbol::Name(NAME_WHOLE),
    Symbol::Name(NAME_FIRST_CLOSING),
    // FirstClosing/index = RBracket {INDEX} FirstIndex
    Symbol::Token(SET_R_BRACKET),
    Symbol::Act(ACT_INDEX),
    Symbol::Name(NAME_FIRST_INDEX),
    // FirstClosing/slice = Colon Bound RBracket {SLICE_FROM} FirstTail
    Symbol::Token(SET_COLON),
    Symbol::Name(NAME_BOUND),
    Symbol::Token(SET_R_BRACKET),
    Symbol::Act(ACT_SLICE_FROM),
    Symbol::Name(NAME_FIRST_TAIL),
    // FirstAssign/one = {RESTORE} {SAVE} Assigning PlainRight {ASSIGN} AfterFirst
    Symbol::Act(RESTORE),
    Symbol::Act(SAVE),
    Symbol::Token(SET_ASSIGNING),
    Symbol::Name(NAME_PLAIN_RIGHT),
    Symbol::Act(ACT_ASSIGN),
    Symbol::Name(NAME_AFTER_FIRST),
    // FirstAssign/two = {RESTORE} {SAVE} Comma {PAST_EXPRS} Left {EXPR} {RESTORE} {SAVE} Assigning PlainRight {ASSIGN} AfterFirst
    Symbol::Act(RESTORE),
    Symbol::Act(SAVE),
    Symbol::Token(SET_COMMA),
    Symbol::Act(ACT_PAST_EXPRS),
    Symbol::Name(NAME_LEFT),
    Symbol::Act(ACT_EXPR),
    Symbol::Act(RESTORE),
    Symbol::Act(SAVE),
    Symbol::Token(SET_ASSIGNING),
    Symbol::Name(NAME_PLAIN_RIGHT),
    Symbol::Act(ACT_ASSIGN),
    Symbol::Name(NAME_AFTER_FIRST),
    // AfterFirst/clauses = {RESTORE} {PART} Clauses
    Symbol::Act(RESTORE),
    Symbol::Act(ACT_PART),
    Symbol::Name(NAME_CLAUSES),
    // Clauses/rest = Semi Bound Semi PostPart LoopBraces {FOR}
    Symbol::Token(SET_SEMI),
    Symbol::Name(NAME_BOUND),
    Symbol::Token(SET_SEMI),
    Symbol::Name(NAME_POST_PART),
    Symbol::Name(NAME_LOOP_BRACES),
    Symbol::Act(ACT_FOR),
    // PostPart/some = {SAVE} Post {RESTORE} {PART}
    Symbol::Act(SAVE),
    Symbol::Name(NAME_POST),
    Symbol::Act(RESTORE),
    Symbol::Act(ACT_PART),
    // PostPart/none = {NO_PART}
    Symbol::Act(ACT_NO_PART),
    // Left/name = Id {OPERAND} LeftEnd
    Symbol::Token(SET_ID),
    Symbol::Act(ACT_OPERAND),
    Symbol::Name(NAME_LEFT_END),
    // Left/closed = Closed LeftTail
    Symbol::Name(NAME_CLOSED),
    Symbol::Name(NAME_LEFT_TAIL),
    // LeftEnd/more = LeftTail
    Symbol::Name(NAME_LEFT_TAIL),
    // LeftEnd/end =
    // LeftTail/member = {OPEN} Dot Id {SELECT} LeftEnd
    Symbol::Act(OPEN),
    Symbol::Token(SET_DOT),
    Symbol::Token(SET_ID),
    Symbol::Act(ACT_SELECT),
    Symbol::Name(NAME_LEFT_END),
    // LeftTail/bracket = {OPEN} LBracket LeftBracket
    Symbol::Act(OPEN),
    Symbol::Token(SET_L_BRACKET),
    Symbol::Name(NAME_LEFT_BRACKET),
    // LeftBracket/slice = Colon Bound RBracket {SLICE_TO} LeftTail
    Symbol::Token(SET_COLON),
    Symbol::Name(NAME_BOUND),
    Symbol::Token(SET_R_BRACKET),
    Symbol::Act(ACT_SLICE_TO),
    Symbol::Name(NAME_LEFT_TAIL),
    // LeftBracket/index = Whole LeftClosing
    Symbol::Name(NAME_WHOLE),
    Symbol::Name(NAME_LEFT_CLOSING),
    // LeftClosing/index = RBracket {INDEX} LeftEnd
    Symbol::Token(SET_R_BRACKET),
    Symbol::Act(ACT_INDEX),
    Symbol::Name(NAME_LEFT_END),
    // LeftClosing/slice = Colon Bound RBracket {SLICE_FROM} LeftTail
    Symbol::Token(SET_COLON),
    Symbol::Name(NAME_BOUND),
    Symbol::Token(SET_R_BRACKET),
    Symbol::Act(ACT_SLICE_FROM),
    Symbol::Name(NAME_LEFT_TAIL),
    // Right/literal = Literal {RESULT}
    Symbol::Name(NAME_LITERAL),
    Symbol::Act(ACT_RESULT),
    // Right/plain = PlainRight
    Symbol::Name(NAME_PLAIN_RIGHT),
    // PlainRight/sign = {OPEN} Inverting Unary {UNARY} Operators {VALUE}
    Symbol::Act(OPEN),
    Symbol::Token(SET_INVERTING),
    Symbol::Name(NAME_UNARY),
    Symbol::Act(ACT_UNARY),
    Symbol::Name(NAME_OPERATORS),
    Symbol::Act(ACT_VALUE),
    // PlainRight/builtin = BuiltIn {RESULT}
    Symbol::Name(NAME_BUILT_IN),
    Symbol::Act(ACT_RESULT),
    // PlainRight/name = Id {OPERAND} RightMember
    Symbol::Token(SET_ID),
    Symbol::Act(ACT_OPERAND),
    Symbol::Name(NAME_RIGHT_MEMBER),
    // PlainRight/closed = Closed RightTail
    Symbol::Name(NAME_CLOSED),
    Symbol::Name(NAME_RIGHT_TAIL),
    // RightMember/call = Arguments {RESULT}
    Symbol::Name(NAME_ARGUMENTS),
    Symbol::Act(ACT_RESULT),
    // RightMember/more = RightTail
    Symbol::Name(NAME_RIGHT_TAIL),
    // RightTail/member = {OPEN} Dot Id {SELECT} RightMember
    Symbol::Act(OPEN),
    Symbol::Token(SET_DOT),
    Symbol::Token(SET_ID),
    Symbol::Act(ACT_SELECT),
    Symbol::Name(NAME_RIGHT_MEMBER),
    // RightTail/bracket = Bracket RightTail
    Symbol::Name(NAME_BRACKET),
    Symbol::Name(NAME_RIGHT_TAIL),
    // RightTail/value = Operators {VALUE}
    Symbol::Name(NAME_OPERATORS),
    Symbol::Act(ACT_VALUE),
    // Returned/none = {RESTORE} {RETURN}
    Symbol::Act(RESTORE),
    Symbol::Act(ACT_RETURN),
    // Returned/literal = Literal {RESULT} {RIGHT} {RESTORE} {RETURN}
    Symbol::Name(NAME_LITERAL),
    Symbol::Act(ACT_RESULT),
    Symbol::Act(ACT_RIGHT),
    Symbol::Act(RESTORE),
    Symbol::Act(ACT_RETURN),
    // Returned/builtin = BuiltIn {RESULT} {RIGHT} {RESTORE} {RETURN}
    Symbol::Name(NAME_BUILT_IN),
    Symbol::Act(ACT_RESULT),
    Symbol::Act(ACT_RIGHT),
    Symbol::Act(RESTORE),
    Symbol::Act(ACT_RETURN),
    // Returned/sign = {OPEN} Inverting Unary {UNARY} Operators {VALUE} {RIGHT} {RESTORE} MoreReturned
    Symbol::Act(OPEN),
    Symbol::Token(SET_INVERTING),
    Symbol::Name(NAME_UNARY),
    Symbol::Act(ACT_UNARY),
    Symbol::Name(NAME_OPERATORS),
    Symbol::Act(ACT_VALUE),
    Symbol::Act(ACT_RIGHT),
    Symbol::Act(RESTORE),
    Symbol::Name(NAME_MORE_RETURNED),
    // Returned/name = Id {OPERAND} ReturnedMember
    Symbol::Token(SET_ID),
    Symbol::Act(ACT_OPERAND),
    Symbol::Name(NAME_RETURNED_MEMBER),
    // Returned/closed = Closed ReturnedTail
    Symbol::Name(NAME_CLOSED),
    Symbol::Name(NAME_RETURNED_TAIL),
    // ReturnedMember/call = Arguments {RESULT} {RIGHT} {RESTORE} {RETURN}
    Symbol::Name(NAME_ARGUMENTS),
    Symbol::Act(ACT_RESULT),
    Symbol::Act(ACT_RIGHT),
    Symbol::Act(RESTORE),
    Symbol::Act(ACT_RETURN),
    // ReturnedMember/more = ReturnedTail
    Symbol::Name(NAME_RETURNED_TAIL),
    // ReturnedTail/member = {OPEN} Dot Id {SELECT} ReturnedMember
    Symbol::Act(OPEN),
    Symbol::Token(SET_DOT),
    Symbol::Token(SET_ID),
    Symbol::Act(ACT_SELECT),
    Symbol::Name(NAME_RETURNED_MEMBER),
    // ReturnedTail/bracket = Bracket ReturnedTail
    Symbol::Name(NAME_BRACKET),
    Symbol::Name(NAME_RETURNED_TAIL),
    // ReturnedTail/value = Operators {VALUE} {RIGHT} {RESTORE} MoreReturned
    Symbol::Name(NAME_OPERATORS),
    Symbol::Act(ACT_VALUE),
    Symbol::Act(ACT_RIGHT),
    Symbol::Act(RESTORE),
    Symbol::Name(NAME_MORE_RETURNED),
    // MoreReturned/more = Comma {PAST_RIGHTS} Whole {VALUE} {RIGHT} MoreReturned
    Symbol::Token(SET_COMMA),
    Symbol::Act(ACT_PAST_RIGHTS),
    Symbol::Name(NAME_WHOLE),
    Symbol::Act(ACT_VALUE),
    Symbol::Act(ACT_RIGHT),
    Symbol::Name(NAME_MORE_RETURNED),
    // MoreReturned/end = {RETURN}
    Symbol::Act(ACT_RETURN),
    // Arguments/list = {SAVE} {OPEN} LParen {NO_EXPRS} Exprs RParen {RESTORE} {CALL}
    Symbol::Act(SAVE),
    Symbol::Act(OPEN),
    Symbol::Token(SET_L_PAREN),
    Symbol::Act(ACT_NO_EXPRS),
    Symbol::Name(NAME_EXPRS),
    Symbol::Token(SET_R_PAREN),
    Symbol::Act(RESTORE),
    Symbol::Act(ACT_CALL),
    // Exprs/more = Whole {EXPR} AfterExpr
    Symbol::Name(NAME_WHOLE),
    Symbol::Act(ACT_EXPR),
    Symbol::Name(NAME_AFTER_EXPR),
    // Exprs/end =
    // AfterExpr/more = Comma {PAST_EXPRS} Exprs
    Symbol::Token(SET_COMMA),
    Symbol::Act(ACT_PAST_EXPRS),
    Symbol::Name(NAME_EXPRS),
    // AfterExpr/end =
    // BuiltIn/pair = OfTwo {SAVE} {OPEN} LParen Whole Comma Whole RParen {RESTORE} {PAIR}
    Symbol::Token(SET_OF_TWO),
    Symbol::Act(SAVE),
    Symbol::Act(OPEN),
    Symbol::Token(SET_L_PAREN),
    Symbol::Name(NAME_WHOLE),
    Symbol::Token(SET_COMMA),
    Symbol::Name(NAME_WHOLE),
    Symbol::Token(SET_R_PAREN),
    Symbol::Act(RESTORE),
    Symbol::Act(ACT_PAIR),
    // BuiltIn/make = Make {SAVE} {OPEN} LParen TypeOf MakeRest
    Symbol::Token(SET_MAKE),
    Symbol::Act(SAVE),
    Symbol::Act(OPEN),
    Symbol::Token(SET_L_PAREN),
    Symbol::Name(NAME_TYPE_OF),
    Symbol::Name(NAME_MAKE_REST),
    // BuiltIn/new = New {SAVE} {OPEN} LParen Sync Dot Mutex RParen {RESTORE} {NEW}
    Symbol::Token(SET_NEW),
    Symbol::Act(SAVE),
    Symbol::Act(OPEN),
    Symbol::Token(SET_L_PAREN),
    Symbol::Token(SET_SYNC),
    Symbol::Token(SET_DOT),
    Symbol::Token(SET_MUTEX),
    Symbol::Token(SET_R_PAREN),
    Symbol::Act(RESTORE),
    Symbol::Act(ACT_NEW),
    // MakeRest/length = Comma Whole RParen {RESTORE} {MAKE_LENGTH}
    Symbol::Token(SET_COMMA),
    Symbol::Name(NAME_WHOLE),
    Symbol::Token(SET_R_PAREN),
    Symbol::Act(RESTORE),
    Symbol::Act(ACT_MAKE_LENGTH),
    // MakeRest/none = RParen {RESTORE} {MAKE}
    Symbol::Token(SET_R_PAREN),
    Symbol::Act(RESTORE),
    Symbol::Act(ACT_MAKE),
    // Literal/fields = Amp Id LBrace {NO_KEYED} Keyed RBrace {LITERAL}
    Symbol::Token(SET_AMP),
    Symbol::Token(SET_ID),
    Symbol::Token(SET_L_BRACE),
    Symbol::Act(ACT_NO_KEYED),
    Symbol::Name(NAME_KEYED),
    Symbol::Token(SET_R_BRACE),
    Symbol::Act(ACT_LITERAL),
    // Keyed/more = Id Colon Whole {KEYED} AfterKeyed
    Symbol::Token(SET_ID),
    Symbol::Token(SET_COLON),
    Symbol::Name(NAME_WHOLE),
    Symbol::Act(ACT_KEYED),
    Symbol::Name(NAME_AFTER_KEYED),
    // Keyed/end =
    // AfterKeyed/more = Comma {PAST_KEYED} Keyed
    Symbol::Token(SET_COMMA),
    Symbol::Act(ACT_PAST_KEYED),
    Symbol::Name(NAME_KEYED),
    // AfterKeyed/end =
    // Whole/expr = {SAVE} Expr {RESTORE}
    Symbol::Act(SAVE),
    Symbol::Name(NAME_EXPR),
    Symbol::Act(RESTORE),
    // Bound/some = Whole {BOUND}
    Symbol::Name(NAME_WHOLE),
    Symbol::Act(ACT_BOUND),
    // Bound/none = {NO_BOUND}
    Symbol::Act(ACT_NO_BOUND),
    // Expr/first = Unary ProductOperators
    Symbol::Name(NAME_UNARY),
    Symbol::Name(NAME_PRODUCT_OPERATORS),
    // ExprTail/more = {OPEN} OrOr Conjunction {BINARY} ExprTail
    Symbol::Act(OPEN),
    Symbol::Token(SET_OR_OR),
    Symbol::Name(NAME_CONJUNCTION),
    Symbol::Act(ACT_BINARY),
    Symbol::Name(NAME_EXPR_TAIL),
    // ExprTail/end =
    // Conjunction/first = Comparison ConjunctionTail
    Symbol::Name(NAME_COMPARISON),
    Symbol::Name(NAME_CONJUNCTION_TAIL),
    // ConjunctionTail/more = {OPEN} AndAnd Comparison {BINARY} ConjunctionTail
    Symbol::Act(OPEN),
    Symbol::Token(SET_AND_AND),
    Symbol::Name(NAME_COMPARISON),
    Symbol::Act(ACT_BINARY),
    Symbol::Name(NAME_CONJUNCTION_TAIL),
    // ConjunctionTail/end =
    // Comparison/first = Sum ComparisonTail
    Symbol::Name(NAME_SUM),
    Symbol::Name(NAME_COMPARISON_TAIL),
    // ComparisonTail/more = {OPEN} Comparing Sum {BINARY} ComparisonTail
    Symbol::Act(OPEN),
    Symbol::Token(SET_COMPARING),
    Symbol::Name(NAME_SUM),
    Symbol::Act(ACT_BINARY),
    Symbol::Name(NAME_COMPARISON_TAIL),
    // ComparisonTail/end =
    // Sum/first = Product SumTail
    Symbol::Name(NAME_PRODUCT),
    Symbol::Name(NAME_SUM_TAIL),
    // SumTail/more = {OPEN} Adding Product {BINARY} SumTail
    Symbol::Act(OPEN),
    Symbol::Token(SET_ADDING),
    Symbol::Name(NAME_PRODUCT),
    Symbol::Act(ACT_BINARY),
    Symbol::Name(NAME_SUM_TAIL),
    // SumTail/end =
    // Product/first = Unary ProductTail
    Symbol::Name(NAME_UNARY),
    Symbol::Name(NAME_PRODUCT_TAIL),
    // ProductTail/more = {OPEN} Multiplying Unary {BINARY} ProductTail
    Symbol::Act(OPEN),
    Symbol::Token(SET_MULTIPLYING),
    Symbol::Name(NAME_UNARY),
    Symbol::Act(ACT_BINARY),
    Symbol::Name(NAME_PRODUCT_TAIL),
    // ProductTail/end =
    // Operators/tails = ProductOperators
    Symbol::Name(NAME_PRODUCT_OPERATORS),
    // ProductOperators/product = {OPEN} Multiplying Unary {BINARY} ProductOperators
    Symbol::Act(OPEN),
    Symbol::Token(SET_MULTIPLYING),
    Symbol::Name(NAME_UNARY),
    Symbol::Act(ACT_BINARY),
    Symbol::Name(NAME_PRODUCT_OPERATORS),
    // ProductOperators/sum = {OPEN} Adding Product {BINARY} SumOperators
    Symbol::Act(OPEN),
    Symbol::Token(SET_ADDING),
    Symbol::Name(NAME_PRODUCT),
    Symbol::Act(ACT_BINARY),
    Symbol::Name(NAME_SUM_OPERATORS),
    // ProductOperators/comparison = {OPEN} Comparing Sum {BINARY} ComparisonOperators
    Symbol::Act(OPEN),
    Symbol::Token(SET_COMPARING),
    Symbol::Name(NAME_SUM),
    Symbol::Act(ACT_BINARY),
    Symbol::Name(NAME_COMPARISON_OPERATORS),
    // ProductOperators/conjunction = {OPEN} AndAnd Comparison {BINARY} ConjunctionOperators
    Symbol::Act(OPEN),
    Symbol::Token(SET_AND_AND),
    Symbol::Name(NAME_COMPARISON),
    Symbol::Act(ACT_BINARY),
    Symbol::Name(NAME_CONJUNCTION_OPERATORS),
    // ProductOperators/expr = {OPEN} OrOr Conjunction {BINARY} ExprTail
    Symbol::Act(OPEN),
    Symbol::Token(SET_OR_OR),
    Symbol::Name(NAME_CONJUNCTION),
    Symbol::Act(ACT_BINARY),
    Symbol::Name(NAME_EXPR_TAIL),
    // ProductOperators/end =
    // SumOperators/sum = {OPEN} Adding Product {BINARY} SumOperators
    Symbol::Act(OPEN),
    Symbol::Token(SET_ADDING),
    Symbol::Name(NAME_PRODUCT),
    Symbol::Act(ACT_BINARY),
    Symbol::Name(NAME_SUM_OPERATORS),
    // SumOperators/comparison = {OPEN} Comparing Sum {BINARY} ComparisonOperators
    Symbol::Act(OPEN),
    Symbol::Token(SET_COMPARING),
    Symbol::Name(NAME_SUM),
    Symbol::Act(ACT_BINARY),
    Symbol::Name(NAME_COMPARISON_OPERATORS),
    // SumOperators/conjunction = {OPEN} AndAnd Comparison {BINARY} ConjunctionOperators
    Symbol::Act(OPEN),
    Symbol::Token(SET_AND_AND),
    Symbol::Name(NAME_COMPARISON),
    Symbol::Act(ACT_BINARY),
    Symbol::Name(NAME_CONJUNCTION_OPERATORS),
    // SumOperators/expr = {OPEN} OrOr Conjunction {BINARY} ExprTail
    Symbol::Act(OPEN),
    Symbol::Token(SET_OR_OR),
    Symbol::Name(NAME_CONJUNCTION),
    Symbol::Act(ACT_BINARY),
    Symbol::Name(NAME_EXPR_TAIL),
    // SumOperators/end =
    // ComparisonOperators/comparison = {OPEN} Comparing Sum {BINARY} ComparisonOperators
    Symbol::Act(OPEN),
    Symbol::Token(SET_COMPARING),
    Symbol::Name(NAME_SUM),
    Symbol::Act(ACT_BINARY),
    Symbol::Name(NAME_COMPARISON_OPERATORS),
    // ComparisonOperators/conjunction = {OPEN} AndAnd Comparison {BINARY} ConjunctionOperators
    Symbol::Act(OPEN),
    Symbol::Token(SET_AND_AND),
    Symbol::Name(NAME_COMPARISON),
    Symbol::Act(ACT_BINARY),
    Symbol::Name(NAME_CONJUNCTION_OPERATORS),
    // ComparisonOperators/expr = {OPEN} OrOr Conjunction {BINARY} ExprTail
    Symbol::Act(OPEN),
    Symbol::Token(SET_OR_OR),
    Symbol::Name(NAME_CONJUNCTION),
    Symbol::Act(ACT_BINARY),
    Symbol::Name(NAME_EXPR_TAIL),
    // ComparisonOperators/end =
    // ConjunctionOperators/conjunction = {OPEN} AndAnd Comparison {BINARY} ConjunctionOperators
    Symbol::Act(OPEN),
    Symbol::Token(SET_AND_AND),
    Symbol::Name(NAME_COMPARISON),
    Symbol::Act(ACT_BINARY),
    Symbol::Name(NAME_CONJUNCTION_OPERATORS),
    // ConjunctionOperators/expr = {OPEN} OrOr Conjunction {BINARY} ExprTail
    Symbol::Act(OPEN),
    Symbol::Token(SET_OR_OR),
    Symbol::Name(NAME_CONJUNCTION),
    Symbol::Act(ACT_BINARY),
    Symbol::Name(NAME_EXPR_TAIL),
    // ConjunctionOperators/end =
    // Unary/sign = {OPEN} Inverting Unary {UNARY}
    Symbol::Act(OPEN),
    Symbol::Token(SET_INVERTING),
    Symbol::Name(NAME_UNARY),
    Symbol::Act(ACT_UNARY),
    // Unary/name = Id {OPERAND} PrimTail
    Symbol::Token(SET_ID),
    Symbol::Act(ACT_OPERAND),
    Symbol::Name(NAME_PRIM_TAIL),
    // Unary/closed = Closed PrimTail
    Symbol::Name(NAME_CLOSED),
    Symbol::Name(NAME_PRIM_TAIL),
    // PrimTail/member = {OPEN} Dot Id {SELECT} PrimTail
    Symbol::Act(OPEN),
    Symbol::Token(SET_DOT),
    Symbol::Token(SET_ID),
    Symbol::Act(ACT_SELECT),
    Symbol::Name(NAME_PRIM_TAIL),
    // PrimTail/bracket = Bracket PrimTail
    Symbol::Name(NAME_BRACKET),
    Symbol::Name(NAME_PRIM_TAIL),
    // PrimTail/end =
    // Closed/constant = Constant {CONSTANT}
    Symbol::Token(SET_CONSTANT),
    Symbol::Act(ACT_CONSTANT),
    // Closed/paren = {SAVE} {OPEN} LParen Expr RParen {RESTORE} {PAREN}
    Symbol::Act(SAVE),
    Symbol::Act(OPEN),
    Symbol::Token(SET_L_PAREN),
    Symbol::Name(NAME_EXPR),
    Symbol::Token(SET_R_PAREN),
    Symbol::Act(RESTORE),
    Symbol::Act(ACT_PAREN),
    // Closed/convert = Converting {SAVE} {OPEN} LParen Expr RParen {RESTORE} {CONVERT}
    Symbol::Token(SET_CONVERTING),
    Symbol::Act(SAVE),
    Symbol::Act(OPEN),
    Symbol::Token(SET_L_PAREN),
    Symbol::Name(NAME_EXPR),
    Symbol::Token(SET_R_PAREN),
    Symbol::Act(RESTORE),
    Symbol::Act(ACT_CONVERT),
    // Bracket/open = {OPEN} LBracket InBracket
    Symbol::Act(OPEN),
    Symbol::Token(SET_L_BRACKET),
    Symbol::Name(NAME_IN_BRACKET),
    // InBracket/slice = Colon Bound RBracket {SLICE_TO}
    Symbol::Token(SET_COLON),
    Symbol::Name(NAME_BOUND),
    Symbol::Token(SET_R_BRACKET),
    Symbol::Act(ACT_SLICE_TO),
    // InBracket/index = Whole Closing
    Symbol::Name(NAME_WHOLE),
    Symbol::Name(NAME_CLOSING),
    // Closing/index = RBracket {INDEX}
    Symbol::Token(SET_R_BRACKET),
    Symbol::Act(ACT_INDEX),
    // Closing/slice = Colon Bound RBracket {SLICE_FROM}
    Symbol::Token(SET_COLON),
    Symbol::Name(NAME_BOUND),
    Symbol::Token(SET_R_BRACKET),
    Symbol::Act(ACT_SLICE_FROM),
];

pub static CLASSES: [u8; 98] = [
    27, 32, 28, 29, 30, 31, 32, 28, 29, 30, 31, 29, 30, 16, 17, 18, 17, 16, 33, 19, 20, 21, 24, 16,
    17, 25, 26, 12, 13, 45, 46, 47, 48, 69, 70, 71, 72, 73, 74, 75, 76, 77, 78, 79, 68, 60, 51, 52,
    53, 54, 55, 56, 57, 58, 59, 60, 61, 62, 63, 64, 65, 66, 67, 1, 35, 2, 34, 36, 37, 3, 4, 40, 41,
    5, 6, 16, 46, 61, 42, 38, 39, 7, 43, 31, 27, 28, 9, 10, 8, 11, 14, 15, 44, 22, 23, 66, 49, 50,
];

pub static SET_STARTS: [u16; 52] = [
    0, 6, 11, 13, 16, 18, 22, 25, 27, 29, 31, 33, 44, 46, 52, 56, 63, 64, 65, 66, 67, 68, 69, 70,
    71, 72, 73, 74, 75, 76, 77, 78, 79, 80, 81, 82, 83, 84, 85, 86, 87, 88, 89, 90, 91, 92, 93, 94,
    95, 96, 97, 98,
];

pub static TABLE: [u16; 8748] = [
    0, 1, 0, 0, 0, 0, 0, 0, 0, 0, 0, 0, 0, 0, 0, 0, 0, 0, 0, 0, 0, 0, 0, 0, 0, 0, 0, 0, 0, 0, 0, 0,
    0, 0, 0, 0, 0, 0, 0, 0, 0, 0, 0, 0, 0, 0, 0, 0, 0, 0, 0, 0, 0, 0, 0, 0, 0, 0, 0, 0, 0, 0, 0, 0,
    0, 0, 0, 0, 0, 0, 0, 0, 0, 0, 0, 0, 0, 0, 0, 0, 0, 3, 0, 2, 3, 0, 3, 3, 0, 0, 0, 0, 0, 0, 0, 0,
    0, 0, 0, 0, 0, 0, 0, 0, 0, 0, 0, 0, 0, 0, 0, 0, 0, 0, 0, 0, 0, 0, 0, 0, 0, 0, 0, 0, 0, 0, 0, 0,
    0, 0, 0, 0, 0, 0, 0, 0, 0, 0, 0, 0, 0, 0, 0, 0, 0, 0, 0, 0, 0, 0, 0, 0, 0, 0, 0, 0, 0, 0, 0, 0,
    0, 0, 0, 0, 0, 0, 0, 0, 0, 0, 0, 0, 0, 0, 0, 0, 0, 0, 0, 0, 0, 0, 0, 0, 0, 0, 0, 0, 0, 0, 0, 0,
    0, 0, 0, 0, 4, 0, 5, 0, 0, 0, 0, 0, 0, 0, 0, 0, 0, 0, 0, 0, 0, 0, 0, 0, 0, 0, 0, 0, 0, 0, 0, 0,
    0, 0, 0, 0, 0, 0, 0, 0, 0, 0, 0, 0, 0, 0, 0, 0, 0, 0, 0, 0, 0, 0, 0, 0, 0, 0, 0, 0, 0, 0, 0, 0,
    0, 0, 0, 0, 0, 0, 0, 0, 0, 0, 0, 0, 0, 0, 0, 0, 0, 0, 0, 0, 0, 6, 0, 0, 7, 0, 0, 0, 0, 0, 0, 0,
    0, 0, 0, 0, 0, 0, 0, 0, 0, 0, 0, 0, 0, 0, 0, 0, 0, 0, 0, 0, 0, 0, 0, 0, 0, 0, 0, 0, 0, 0, 0, 0,
    0, 0, 0, 0, 0, 0, 0, 0, 0, 0, 0, 0, 0, 0, 0, 0, 0, 0, 0, 0, 0, 0, 0, 0, 0, 0, 0, 0, 0, 0, 0, 0,
    0, 0, 0, 0, 0, 0, 0, 8, 0, 9, 0, 0, 0, 0, 0, 0, 0, 0, 0, 0, 0, 0, 0, 0, 0, 0, 0, 0, 0, 0, 0, 0,
    0, 0, 0, 0, 0, 0, 0, 0, 0, 0, 0, 0, 0, 0, 0, 0, 0, 0, 0, 0, 0, 11, 0, 0, 10, 0, 10, 10, 0, 0,
    0, 0, 0, 0, 0, 0, 0, 0, 0, 0, 0, 0, 0, 0, 0, 0, 0, 0, 0, 0, 0, 0, 0, 0, 0, 0, 0, 0, 0, 0, 0, 0,
    0, 0, 0, 0, 0, 0, 0, 0, 0, 0, 0, 0, 0, 0, 0, 0, 0, 0, 0, 0, 0, 0, 0, 0, 0, 0, 0, 0, 0, 0, 0, 0,
    0, 0, 0, 0, 0, 0, 0, 0, 0, 0, 0, 12, 0, 13, 14, 0, 0, 0, 0, 0, 0, 0, 0, 0, 0, 0, 0, 0, 0, 0, 0,
    0, 0, 0, 0, 0, 0, 0, 0, 0, 0, 0, 0, 0, 0, 0, 0, 0, 0, 0, 0, 0, 0, 0, 0, 0, 0, 0, 0, 0, 0, 0, 0,
    0, 0, 0, 0, 0, 0, 0, 0, 0, 0, 0, 0, 0, 0, 0, 0, 0, 0, 0, 0, 0, 0, 0, 0, 0, 0, 0, 0, 0, 0, 0, 0,
    0, 0, 0, 0, 0, 0, 0, 0, 0, 0, 15, 0, 0, 0, 0, 0, 0, 0, 0, 0, 0, 0, 0, 0, 0, 0, 0, 0, 0, 0, 0,
    0, 0, 0, 0, 0, 0, 0, 0, 0, 16, 0, 0, 0, 0, 0, 0, 0, 0, 0, 0, 0, 0, 0, 0, 0, 0, 0, 0, 0, 0, 0,
    0, 0, 0, 0, 0, 0, 0, 0, 0, 0, 0, 0, 0, 0, 0, 0, 0, 0, 0, 0, 0, 0, 0, 0, 0, 0, 0, 0, 0, 0, 0, 0,
    0, 0, 0, 0, 0, 0, 0, 0, 18, 18, 18, 18, 18, 18, 0, 0, 0, 17, 0, 0, 0, 0, 0, 0, 0, 0, 0, 0, 0,
    0, 0, 0, 0, 0, 0, 0, 0, 0, 0, 0, 0, 0, 0, 0, 0, 0, 0, 0, 0, 0, 0, 0, 0, 0, 0, 0, 0, 0, 0, 0, 0,
    0, 0, 0, 0, 0, 0, 0, 0, 0, 0, 0, 0, 0, 0, 0, 0, 0, 0, 0, 0, 0, 0, 0, 0, 0, 0, 0, 0, 19, 19, 19,
    19, 19, 19, 0, 0, 0, 0, 0, 0, 0, 0, 20, 0, 0, 0, 0, 0, 0, 0, 0, 0, 0, 0, 0, 0, 0, 0, 0, 0, 0,
    0, 0, 0, 0, 0, 0, 0, 0, 0, 0, 0, 0, 0, 0, 0, 0, 0, 0, 0, 0, 0, 0, 0, 0, 0, 0, 0, 0, 0, 0, 0, 0,
    0, 0, 0, 0, 0, 0, 0, 0, 0, 0, 0, 0, 0, 0, 0, 0, 0, 0, 0, 0, 0, 0, 0, 0, 21, 0, 0, 0, 0, 0, 22,
    0, 0, 0, 0, 0, 0, 0, 0, 0, 0, 0, 0, 0, 0, 0, 0, 0, 0, 0, 0, 0, 0, 0, 0, 0, 0, 0, 0, 0, 0, 0, 0,
    0, 0, 0, 0, 0, 0, 0, 0, 0, 0, 0, 0, 0, 0, 0, 0, 0, 0, 0, 0, 0, 0, 0, 0, 0, 0, 0, 0, 0, 0, 0, 0,
    0, 0, 23, 23, 23, 23, 23, 23, 0, 0, 0, 0, 24, 0, 0, 0, 0, 0, 0, 0, 0, 0, 0, 0, 0, 0, 0, 0, 0,
    0, 0, 0, 0, 0, 0, 0, 0, 0, 0, 0, 0, 0, 0, 0, 0, 0, 0, 0, 0, 0, 0, 0, 0, 0, 0, 0, 0, 0, 0, 0, 0,
    0, 0, 0, 0, 0, 0, 0, 0, 0, 0, 0, 0, 0, 0, 0, 0, 0, 0, 0, 0, 0, 0, 0, 0, 0, 0, 0, 0, 0, 0, 0, 0,
    26, 0, 0, 0, 0, 25, 0, 0, 0, 0, 0, 0, 0, 0, 0, 0, 0, 0, 0, 0, 0, 0, 0, 0, 0, 0, 0, 0, 0, 0, 0,
    0, 0, 0, 0, 0, 0, 0, 0, 0, 0, 0, 0, 0, 0, 0, 0, 0, 0, 0, 0, 0, 0, 0, 0, 0, 0, 0, 0, 0, 0, 0, 0,
    0, 0, 0, 0, 0, 0, 0, 0, 27, 27, 27, 27, 27, 27, 0, 0, 0, 0, 0, 0, 0, 0, 0, 0, 0, 0, 0, 0, 0, 0,
    0, 0, 0, 0, 0, 0, 0, 0, 0, 0, 0, 0, 0, 0, 0, 0, 0, 0, 0, 0, 0, 0, 0, 0, 0, 0, 0, 0, 0, 0, 0, 0,
    0, 0, 0, 0, 0, 0, 0, 29, 0, 0, 0, 0, 0, 0, 0, 0, 29, 29, 29, 0, 0, 0, 0, 0, 0, 0, 0, 0, 0, 29,
    29, 0, 0, 0, 0, 0, 0, 0, 29, 0, 0, 0, 28, 0, 0, 0, 0, 0, 0, 0, 0, 0, 0, 0, 0, 0, 0, 0, 0, 0, 0,
    29, 0, 0, 0, 0, 0, 0, 0, 0, 0, 0, 0, 0, 0, 0, 0, 0, 0, 0, 0, 0, 0, 0, 0, 0, 0, 0, 30, 0, 0, 0,
    0, 0, 0, 0, 0, 30, 30, 30, 0, 0, 0, 0, 0, 0, 0, 0, 0, 0, 30, 30, 0, 0, 0, 0, 0, 31, 0, 30, 0,
    32, 0, 0, 0, 0, 0, 0, 0, 0, 0, 0, 0, 0, 0, 0, 0, 0, 0, 0, 0, 0, 30, 0, 0, 0, 0, 0, 0, 0, 0, 0,
    0, 0, 0, 0, 0, 0, 0, 0, 0, 0, 0, 0, 0, 0, 0, 0, 0, 0, 0, 0, 0, 0, 0, 0, 0, 0, 0, 0, 0, 0, 0, 0,
    0, 0, 0, 0, 0, 0, 0, 0, 0, 0, 0, 0, 0, 0, 0, 34, 0, 0, 0, 0, 33, 0, 0, 0, 0, 0, 0, 0, 0, 0, 0,
    0, 0, 0, 0, 0, 0, 0, 0, 0, 0, 0, 0, 0, 0, 0, 0, 0, 0, 0, 0, 0, 0, 0, 0, 0, 0, 0, 0, 0, 0, 0, 0,
    0, 0, 0, 37, 0, 0, 0, 0, 0, 0, 0, 0, 35, 35, 35, 0, 0, 0, 0, 0, 0, 0, 0, 0, 0, 39, 39, 0, 0, 0,
    0, 0, 0, 0, 36, 0, 0, 0, 0, 0, 0, 0, 0, 0, 0, 0, 0, 0, 0, 0, 0, 0, 0, 0, 0, 0, 0, 38, 0, 0, 0,
    0, 0, 0, 0, 0, 0, 0, 0, 0, 0, 0, 0, 0, 0, 0, 0, 0, 0, 0, 0, 0, 0, 0, 0, 0, 0, 0, 0, 0, 0, 0, 0,
    40, 40, 0, 0, 0, 0, 0, 0, 0, 0, 0, 0, 0, 0, 0, 0, 0, 0, 0, 0, 0, 0, 0, 0, 0, 0, 0, 0, 0, 0, 0,
    0, 0, 0, 0, 0, 0, 0, 0, 0, 0, 0, 0, 0, 0, 41, 0, 0, 0, 0, 0, 0, 0, 0, 0, 0, 0, 0, 0, 0, 0, 0,
    0, 0, 0, 0, 0, 0, 0, 0, 0, 0, 0, 0, 0, 0, 0, 0, 0, 0, 0, 0, 0, 0, 0, 0, 0, 0, 0, 0, 0, 0, 43,
    42, 42, 42, 42, 42, 0, 0, 0, 0, 0, 0, 0, 0, 0, 0, 0, 0, 0, 0, 0, 0, 0, 0, 0, 0, 0, 0, 0, 0, 0,
    0, 0, 0, 0, 0, 0, 0, 0, 0, 0, 0, 0, 0, 0, 0, 0, 0, 0, 0, 0, 0, 0, 0, 0, 0, 0, 0, 0, 0, 0, 0, 0,
    0, 0, 0, 0, 0, 0, 0, 0, 0, 0, 0, 0, 0, 0, 0, 0, 0, 0, 0, 0, 0, 0, 0, 0, 0, 0, 45, 0, 45, 0, 0,
    45, 45, 45, 44, 0, 0, 45, 0, 0, 0, 0, 0, 0, 0, 0, 0, 0, 0, 0, 0, 0, 0, 0, 0, 0, 0, 0, 0, 0, 0,
    0, 0, 0, 0, 0, 0, 0, 0, 0, 0, 0, 0, 0, 0, 0, 0, 0, 0, 0, 0, 0, 0, 0, 0, 0, 0, 0, 0, 0, 0, 0, 0,
    0, 0, 0, 0, 0, 0, 0, 0, 0, 0, 0, 0, 0, 0, 0, 0, 0, 0, 0, 46, 0, 0, 0, 0, 0, 0, 0, 0, 0, 0, 0,
    0, 0, 0, 0, 0, 0, 0, 0, 0, 0, 0, 0, 0, 0, 0, 0, 0, 0, 0, 0, 0, 0, 0, 0, 0, 0, 0, 0, 0, 0, 0, 0,
    0, 0, 0, 0, 0, 47, 47, 0, 47, 0, 0, 47, 47, 47, 47, 0, 47, 47, 47, 47, 47, 47, 47, 47, 47, 47,
    47, 47, 47, 47, 47, 0, 48, 47, 0, 0, 0, 47, 49, 0, 0, 0, 0, 0, 0, 0, 0, 0, 0, 0, 0, 0, 0, 0, 0,
    0, 0, 0, 0, 0, 0, 0, 0, 47, 0, 0, 0, 0, 0, 0, 0, 0, 0, 0, 0, 0, 0, 0, 0, 0, 0, 0, 0, 0, 0, 0,
    0, 0, 0, 0, 0, 0, 0, 0, 0, 0, 0, 0, 0, 0, 0, 0, 0, 0, 0, 0, 0, 0, 0, 0, 0, 0, 0, 50, 0, 0, 0,
    0, 0, 51, 0, 0, 0, 0, 0, 0, 0, 0, 0, 0, 0, 0, 0, 0, 0, 0, 0, 0, 0, 0, 0, 0, 0, 0, 0, 0, 0, 0,
    0, 0, 0, 0, 0, 0, 0, 0, 0, 0, 0, 0, 0, 0, 0, 0, 0, 0, 0, 52, 53, 0, 52, 0, 0, 52, 52, 52, 52,
    0, 52, 52, 52, 52, 52, 52, 52, 52, 52, 52, 52, 52, 52, 52, 52, 0, 0, 52, 0, 0, 0, 54, 0, 0, 0,
    0, 0, 0, 0, 0, 0, 0, 0, 0, 0, 0, 0, 0, 0, 0, 0, 0, 0, 0, 0, 0, 0, 52, 0, 0, 0, 0, 0, 0, 0, 0,
    0, 0, 0, 0, 0, 0, 0, 0, 0, 0, 0, 0, 0, 0, 0, 0, 0, 0, 0, 0, 0, 0, 55, 55, 0, 55, 55, 55, 0, 0,
    55, 0, 0, 55, 55, 55, 55, 55, 55, 55, 0, 0, 55, 0, 0, 0, 0, 0, 0, 0, 0, 0, 0, 0, 0, 0, 0, 0, 0,
    0, 0, 0, 0, 0, 0, 0, 55, 0, 0, 0, 0, 0, 0, 0, 55, 0, 0, 0, 0, 0, 0, 0, 0, 0, 0, 0, 0, 0, 0, 0,
    0, 0, 0, 0, 0, 0, 0, 56, 0, 0, 0, 0, 0, 0, 0, 0, 0, 0, 0, 0, 0, 0, 0, 0, 0, 0, 0, 0, 0, 0, 0,
    0, 57, 0, 0, 0, 0, 0, 57, 0, 0, 0, 0, 0, 0, 0, 0, 0, 0, 0, 0, 0, 0, 0, 0, 0, 0, 0, 0, 0, 0, 0,
    0, 0, 0, 0, 0, 0, 0, 0, 0, 0, 0, 0, 0, 0, 0, 0, 0, 0, 0, 0, 0, 0, 0, 0, 0, 59, 0, 0, 0, 0, 0,
    0, 0, 0, 0, 0, 0, 0, 0, 0, 0, 0, 0, 0, 0, 0, 0, 0, 0, 0, 0, 0, 0, 0, 0, 0, 58, 0, 0, 0, 0, 0,
    0, 0, 0, 0, 0, 0, 0, 0, 0, 0, 0, 0, 0, 0, 0, 0, 0, 0, 0, 0, 0, 0, 0, 0, 0, 0, 0, 0, 0, 0, 0, 0,
    0, 0, 0, 0, 0, 0, 0, 0, 0, 0, 0, 0, 0, 0, 0, 0, 0, 0, 0, 0, 0, 0, 0, 0, 0, 0, 0, 0, 0, 0, 0, 0,
    0, 0, 0, 0, 0, 0, 0, 0, 0, 0, 0, 60, 0, 0, 0, 0, 0, 0, 0, 0, 0, 0, 0, 0, 0, 0, 0, 0, 0, 0, 0,
    0, 0, 0, 0, 0, 0, 0, 0, 0, 0, 0, 0, 0, 0, 0, 0, 0, 0, 0, 0, 0, 0, 0, 0, 0, 0, 0, 0, 0, 61, 61,
    0, 61, 61, 61, 61, 61, 61, 61, 0, 61, 61, 61, 61, 61, 61, 61, 61, 61, 61, 61, 61, 61, 61, 61,
    0, 62, 61, 0, 0, 0, 61, 63, 0, 0, 0, 0, 0, 0, 0, 0, 0, 0, 0, 0, 0, 0, 0, 0, 0, 0, 0, 0, 0, 0,
    0, 0, 61, 0, 0, 0, 0, 0, 0, 0, 0, 0, 0, 0, 0, 0, 0, 0, 0, 0, 0, 0, 0, 0, 0, 0, 0, 0, 0, 0, 0,
    0, 0, 0, 0, 0, 0, 0, 0, 0, 0, 0, 0, 0, 0, 0, 0, 0, 0, 0, 0, 0, 64, 0, 0, 0, 0, 0, 65, 0, 0, 0,
    0, 0, 0, 0, 0, 0, 0, 0, 0, 0, 0, 0, 0, 0, 0, 0, 0, 0, 0, 0, 0, 0, 0, 0, 0, 0, 0, 0, 0, 0, 0, 0,
    0, 0, 0, 0, 0, 0, 0, 0, 0, 0, 0, 0, 66, 67, 0, 66, 69, 69, 66, 66, 66, 66, 0, 66, 66, 66, 66,
    66, 66, 66, 66, 66, 66, 66, 66, 66, 66, 66, 0, 0, 66, 0, 0, 0, 68, 0, 0, 0, 0, 0, 0, 0, 0, 0,
    0, 0, 0, 0, 0, 0, 0, 0, 0, 0, 0, 0, 0, 0, 0, 0, 66, 0, 0, 0, 0, 0, 0, 0, 0, 0, 0, 0, 0, 0, 0,
    0, 0, 0, 0, 0, 0, 0, 0, 0, 0, 0, 0, 0, 0, 0, 0, 70, 70, 0, 70, 70, 70, 0, 0, 70, 0, 0, 70, 70,
    70, 70, 70, 70, 70, 0, 0, 70, 0, 0, 0, 0, 0, 0, 0, 0, 0, 0, 0, 0, 0, 0, 0, 0, 0, 0, 0, 0, 0, 0,
    0, 70, 0, 0, 0, 0, 0, 0, 0, 70, 0, 0, 0, 0, 0, 0, 0, 0, 0, 0, 0, 0, 0, 0, 0, 0, 0, 0, 0, 0, 0,
    0, 71, 0, 0, 0, 0, 0, 0, 0, 0, 0, 0, 0, 0, 0, 0, 0, 0, 0, 0, 0, 0, 0, 0, 0, 0, 72, 0, 0, 0, 0,
    0, 72, 0, 0, 0, 0, 0, 0, 0, 0, 0, 0, 0, 0, 0, 0, 0, 0, 0, 0, 0, 0, 0, 0, 0, 0, 0, 0, 0, 0, 0,
    0, 0, 0, 0, 0, 0, 0, 0, 0, 0, 0, 0, 0, 0, 0, 0, 0, 0, 0, 74, 0, 0, 0, 0, 0, 0, 0, 0, 0, 0, 0,
    0, 0, 0, 0, 0, 0, 0, 0, 0, 0, 0, 0, 0, 0, 0, 0, 0, 0, 0, 73, 0, 0, 0, 0, 0, 0, 0, 0, 0, 0, 0,
    0, 0, 0, 0, 0, 0, 0, 0, 0, 0, 0, 0, 0, 0, 0, 0, 0, 0, 0, 0, 0, 0, 0, 0, 0, 0, 0, 0, 0, 0, 0, 0,
    0, 0, 0, 0, 0, 76, 0, 0, 77, 0, 0, 78, 79, 75, 75, 0, 75, 75, 75, 75, 75, 75, 75, 75, 75, 75,
    75, 75, 75, 75, 75, 0, 0, 75, 0, 0, 0, 0, 0, 0, 0, 0, 0, 0, 0, 0, 0, 0, 0, 0, 0, 0, 0, 0, 0, 0,
    0, 0, 0, 0, 0, 0, 0, 75, 0, 0, 0, 0, 0, 0, 0, 0, 0, 0, 0, 0, 0, 0, 0, 0, 0, 0, 0, 0, 0, 0, 0,
    0, 0, 0, 0, 0, 0, 0, 0, 0, 0, 0, 0, 0, 0, 0, 0, 0, 0, 0, 0, 0, 0, 0, 0, 0, 0, 81, 0, 0, 0, 0,
    0, 81, 0, 0, 0, 0, 80, 0, 0, 0, 0, 0, 0, 0, 0, 0, 0, 0, 0, 0, 0, 0, 0, 0, 0, 0, 0, 0, 0, 0, 0,
    0, 0, 0, 0, 0, 0, 0, 0, 0, 0, 0, 0, 0, 0, 0, 0, 0, 0, 0, 0, 0, 0, 0, 0, 0, 0, 85, 85, 0, 85,
    85, 85, 83, 83, 85, 83, 83, 84, 84, 84, 84, 84, 84, 85, 0, 0, 85, 0, 0, 0, 0, 0, 0, 0, 0, 0, 0,
    0, 0, 0, 0, 0, 0, 0, 0, 0, 0, 0, 0, 0, 0, 0, 0, 0, 0, 0, 82, 0, 0, 0, 0, 0, 0, 0, 0, 0, 0, 0,
    0, 0, 0, 0, 0, 0, 0, 0, 0, 0, 0, 0, 0, 0, 0, 0, 0, 0, 0, 0, 0, 0, 0, 0, 0, 0, 0, 0, 0, 0, 0, 0,
    0, 0, 0, 0, 0, 0, 0, 88, 0, 88, 0, 0, 0, 88, 88, 0, 88, 88, 86, 86, 0, 0, 0, 0, 0, 0, 0, 0, 0,
    0, 0, 0, 0, 0, 0, 0, 0, 0, 0, 0, 87, 87, 87, 87, 87, 87, 87, 87, 87, 87, 87, 0, 0, 0, 0, 0, 0,
    0, 0, 0, 0, 0, 0, 0, 0, 0, 0, 0, 0, 0, 0, 0, 0, 0, 0, 0, 0, 0, 0, 0, 0, 0, 0, 0, 0, 0, 0, 0,
    89, 0, 90, 0, 0, 0, 90, 90, 0, 90, 90, 0, 0, 0, 0, 0, 0, 0, 0, 0, 0, 0, 0, 0, 0, 0, 0, 0, 0, 0,
    0, 0, 0, 0, 0, 0, 0, 0, 0, 0, 0, 0, 0, 0, 0, 0, 0, 0, 0, 0, 0, 0, 0, 0, 0, 0, 0, 0, 0, 0, 0, 0,
    0, 0, 0, 0, 0, 0, 0, 0, 0, 0, 0, 0, 0, 0, 0, 0, 0, 0, 0, 0, 0, 92, 0, 0, 0, 91, 92, 0, 91, 91,
    0, 0, 0, 0, 0, 0, 0, 0, 0, 0, 0, 0, 0, 0, 0, 0, 0, 0, 0, 0, 0, 0, 0, 0, 0, 0, 0, 0, 0, 0, 0, 0,
    0, 0, 0, 0, 0, 0, 0, 0, 0, 0, 0, 0, 0, 0, 0, 0, 0, 0, 0, 0, 0, 0, 0, 0, 0, 0, 0, 0, 0, 0, 0, 0,
    0, 0, 0, 0, 0, 0, 0, 0, 94, 0, 0, 0, 0, 93, 0, 0, 0, 0, 0, 0, 0, 0, 0, 0, 0, 0, 0, 0, 0, 0, 0,
    0, 0, 0, 0, 0, 0, 0, 0, 0, 0, 0, 0, 0, 0, 0, 0, 0, 0, 0, 0, 0, 0, 0, 0, 0, 0, 0, 0, 0, 0, 0, 0,
    0, 0, 0, 0, 96, 96, 0, 96, 96, 96, 0, 0, 96, 0, 0, 96, 96, 96, 96, 96, 96, 96, 0, 0, 96, 0, 0,
    0, 0, 0, 0, 0, 95, 0, 0, 0, 0, 0, 0, 0, 0, 0, 0, 0, 0, 0, 0, 0, 96, 0, 0, 0, 0, 0, 0, 0, 96, 0,
    0, 0, 0, 0, 0, 0, 0, 0, 0, 0, 0, 0, 0, 0, 0, 0, 0, 0, 0, 0, 0, 0, 0, 0, 0, 0, 0, 0, 0, 0, 0, 0,
    0, 0, 0, 0, 0, 0, 0, 0, 0, 0, 0, 0, 0, 0, 0, 0, 0, 0, 97, 0, 0, 0, 0, 98, 0, 0, 0, 0, 0, 0, 0,
    0, 0, 0, 0, 0, 0, 0, 0, 0, 0, 0, 0, 0, 0, 0, 0, 0, 0, 0, 0, 0, 0, 0, 0, 0, 0, 0, 0, 0, 0, 0, 0,
    0, 0, 0, 0, 0, 0, 0, 0, 0, 0, 0, 0, 0, 0, 0, 0, 0, 0, 0, 0, 0, 0, 0, 0, 0, 0, 0, 0, 0, 0, 0, 0,
    0, 0, 0, 0, 0, 0, 0, 100, 0, 0, 99, 99, 0, 0, 0, 0, 0, 0, 0, 0, 0, 0, 0, 0, 0, 0, 0, 0, 0, 0,
    0, 0, 0, 0, 0, 0, 0, 0, 0, 0, 0, 0, 0, 0, 0, 0, 0, 0, 0, 0, 0, 0, 0, 0, 0, 0, 0, 0, 0, 0, 0, 0,
    103, 103, 0, 103, 103, 103, 101, 101, 103, 101, 101, 102, 102, 102, 102, 102, 102, 103, 0, 0,
    103, 0, 0, 0, 0, 0, 0, 0, 0, 0, 0, 0, 0, 0, 0, 0, 0, 0, 0, 0, 0, 0, 0, 0, 0, 0, 0, 0, 0, 0, 0,
    0, 0, 0, 0, 0, 0, 0, 0, 0, 0, 0, 0, 0, 0, 0, 0, 0, 0, 0, 0, 0, 0, 0, 0, 0, 0, 0, 0, 0, 0, 0, 0,
    0, 0, 0, 0, 0, 0, 0, 0, 0, 0, 0, 0, 0, 0, 0, 0, 0, 0, 106, 0, 106, 0, 0, 0, 106, 106, 0, 106,
    106, 104, 104, 0, 0, 0, 0, 0, 0, 0, 0, 0, 0, 0, 0, 0, 0, 0, 0, 0, 0, 0, 0, 105, 105, 105, 105,
    105, 105, 105, 105, 105, 105, 105, 0, 0, 0, 0, 0, 0, 0, 0, 0, 0, 0, 0, 0, 0, 0, 0, 0, 0, 0, 0,
    0, 0, 0, 0, 0, 0, 0, 0, 0, 0, 0, 0, 0, 0, 0, 0, 0, 107, 0, 108, 0, 0, 0, 108, 108, 0, 108, 108,
    0, 0, 0, 0, 0, 0, 0, 0, 0, 0, 0, 0, 0, 0, 0, 0, 0, 0, 0, 0, 0, 0, 0, 0, 0, 0, 0, 0, 0, 0, 0, 0,
    0, 0, 0, 0, 0, 0, 0, 0, 0, 0, 0, 0, 0, 0, 0, 0, 0, 0, 0, 0, 0, 0, 0, 0, 0, 0, 0, 0, 0, 0, 0, 0,
    0, 0, 0, 0, 0, 0, 0, 0, 110, 0, 0, 0, 109, 110, 0, 109, 109, 0, 0, 0, 0, 0, 0, 0, 0, 0, 0, 0,
    0, 0, 0, 0, 0, 0, 0, 0, 0, 0, 0, 0, 0, 0, 0, 0, 0, 0, 0, 0, 0, 0, 0, 0, 0, 0, 0, 0, 0, 0, 0, 0,
    0, 0, 0, 0, 0, 0, 0, 0, 0, 0, 0, 0, 0, 0, 0, 0, 0, 0, 0, 0, 0, 0, 0, 0, 0, 0, 0, 0, 0, 112, 0,
    0, 0, 0, 111, 0, 0, 0, 0, 0, 0, 0, 0, 0, 0, 0, 0, 0, 0, 0, 0, 0, 0, 0, 0, 0, 0, 0, 0, 0, 0, 0,
    0, 0, 0, 0, 0, 0, 0, 0, 0, 0, 0, 0, 0, 0, 0, 0, 0, 0, 0, 0, 0, 0, 0, 0, 0, 0, 114, 114, 0, 114,
    114, 114, 0, 0, 114, 0, 0, 114, 114, 114, 114, 114, 114, 114, 0, 0, 114, 0, 0, 0, 0, 0, 0, 0,
    113, 0, 0, 0, 0, 0, 0, 0, 0, 0, 0, 0, 0, 0, 0, 0, 114, 0, 0, 0, 0, 0, 0, 0, 114, 0, 0, 0, 0, 0,
    0, 0, 0, 0, 0, 0, 0, 0, 0, 0, 0, 0, 0, 0, 0, 0, 0, 0, 0, 0, 0, 0, 0, 0, 0, 0, 0, 0, 0, 0, 0, 0,
    0, 0, 0, 0, 0, 0, 0, 0, 0, 0, 0, 0, 0, 0, 115, 0, 0, 0, 0, 116, 0, 0, 0, 0, 0, 0, 0, 0, 0, 0,
    0, 0, 0, 0, 0, 0, 0, 0, 0, 0, 0, 0, 0, 0, 0, 0, 0, 0, 0, 0, 0, 0, 0, 0, 0, 0, 0, 0, 0, 0, 0, 0,
    0, 0, 0, 0, 0, 0, 0, 0, 0, 0, 0, 0, 0, 0, 0, 0, 0, 0, 0, 0, 0, 0, 0, 0, 0, 0, 0, 0, 0, 0, 0, 0,
    0, 0, 0, 0, 118, 0, 0, 117, 117, 0, 0, 0, 0, 0, 0, 0, 0, 0, 0, 0, 0, 0, 0, 0, 0, 0, 0, 0, 0, 0,
    0, 0, 0, 0, 0, 0, 0, 0, 0, 0, 0, 0, 0, 0, 0, 0, 0, 0, 0, 0, 0, 0, 0, 0, 0, 0, 0, 0, 0, 124,
    124, 0, 124, 124, 124, 122, 122, 124, 122, 122, 123, 123, 123, 123, 123, 123, 124, 0, 120, 124,
    0, 0, 0, 119, 0, 0, 0, 0, 0, 0, 0, 0, 0, 0, 0, 0, 0, 0, 0, 0, 0, 0, 0, 121, 0, 0, 0, 0, 0, 0,
    0, 121, 0, 0, 0, 0, 0, 0, 0, 0, 0, 0, 0, 0, 0, 0, 0, 0, 0, 0, 0, 0, 0, 0, 0, 0, 0, 0, 0, 0, 0,
    0, 0, 0, 0, 0, 0, 0, 0, 0, 0, 0, 0, 0, 0, 0, 0, 0, 0, 0, 127, 0, 127, 0, 127, 0, 127, 127, 0,
    127, 127, 125, 125, 127, 127, 127, 127, 127, 127, 127, 127, 127, 127, 127, 127, 127, 127, 127,
    127, 127, 127, 127, 0, 126, 126, 126, 126, 126, 126, 126, 126, 126, 126, 126, 0, 0, 0, 0, 0, 0,
    0, 0, 0, 0, 0, 0, 0, 0, 0, 0, 0, 0, 0, 0, 0, 0, 0, 0, 0, 0, 0, 0, 0, 0, 0, 0, 0, 0, 0, 0, 0,
    128, 0, 129, 0, 129, 0, 129, 129, 0, 129, 129, 0, 0, 129, 129, 129, 129, 129, 129, 129, 129,
    129, 129, 129, 129, 129, 129, 129, 129, 129, 129, 129, 0, 0, 0, 0, 0, 0, 0, 0, 0, 0, 0, 0, 0,
    0, 0, 0, 0, 0, 0, 0, 0, 0, 0, 0, 0, 0, 0, 0, 0, 0, 0, 0, 0, 0, 0, 0, 0, 0, 0, 0, 0, 0, 0, 0, 0,
    0, 0, 0, 0, 0, 0, 131, 0, 131, 0, 130, 131, 0, 130, 130, 0, 0, 131, 131, 131, 131, 131, 131,
    131, 131, 131, 131, 131, 131, 131, 131, 131, 131, 131, 131, 131, 0, 0, 0, 0, 0, 0, 0, 0, 0, 0,
    0, 0, 0, 0, 0, 0, 0, 0, 0, 0, 0, 0, 0, 0, 0, 0, 0, 0, 0, 0, 0, 0, 0, 0, 0, 0, 0, 0, 0, 0, 0, 0,
    0, 0, 0, 0, 0, 0, 0, 0, 0, 133, 0, 134, 0, 0, 132, 0, 0, 0, 0, 0, 134, 134, 134, 134, 134, 134,
    134, 134, 134, 134, 134, 134, 134, 134, 134, 134, 134, 134, 134, 0, 0, 0, 0, 0, 0, 0, 0, 0, 0,
    0, 0, 0, 0, 0, 0, 0, 0, 0, 0, 0, 0, 0, 0, 0, 0, 0, 0, 0, 136, 136, 0, 136, 136, 136, 0, 0, 136,
    0, 0, 136, 136, 136, 136, 136, 136, 136, 0, 0, 136, 0, 0, 0, 0, 0, 0, 0, 135, 0, 0, 0, 0, 0, 0,
    0, 0, 0, 0, 0, 0, 0, 0, 0, 136, 0, 0, 0, 0, 0, 0, 0, 136, 0, 0, 0, 0, 0, 0, 0, 0, 0, 0, 0, 0,
    0, 0, 0, 0, 0, 0, 0, 0, 0, 0, 0, 0, 0, 0, 0, 0, 0, 0, 0, 0, 0, 0, 0, 0, 0, 0, 0, 0, 0, 0, 0, 0,
    0, 0, 0, 0, 0, 0, 0, 137, 0, 0, 0, 0, 138, 0, 0, 0, 0, 0, 0, 0, 0, 0, 0, 0, 0, 0, 0, 0, 0, 0,
    0, 0, 0, 0, 0, 0, 0, 0, 0, 0, 0, 0, 0, 0, 0, 0, 0, 0, 0, 0, 0, 0, 0, 0, 0, 0, 0, 0, 0, 0, 0, 0,
    0, 0, 0, 0, 0, 0, 0, 0, 0, 0, 0, 0, 0, 0, 0, 0, 0, 0, 0, 0, 0, 0, 0, 0, 0, 0, 0, 0, 0, 140, 0,
    0, 139, 139, 0, 0, 0, 0, 0, 0, 0, 0, 0, 0, 0, 0, 0, 0, 0, 0, 0, 0, 0, 0, 0, 0, 0, 0, 0, 0, 0,
    0, 0, 0, 0, 0, 0, 0, 0, 0, 0, 0, 0, 0, 0, 0, 0, 0, 0, 0, 0, 0, 0, 0, 0, 0, 0, 0, 0, 0, 0, 0, 0,
    0, 0, 0, 0, 0, 0, 0, 0, 0, 0, 141, 0, 0, 0, 0, 0, 0, 0, 0, 0, 0, 0, 0, 0, 0, 0, 0, 0, 0, 0, 0,
    0, 0, 0, 0, 0, 0, 0, 0, 0, 0, 0, 0, 0, 0, 0, 0, 0, 0, 0, 0, 0, 0, 0, 0, 0, 0, 0, 0, 0, 0, 0, 0,
    0, 0, 0, 0, 0, 0, 0, 0, 0, 0, 0, 0, 0, 0, 0, 0, 0, 0, 0, 0, 0, 0, 0, 0, 0, 0, 0, 0, 142, 0, 0,
    0, 0, 0, 0, 0, 0, 0, 0, 0, 0, 0, 0, 0, 0, 0, 0, 0, 0, 0, 0, 0, 0, 0, 0, 0, 0, 0, 0, 0, 0, 0, 0,
    0, 0, 0, 0, 0, 0, 0, 0, 0, 0, 0, 0, 0, 0, 0, 0, 0, 0, 0, 0, 0, 0, 0, 0, 0, 0, 0, 143, 143, 0,
    143, 143, 143, 143, 143, 143, 143, 143, 143, 143, 143, 143, 143, 143, 143, 0, 0, 143, 0, 0, 0,
    144, 0, 0, 0, 0, 0, 0, 0, 0, 0, 0, 0, 0, 0, 0, 0, 0, 0, 0, 0, 0, 0, 0, 0, 0, 0, 0, 0, 0, 0, 0,
    0, 0, 0, 0, 0, 0, 0, 0, 0, 0, 0, 0, 0, 0, 0, 0, 0, 0, 0, 0, 0, 0, 0, 0, 0, 0, 146, 146, 0, 146,
    146, 146, 0, 0, 146, 0, 0, 145, 145, 145, 145, 145, 145, 146, 0, 0, 146, 0, 0, 0, 0, 0, 0, 0,
    0, 0, 0, 0, 0, 0, 0, 0, 0, 0, 0, 0, 0, 0, 0, 0, 0, 0, 0, 0, 0, 0, 0, 0, 0, 0, 0, 0, 0, 0, 0, 0,
    0, 0, 0, 0, 0, 0, 0, 0, 0, 0, 0, 0, 0, 0, 0, 0, 0, 0, 0, 0, 0, 0, 0, 0, 0, 0, 0, 0, 0, 0, 0, 0,
    0, 0, 0, 0, 0, 0, 0, 0, 0, 0, 0, 147, 0, 0, 0, 0, 147, 0, 148, 148, 0, 0, 0, 0, 0, 0, 0, 0, 0,
    0, 0, 0, 0, 0, 0, 0, 0, 0, 0, 0, 0, 0, 0, 0, 0, 0, 0, 0, 0, 0, 0, 0, 0, 0, 0, 0, 0, 0, 0, 0, 0,
    0, 0, 0, 0, 0, 0, 0, 0, 0, 0, 0, 0, 0, 0, 0, 0, 0, 0, 0, 0, 0, 0, 0, 0, 0, 0, 0, 0, 0, 0, 0,
    150, 0, 0, 0, 0, 149, 0, 0, 0, 0, 0, 0, 0, 0, 0, 0, 0, 0, 0, 0, 0, 0, 0, 0, 0, 0, 0, 0, 0, 0,
    0, 0, 0, 0, 0, 0, 0, 0, 0, 0, 0, 0, 0, 0, 0, 0, 0, 0, 0, 0, 0, 0, 0, 0, 0, 0, 0, 0, 0, 152,
    152, 0, 152, 152, 152, 0, 0, 152, 0, 0, 152, 152, 152, 152, 152, 152, 152, 0, 0, 152, 0, 0, 0,
    0, 0, 0, 0, 151, 0, 0, 0, 0, 0, 0, 0, 0, 0, 0, 0, 0, 0, 0, 0, 152, 0, 0, 0, 0, 0, 0, 0, 152, 0,
    0, 0, 0, 0, 0, 0, 0, 0, 0, 0, 0, 0, 0, 0, 0, 0, 0, 0, 0, 0, 0, 0, 0, 0, 0, 0, 0, 0, 0, 0, 0, 0,
    0, 0, 0, 0, 0, 0, 0, 0, 0, 0, 0, 0, 0, 0, 0, 0, 0, 0, 153, 0, 0, 0, 0, 154, 0, 0, 0, 0, 0, 0,
    0, 0, 0, 0, 0, 0, 0, 0, 0, 0, 0, 0, 0, 0, 0, 0, 0, 0, 0, 0, 0, 0, 0, 0, 0, 0, 0, 0, 0, 0, 0, 0,
    0, 0, 0, 0, 0, 0, 0, 0, 0, 0, 0, 0, 0, 0, 156, 156, 0, 156, 156, 156, 156, 156, 156, 156, 156,
    156, 156, 156, 156, 156, 156, 156, 0, 0, 156, 0, 0, 0, 0, 0, 0, 0, 0, 0, 0, 0, 0, 0, 0, 0, 0,
    0, 0, 0, 0, 0, 0, 0, 156, 0, 0, 0, 0, 0, 155, 0, 156, 0, 0, 0, 0, 0, 0, 0, 0, 0, 0, 0, 0, 0, 0,
    0, 0, 0, 0, 0, 0, 0, 0, 0, 0, 0, 0, 0, 0, 160, 160, 0, 160, 160, 160, 158, 158, 160, 158, 158,
    159, 159, 159, 159, 159, 159, 160, 0, 0, 160, 0, 0, 0, 0, 0, 0, 0, 0, 0, 0, 0, 0, 0, 0, 0, 0,
    0, 0, 0, 0, 0, 0, 0, 157, 0, 0, 0, 0, 0, 0, 0, 157, 0, 0, 0, 0, 0, 0, 0, 0, 0, 0, 0, 0, 0, 0,
    0, 0, 0, 0, 0, 0, 0, 0, 0, 0, 0, 0, 0, 0, 0, 0, 0, 0, 0, 0, 0, 0, 0, 0, 0, 0, 0, 0, 0, 0, 0, 0,
    0, 162, 161, 0, 162, 0, 162, 162, 0, 162, 0, 0, 0, 0, 0, 162, 162, 162, 162, 162, 162, 162,
    162, 162, 162, 162, 162, 162, 162, 162, 162, 162, 162, 162, 0, 0, 0, 0, 0, 0, 0, 0, 0, 0, 0, 0,
    0, 0, 0, 0, 0, 0, 0, 0, 0, 0, 0, 0, 0, 0, 0, 0, 0, 0, 0, 0, 0, 0, 0, 0, 0, 0, 0, 0, 0, 0, 0, 0,
    0, 0, 0, 0, 165, 0, 0, 164, 0, 165, 165, 0, 163, 0, 0, 0, 0, 0, 165, 165, 165, 165, 165, 165,
    165, 165, 165, 165, 165, 165, 165, 165, 165, 165, 165, 165, 165, 0, 0, 0, 0, 0, 0, 0, 0, 0, 0,
    0, 0, 0, 0, 0, 0, 0, 0, 0, 0, 0, 0, 0, 0, 0, 0, 0, 0, 0, 171, 171, 0, 171, 171, 171, 168, 168,
    171, 168, 168, 170, 170, 170, 170, 170, 170, 171, 0, 166, 171, 0, 0, 0, 0, 166, 0, 0, 0, 0, 0,
    0, 0, 0, 0, 0, 0, 0, 0, 0, 0, 0, 0, 0, 169, 0, 0, 0, 0, 0, 167, 0, 169, 0, 0, 0, 0, 0, 0, 0, 0,
    0, 0, 0, 0, 0, 0, 0, 0, 0, 0, 0, 0, 0, 0, 0, 0, 0, 0, 0, 0, 0, 0, 0, 0, 0, 0, 0, 0, 0, 0, 0, 0,
    0, 0, 0, 0, 0, 0, 0, 173, 172, 0, 173, 0, 0, 173, 173, 173, 0, 0, 0, 0, 0, 173, 173, 173, 173,
    173, 173, 173, 173, 173, 173, 173, 173, 173, 173, 173, 173, 173, 173, 173, 0, 0, 0, 0, 0, 0, 0,
    0, 0, 0, 0, 0, 0, 0, 0, 0, 0, 0, 0, 0, 0, 0, 0, 0, 0, 0, 0, 0, 0, 0, 0, 0, 0, 0, 0, 0, 0, 0, 0,
    0, 0, 0, 0, 0, 0, 0, 0, 0, 176, 0, 0, 175, 0, 0, 176, 176, 174, 0, 0, 0, 0, 0, 176, 176, 176,
    176, 176, 176, 176, 176, 176, 176, 176, 176, 176, 176, 176, 176, 176, 176, 176, 0, 0, 0, 0, 0,
    0, 0, 0, 0, 0, 0, 0, 0, 0, 0, 0, 0, 0, 0, 0, 0, 0, 0, 0, 0, 0, 0, 0, 0, 0, 0, 0, 0, 0, 0, 0, 0,
    0, 0, 0, 0, 0, 0, 0, 0, 0, 0, 0, 178, 0, 0, 0, 0, 0, 178, 177, 0, 0, 0, 0, 0, 0, 0, 0, 0, 0, 0,
    0, 0, 0, 0, 0, 0, 0, 0, 0, 0, 0, 0, 0, 0, 0, 0, 0, 0, 0, 0, 0, 0, 0, 0, 0, 0, 0, 0, 0, 0, 0, 0,
    0, 0, 0, 0, 0, 0, 0, 0, 0, 0, 0, 0, 0, 0, 0, 0, 0, 0, 0, 0, 0, 0, 0, 0, 0, 0, 0, 0, 0, 0, 0,
    179, 0, 0, 0, 0, 0, 0, 0, 0, 0, 0, 0, 0, 0, 0, 0, 0, 0, 0, 0, 0, 0, 0, 0, 0, 0, 0, 0, 0, 0, 0,
    0, 0, 0, 0, 0, 0, 0, 0, 0, 0, 0, 0, 0, 0, 0, 0, 0, 0, 0, 0, 0, 0, 0, 0, 0, 0, 0, 0, 0, 0, 180,
    180, 0, 180, 180, 180, 0, 0, 180, 0, 0, 180, 180, 180, 180, 180, 180, 180, 0, 0, 180, 181, 0,
    0, 0, 0, 0, 0, 0, 0, 0, 0, 0, 0, 0, 0, 0, 0, 0, 0, 0, 0, 0, 0, 180, 0, 0, 0, 0, 0, 0, 0, 180,
    0, 0, 0, 0, 0, 0, 0, 0, 0, 0, 0, 0, 0, 0, 0, 0, 0, 0, 0, 0, 0, 0, 0, 0, 0, 0, 0, 0, 0, 0, 0, 0,
    0, 0, 0, 0, 0, 0, 0, 0, 0, 0, 0, 0, 0, 0, 0, 0, 0, 183, 0, 0, 0, 0, 182, 0, 0, 0, 0, 0, 0, 0,
    0, 0, 0, 0, 0, 0, 0, 0, 0, 0, 0, 0, 0, 0, 0, 0, 0, 0, 0, 0, 0, 0, 0, 0, 0, 0, 0, 0, 0, 0, 0, 0,
    0, 0, 0, 0, 0, 0, 0, 0, 0, 0, 0, 0, 0, 0, 0, 0, 0, 0, 0, 0, 0, 185, 186, 0, 184, 184, 0, 0, 0,
    0, 0, 0, 0, 0, 0, 0, 0, 0, 0, 0, 0, 0, 0, 0, 0, 0, 0, 0, 0, 0, 0, 0, 0, 0, 0, 0, 0, 0, 0, 0, 0,
    0, 0, 0, 0, 0, 0, 0, 0, 0, 0, 0, 0, 0, 0, 0, 0, 0, 0, 0, 0, 0, 0, 0, 0, 0, 0, 0, 0, 0, 0, 0, 0,
    0, 0, 0, 0, 0, 0, 0, 0, 0, 0, 0, 0, 0, 0, 0, 0, 0, 0, 0, 0, 0, 0, 0, 0, 188, 0, 0, 0, 0, 187,
    0, 0, 0, 0, 0, 0, 0, 0, 0, 0, 0, 0, 0, 0, 0, 0, 0, 0, 0, 0, 0, 0, 0, 0, 0, 0, 0, 0, 0, 0, 0, 0,
    0, 0, 0, 0, 0, 0, 0, 0, 0, 0, 0, 0, 0, 0, 0, 0, 0, 0, 0, 0, 0, 0, 0, 0, 0, 0, 0, 0, 0, 0, 0, 0,
    0, 0, 0, 0, 0, 0, 0, 0, 0, 0, 0, 0, 0, 0, 0, 0, 0, 0, 0, 0, 0, 0, 0, 0, 0, 0, 0, 0, 0, 0, 0, 0,
    0, 0, 0, 0, 0, 0, 0, 0, 189, 0, 0, 0, 0, 0, 0, 0, 0, 0, 0, 0, 0, 0, 0, 0, 0, 0, 0, 0, 0, 0, 0,
    0, 0, 0, 0, 0, 0, 0, 0, 0, 0, 0, 0, 0, 0, 0, 0, 0, 0, 0, 190, 190, 190, 190, 190, 190, 0, 0, 0,
    0, 0, 0, 0, 0, 191, 0, 0, 0, 0, 0, 0, 0, 0, 0, 0, 0, 0, 0, 0, 0, 0, 0, 0, 0, 0, 0, 0, 0, 0, 0,
    0, 0, 0, 0, 0, 0, 0, 0, 0, 0, 0, 0, 0, 0, 0, 0, 0, 0, 0, 0, 0, 0, 0, 0, 0, 0, 0, 0, 0, 0, 0, 0,
    0, 0, 0, 0, 0, 0, 0, 0, 0, 0, 0, 0, 0, 0, 0, 0, 0, 0, 0, 0, 0, 0, 0, 193, 192, 0, 0, 0, 0, 0,
    0, 0, 0, 0, 0, 0, 0, 0, 0, 0, 0, 0, 0, 0, 0, 0, 0, 0, 0, 0, 0, 0, 0, 0, 0, 0, 0, 0, 0, 0, 0, 0,
    0, 0, 0, 0, 0, 0, 0, 0, 0, 0, 0, 0, 0, 0, 0, 0, 0, 194, 194, 0, 194, 194, 194, 0, 0, 194, 0, 0,
    194, 194, 194, 194, 194, 194, 194, 0, 0, 194, 0, 0, 0, 0, 0, 0, 0, 0, 0, 0, 0, 0, 0, 0, 0, 0,
    0, 0, 0, 0, 0, 0, 0, 194, 0, 0, 0, 0, 0, 0, 0, 194, 0, 0, 0, 0, 0, 0, 0, 0, 0, 0, 0, 0, 0, 0,
    0, 0, 0, 0, 0, 0, 0, 0, 0, 0, 0, 0, 0, 0, 195, 195, 0, 195, 195, 195, 0, 0, 195, 0, 0, 195,
    195, 195, 195, 195, 195, 195, 0, 196, 195, 0, 0, 196, 0, 0, 0, 0, 0, 0, 0, 0, 0, 0, 0, 0, 0, 0,
    0, 0, 0, 0, 0, 0, 195, 0, 0, 0, 0, 0, 0, 0, 195, 0, 0, 0, 0, 0, 0, 0, 0, 0, 0, 0, 0, 0, 0, 0,
    0, 0, 0, 0, 0, 0, 0, 0, 0, 0, 0, 0, 0, 197, 197, 0, 197, 197, 197, 0, 0, 197, 0, 0, 197, 197,
    197, 197, 197, 197, 197, 0, 0, 197, 0, 0, 0, 0, 0, 0, 0, 0, 0, 0, 0, 0, 0, 0, 0, 0, 0, 0, 0, 0,
    0, 0, 0, 197, 0, 0, 0, 0, 0, 0, 0, 197, 0, 0, 0, 0, 0, 0, 0, 0, 0, 0, 0, 0, 0, 0, 0, 0, 0, 0,
    0, 0, 0, 0, 0, 0, 0, 0, 0, 0, 0, 0, 0, 0, 0, 0, 0, 0, 0, 0, 0, 0, 0, 0, 0, 0, 0, 0, 0, 199, 0,
    199, 0, 199, 199, 199, 199, 0, 199, 0, 0, 0, 0, 198, 0, 0, 0, 0, 0, 0, 0, 0, 0, 0, 0, 0, 0, 0,
    0, 0, 0, 0, 0, 0, 0, 0, 0, 0, 0, 0, 0, 0, 0, 0, 0, 0, 0, 0, 0, 0, 0, 0, 0, 0, 0, 0, 0, 0, 0, 0,
    0, 200, 200, 0, 200, 200, 200, 0, 0, 200, 0, 0, 200, 200, 200, 200, 200, 200, 200, 0, 0, 200,
    0, 0, 0, 0, 0, 0, 0, 0, 0, 0, 0, 0, 0, 0, 0, 0, 0, 0, 0, 0, 0, 0, 0, 200, 0, 0, 0, 0, 0, 0, 0,
    200, 0, 0, 0, 0, 0, 0, 0, 0, 0, 0, 0, 0, 0, 0, 0, 0, 0, 0, 0, 0, 0, 0, 0, 0, 0, 0, 0, 0, 0, 0,
    0, 0, 0, 0, 0, 0, 0, 0, 0, 0, 0, 0, 0, 0, 0, 0, 0, 202, 0, 202, 0, 202, 202, 202, 202, 0, 202,
    0, 0, 0, 0, 202, 201, 0, 0, 0, 0, 0, 0, 0, 0, 0, 0, 0, 0, 0, 0, 0, 0, 0, 0, 0, 0, 0, 0, 0, 0,
    0, 0, 0, 0, 0, 0, 0, 0, 0, 0, 0, 0, 0, 0, 0, 0, 0, 0, 0, 0, 0, 0, 203, 203, 0, 203, 203, 203,
    0, 0, 203, 0, 0, 203, 203, 203, 203, 203, 203, 203, 0, 0, 203, 0, 0, 0, 0, 0, 0, 0, 0, 0, 0, 0,
    0, 0, 0, 0, 0, 0, 0, 0, 0, 0, 0, 0, 203, 0, 0, 0, 0, 0, 0, 0, 203, 0, 0, 0, 0, 0, 0, 0, 0, 0,
    0, 0, 0, 0, 0, 0, 0, 0, 0, 0, 0, 0, 0, 0, 0, 0, 0, 0, 0, 0, 0, 0, 0, 0, 0, 0, 0, 0, 0, 0, 0, 0,
    0, 0, 0, 0, 0, 0, 205, 0, 205, 0, 205, 205, 205, 205, 0, 205, 0, 0, 0, 0, 205, 205, 204, 204,
    204, 204, 204, 204, 0, 0, 0, 0, 0, 0, 0, 0, 0, 0, 0, 0, 0, 0, 0, 0, 0, 0, 0, 0, 0, 0, 0, 0, 0,
    0, 0, 0, 0, 0, 0, 0, 0, 0, 0, 0, 0, 0, 0, 0, 206, 206, 0, 206, 206, 206, 0, 0, 206, 0, 0, 206,
    206, 206, 206, 206, 206, 206, 0, 0, 206, 0, 0, 0, 0, 0, 0, 0, 0, 0, 0, 0, 0, 0, 0, 0, 0, 0, 0,
    0, 0, 0, 0, 0, 206, 0, 0, 0, 0, 0, 0, 0, 206, 0, 0, 0, 0, 0, 0, 0, 0, 0, 0, 0, 0, 0, 0, 0, 0,
    0, 0, 0, 0, 0, 0, 0, 0, 0, 0, 0, 0, 0, 0, 0, 0, 0, 0, 0, 0, 0, 0, 0, 0, 0, 0, 0, 0, 0, 0, 0,
    208, 0, 208, 0, 208, 208, 208, 208, 0, 208, 0, 0, 0, 0, 208, 208, 208, 208, 208, 208, 208, 208,
    207, 207, 207, 207, 0, 0, 0, 0, 0, 0, 0, 0, 0, 0, 0, 0, 0, 0, 0, 0, 0, 0, 0, 0, 0, 0, 0, 0, 0,
    0, 0, 0, 0, 0, 0, 0, 0, 0, 0, 0, 209, 209, 0, 209, 209, 209, 0, 0, 209, 0, 0, 209, 209, 209,
    209, 209, 209, 209, 0, 0, 209, 0, 0, 0, 0, 0, 0, 0, 0, 0, 0, 0, 0, 0, 0, 0, 0, 0, 0, 0, 0, 0,
    0, 0, 209, 0, 0, 0, 0, 0, 0, 0, 209, 0, 0, 0, 0, 0, 0, 0, 0, 0, 0, 0, 0, 0, 0, 0, 0, 0, 0, 0,
    0, 0, 0, 0, 0, 0, 0, 0, 0, 0, 0, 0, 0, 0, 0, 0, 0, 0, 0, 0, 0, 0, 0, 0, 0, 0, 0, 0, 211, 0,
    211, 0, 211, 211, 211, 211, 0, 211, 0, 0, 0, 0, 211, 211, 211, 211, 211, 211, 211, 211, 211,
    211, 211, 211, 210, 210, 210, 210, 210, 210, 210, 0, 0, 0, 0, 0, 0, 0, 0, 0, 0, 0, 0, 0, 0, 0,
    0, 0, 0, 0, 0, 0, 0, 0, 0, 0, 0, 0, 0, 0, 0, 0, 0, 0, 0, 0, 0, 0, 0, 0, 0, 0, 0, 0, 0, 0, 0, 0,
    0, 212, 0, 0, 0, 0, 212, 212, 212, 0, 0, 0, 0, 0, 0, 212, 212, 212, 212, 212, 212, 212, 212,
    212, 212, 212, 212, 212, 212, 212, 212, 212, 212, 212, 0, 0, 0, 0, 0, 0, 0, 0, 0, 0, 0, 0, 0,
    0, 0, 0, 0, 0, 0, 0, 0, 0, 0, 0, 0, 0, 0, 0, 0, 0, 0, 0, 0, 0, 0, 0, 0, 0, 0, 0, 0, 0, 0, 0, 0,
    0, 0, 0, 218, 0, 218, 0, 218, 218, 218, 218, 0, 218, 0, 0, 0, 0, 217, 216, 215, 215, 215, 215,
    215, 215, 214, 214, 214, 214, 213, 213, 213, 213, 213, 213, 213, 0, 0, 0, 0, 0, 0, 0, 0, 0, 0,
    0, 0, 0, 0, 0, 0, 0, 0, 0, 0, 0, 0, 0, 0, 0, 0, 0, 0, 0, 0, 0, 0, 0, 0, 0, 0, 0, 0, 0, 0, 0, 0,
    0, 0, 0, 0, 0, 0, 223, 0, 223, 0, 223, 223, 223, 223, 0, 223, 0, 0, 0, 0, 222, 221, 220, 220,
    220, 220, 220, 220, 219, 219, 219, 219, 0, 0, 0, 0, 0, 0, 0, 0, 0, 0, 0, 0, 0, 0, 0, 0, 0, 0,
    0, 0, 0, 0, 0, 0, 0, 0, 0, 0, 0, 0, 0, 0, 0, 0, 0, 0, 0, 0, 0, 0, 0, 0, 0, 0, 0, 0, 0, 0, 0, 0,
    0, 0, 0, 0, 0, 227, 0, 227, 0, 227, 227, 227, 227, 0, 227, 0, 0, 0, 0, 226, 225, 224, 224, 224,
    224, 224, 224, 0, 0, 0, 0, 0, 0, 0, 0, 0, 0, 0, 0, 0, 0, 0, 0, 0, 0, 0, 0, 0, 0, 0, 0, 0, 0, 0,
    0, 0, 0, 0, 0, 0, 0, 0, 0, 0, 0, 0, 0, 0, 0, 0, 0, 0, 0, 0, 0, 0, 0, 0, 0, 0, 0, 0, 0, 0, 0, 0,
    230, 0, 230, 0, 230, 230, 230, 230, 0, 230, 0, 0, 0, 0, 229, 228, 0, 0, 0, 0, 0, 0, 0, 0, 0, 0,
    0, 0, 0, 0, 0, 0, 0, 0, 0, 0, 0, 0, 0, 0, 0, 0, 0, 0, 0, 0, 0, 0, 0, 0, 0, 0, 0, 0, 0, 0, 0, 0,
    0, 0, 0, 0, 233, 233, 0, 233, 233, 233, 0, 0, 233, 0, 0, 232, 232, 232, 232, 232, 232, 233, 0,
    0, 233, 0, 0, 0, 0, 0, 0, 0, 0, 0, 0, 0, 0, 0, 0, 0, 0, 0, 0, 0, 0, 0, 0, 0, 231, 0, 0, 0, 0,
    0, 0, 0, 231, 0, 0, 0, 0, 0, 0, 0, 0, 0, 0, 0, 0, 0, 0, 0, 0, 0, 0, 0, 0, 0, 0, 0, 0, 0, 0, 0,
    0, 0, 0, 0, 0, 0, 0, 0, 0, 0, 0, 0, 0, 0, 0, 0, 0, 0, 0, 0, 236, 0, 236, 235, 236, 236, 236,
    236, 234, 236, 0, 0, 0, 0, 236, 236, 236, 236, 236, 236, 236, 236, 236, 236, 236, 236, 236,
    236, 236, 236, 236, 236, 236, 0, 0, 0, 0, 0, 0, 0, 0, 0, 0, 0, 0, 0, 0, 0, 0, 0, 0, 0, 0, 0, 0,
    0, 0, 0, 0, 0, 0, 0, 239, 239, 0, 237, 237, 237, 0, 0, 239, 0, 0, 0, 0, 0, 0, 0, 0, 237, 0, 0,
    238, 0, 0, 0, 0, 0, 0, 0, 0, 0, 0, 0, 0, 0, 0, 0, 0, 0, 0, 0, 0, 0, 0, 0, 0, 0, 0, 0, 0, 0, 0,
    0, 0, 0, 0, 0, 0, 0, 0, 0, 0, 0, 0, 0, 0, 0, 0, 0, 0, 0, 0, 0, 0, 0, 0, 0, 0, 0, 0, 0, 0, 0, 0,
    0, 0, 0, 0, 0, 0, 0, 0, 0, 0, 0, 0, 0, 0, 0, 0, 0, 0, 0, 0, 240, 0, 0, 0, 0, 0, 0, 0, 0, 0, 0,
    0, 0, 0, 0, 0, 0, 0, 0, 0, 0, 0, 0, 0, 0, 0, 0, 0, 0, 0, 0, 0, 0, 0, 0, 0, 0, 0, 0, 0, 0, 0, 0,
    0, 0, 0, 0, 0, 0, 0, 0, 0, 0, 0, 0, 0, 0, 0, 0, 242, 242, 0, 242, 242, 242, 0, 0, 242, 0, 0,
    242, 242, 242, 242, 242, 242, 242, 0, 0, 242, 0, 0, 0, 0, 0, 0, 0, 241, 0, 0, 0, 0, 0, 0, 0, 0,
    0, 0, 0, 0, 0, 0, 0, 242, 0, 0, 0, 0, 0, 0, 0, 242, 0, 0, 0, 0, 0, 0, 0, 0, 0, 0, 0, 0, 0, 0,
    0, 0, 0, 0, 0, 0, 0, 0, 0, 0, 0, 0, 0, 0, 0, 0, 0, 0, 0, 0, 0, 0, 0, 0, 0, 0, 0, 0, 0, 0, 0, 0,
    0, 0, 0, 0, 0, 243, 0, 0, 0, 0, 244, 0, 0, 0, 0, 0, 0, 0, 0, 0, 0, 0, 0, 0, 0, 0, 0, 0, 0, 0,
    0, 0, 0, 0, 0, 0, 0, 0, 0, 0, 0, 0, 0, 0, 0, 0, 0,
];

pub const WIDTH: u8 = 81;

/// The gosyntax grammar.
pub fn gosyntax_grammar() -> Grammar
    ensures tables { tables_of result ≡ gosyntax_tables }
    ensures file { MayBegin (tables_of result) NAME_FILE }
{
    Grammar {
        roots: &ROOTS,
        names: &NAMES,
        symbols: &SYMBOLS,
        starts: &STARTS,
        classes: &CLASSES,
        set_starts: &SET_STARTS,
        table: &TABLE,
        width: WIDTH,
    }
}
