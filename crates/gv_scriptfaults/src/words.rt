//! Words that may not be declared, by their classes.

ghost use Rattle.std.specs.Prelude.{◌≡◌};
ghost use Rattle.gv_scriptnames.specs.Names.{is_constant, is_word};

use gv_scriptsyntax::generated::script_table::{
    CLASS_BOOK_ATOM_WORD, CLASS_CELL_ATOM_WORD, CLASS_DONE_WORD, CLASS_EACH_WORD,
    CLASS_FIELD_ATOM_WORD, CLASS_LOCK_WORD, CLASS_MAP_WORD, CLASS_ONE_ATOM_WORD,
    CLASS_THREE_ATOM_WORD, CLASS_TOKEN_WORD, CLASS_TWO_ATOM_WORD,
};
use gv_termread::SeenToken;
use gv_termread::generated::term_table::{
    CLASS_AT_WORD, CLASS_BLOCKS_WORD, CLASS_BYTES_WORD, CLASS_CAT_WORD, CLASS_DEL_WORD,
    CLASS_FALSE_WORD, CLASS_FITS_WORD, CLASS_GET_WORD, CLASS_HAS_WORD, CLASS_IF_WORD,
    CLASS_IMP_WORD, CLASS_IS_ZERO_WORD, CLASS_LE64_WORD, CLASS_LEN_WORD, CLASS_MAP_WB_WORD,
    CLASS_MAP_WW_WORD, CLASS_NIL_SLICE_WORD, CLASS_NIL_WORD, CLASS_NO_CALL_WORD, CLASS_PUT_WORD,
    CLASS_PUT64_WORD, CLASS_REFS_WORD, CLASS_S_CAP_WORD, CLASS_S_LEN_WORD, CLASS_SL_WORD,
    CLASS_SUB_WORD, CLASS_TRUE_WORD, CLASS_UN64_WORD, CLASS_UPD_WORD, CLASS_WORDS_WORD,
};

// The constants of terms.
const CONSTANTS: [u8; 7] = [
    CLASS_TRUE_WORD,
    CLASS_FALSE_WORD,
    CLASS_NIL_WORD,
    CLASS_NIL_SLICE_WORD,
    CLASS_NO_CALL_WORD,
    CLASS_MAP_WW_WORD,
    CLASS_MAP_WB_WORD,
];

// The words of terms and of atoms.
const WORDS: [u8; 41] = [
    CLASS_BYTES_WORD,
    CLASS_WORDS_WORD,
    CLASS_REFS_WORD,
    CLASS_BLOCKS_WORD,
    CLASS_LEN_WORD,
    CLASS_IS_ZERO_WORD,
    CLASS_LE64_WORD,
    CLASS_UN64_WORD,
    CLASS_S_LEN_WORD,
    CLASS_S_CAP_WORD,
    CLASS_IMP_WORD,
    CLASS_FITS_WORD,
    CLASS_AT_WORD,
    CLASS_CAT_WORD,
    CLASS_PUT64_WORD,
    CLASS_GET_WORD,
    CLASS_HAS_WORD,
    CLASS_DEL_WORD,
    CLASS_IF_WORD,
    CLASS_UPD_WORD,
    CLASS_SUB_WORD,
    CLASS_PUT_WORD,
    CLASS_SL_WORD,
    CLASS_TRUE_WORD,
    CLASS_FALSE_WORD,
    CLASS_NIL_WORD,
    CLASS_NIL_SLICE_WORD,
    CLASS_NO_CALL_WORD,
    CLASS_MAP_WW_WORD,
    CLASS_MAP_WB_WORD,
    CLASS_ONE_ATOM_WORD,
    CLASS_TWO_ATOM_WORD,
    CLASS_MAP_WORD,
    CLASS_THREE_ATOM_WORD,
    CLASS_CELL_ATOM_WORD,
    CLASS_FIELD_ATOM_WORD,
    CLASS_BOOK_ATOM_WORD,
    CLASS_LOCK_WORD,
    CLASS_TOKEN_WORD,
    CLASS_DONE_WORD,
    CLASS_EACH_WORD,
];

/// Whether a token is a constant of terms.
pub fn is_constant(t: SeenToken) -> bool
    ensures { result ≡ is_constant t }
{
    CONSTANTS.contains(&t.class)
}

/// Whether a token is a word of terms or of atoms.
pub fn is_word(t: SeenToken) -> bool
    ensures { result ≡ is_word t }
{
    WORDS.contains(&t.class)
}
