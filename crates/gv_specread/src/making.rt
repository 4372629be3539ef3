//! What tokens give a tree: spans, numbers and sorts.

ghost use Rattle.std.specs.Prelude.{◌≡◌, ◌++◌, ◌∷◌, [], IfOk};
ghost use Rattle.gv_specread.specs.Trees as spec;

use crate::generated::spec_table::{
    CLASS_BLOCKS_SORT, CLASS_BOOL_SORT, CLASS_BYTES_SORT, CLASS_CALL_SORT, CLASS_MAP_WB_SORT,
    CLASS_MAP_WW_SORT, CLASS_REF_SORT, CLASS_REFS_SORT, CLASS_SLICE_S_SORT, CLASS_WORD_SORT,
    CLASS_WORDS_SORT,
};
use crate::tree::{PlacedNumber, PlacedSort, Span};
use gv_base::List;
use gv_termread::SeenToken;
use gv_terms::Sort;
use std::alloc::AllocError;

pub fn span_of(token: SeenToken) -> Span
    ensures { result ≡ spec.span_of token }
{
    Span {
        start: token.start,
        end: token.end,
    }
}

pub fn number_of(token: SeenToken) -> PlacedNumber
    ensures { result ≡ spec.number_of token }
{
    PlacedNumber {
        start: token.start,
        value: token.value,
    }
}

fn sort_by(class: u8) -> Sort
    ensures { result ≡ spec.sort_by class }
{
    match class {
        CLASS_WORD_SORT => Sort::Word,
        CLASS_BOOL_SORT => Sort::Bool,
        CLASS_BYTES_SORT => Sort::Bytes,
        CLASS_WORDS_SORT => Sort::Words,
        CLASS_REFS_SORT => Sort::Refs,
        CLASS_BLOCKS_SORT => Sort::Blocks,
        CLASS_MAP_WW_SORT => Sort::MapWW,
        CLASS_MAP_WB_SORT => Sort::MapWB,
        CLASS_REF_SORT => Sort::Ref,
        CLASS_SLICE_S_SORT => Sort::SliceS,
        CLASS_CALL_SORT => Sort::Call,
        _ => Sort::Name,
    }
}

pub fn sort_of(token: SeenToken) -> PlacedSort
    ensures { result ≡ spec.sort_of token }
{
    PlacedSort {
        start: token.start,
        sort: sort_by(token.class),
    }
}

/// The items with one more.
pub fn with_item<T: Drop>(items: List<T>, item: T) -> Result<List<T>, AllocError>
    ensures { IfOk result (λ all. all ≡ items ++ item ∷ []) }
{
    let mut items = items;
    items.push(item)?;
    Ok(items)
}
