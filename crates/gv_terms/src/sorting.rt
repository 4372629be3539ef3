//! Which sort an operator gives.

ghost use Rattle.std.specs.Prelude.{◌≡◌, None, Some, [], ◌∷◌, slice_get};
ghost use Rattle.std.specs.Option.{option_copied};
ghost use Rattle.gv_terms.specs.Sorts.{takes, with_copies, with_list, with_map, with_part, sort_given, item_sort, entry_sort, IsOnLists, IsOnMaps};

use crate::operator::Operator;
use crate::sort::Sort;

/// The greatest number of copies that a maker makes.
pub const MOST_COPIES: u64 = 65536;

/// The sort where the parts have just these sorts.
fn takes(wanted: &[Sort], sort: Sort, parts: &[Sort]) -> Option<Sort>
    ensures { result ≡ takes wanted.now sort parts.now }
{
    if wanted == parts { Some(sort) } else { None }
}

/// The sort of a maker of so many copies, where there are not too many.
fn copies(count: u64, item: Sort, sort: Sort, parts: &[Sort]) -> Option<Sort>
    ensures { result ≡ with_copies count (takes (item ∷ []) sort parts.now) }
{
    if count <= MOST_COPIES {
        takes(&[item], sort, parts)
    } else {
        None
    }
}

impl Sort {
    /// The sort of a list's items; none of what is no list.
    pub fn item(self) -> Option<Sort>
        ensures { result ≡ item_sort self }
    {
        match self {
            Sort::Bytes | Sort::Words => Some(Sort::Word),
            Sort::Refs => Some(Sort::Ref),
            Sort::Blocks => Some(Sort::Bytes),
            _ => None,
        }
    }

    /// The sort of what a map holds under its keys; none of what is no map.
    pub fn entry(self) -> Option<Sort>
        ensures { result ≡ entry_sort self }
    {
        match self {
            Sort::MapWW => Some(Sort::Word),
            Sort::MapWB => Some(Sort::Bytes),
            _ => None,
        }
    }
}

impl Operator {
    /// The sort of the operator over parts of these sorts, where it has one.
    pub fn sort_given(self, parts: &[Sort]) -> Option<Sort>
        ensures { result ≡ sort_given self parts.now }
    {
        match self {
            Operator::Number(_) => takes(&[], Sort::Word, parts),
            Operator::True | Operator::False => takes(&[], Sort::Bool, parts),
            Operator::Nil => takes(&[], Sort::Ref, parts),
            Operator::NilSlice => takes(&[], Sort::SliceS, parts),
            Operator::NoCall => takes(&[], Sort::Call, parts),
            Operator::MapWW => takes(&[], Sort::MapWW, parts),
            Operator::MapWB => takes(&[], Sort::MapWB, parts),
            Operator::Not => takes(&[Sort::Bool], Sort::Bool, parts),
            Operator::Complement => takes(&[Sort::Word], Sort::Word, parts),
            Operator::Or | Operator::And | Operator::Imp => {
                takes(&[Sort::Bool, Sort::Bool], Sort::Bool, parts)
            }
            Operator::Less | Operator::AtMost | Operator::Fits => {
                takes(&[Sort::Word, Sort::Word], Sort::Bool, parts)
            }
            Operator::Equal => match parts.first() {
                Some(s) => takes(&[*s, *s], Sort::Bool, parts),
                None => None,
            },
            Operator::If => match parts.get(1) {
                Some(s) => takes(&[Sort::Bool, *s, *s], *s, parts),
                None => None,
            },
            Operator::Le64 => takes(&[Sort::Word], Sort::Bytes, parts),
            Operator::Un64 => takes(&[Sort::Bytes], Sort::Word, parts),
            Operator::Put64 => takes(&[Sort::Bytes, Sort::Word], Sort::Bytes, parts),
            Operator::SLen | Operator::SCap => takes(&[Sort::SliceS], Sort::Word, parts),
            Operator::Sl => takes(&[Sort::SliceS, Sort::Word, Sort::Word], Sort::SliceS, parts),
            Operator::Bytes(k) => copies(k, Sort::Word, Sort::Bytes, parts),
            Operator::Words(k) => copies(k, Sort::Word, Sort::Words, parts),
            Operator::Refs(k) => copies(k, Sort::Ref, Sort::Refs, parts),
            Operator::Blocks(k) => copies(k, Sort::Bytes, Sort::Blocks, parts),
            Operator::Len
            | Operator::At
            | Operator::Upd
            | Operator::Sub
            | Operator::Cat
            | Operator::IsZero => self.sort_given_lists(parts),
            Operator::Get | Operator::Has | Operator::Put | Operator::Del => {
                self.sort_given_maps(parts)
            }
            Operator::Plus
            | Operator::Minus
            | Operator::BitOr
            | Operator::BitXor
            | Operator::Times
            | Operator::Divide
            | Operator::Remainder
            | Operator::ShiftLeft
            | Operator::ShiftRight
            | Operator::BitAnd
            | Operator::BitClear => takes(&[Sort::Word, Sort::Word], Sort::Word, parts),
        }
    }

    // The same of the operators on lists.
    fn sort_given_lists(self, parts: &[Sort]) -> Option<Sort>
        requires { IsOnLists self }
        ensures { result ≡ sort_given self parts.now }
    {
        let list = *parts.first()?;
        let item = list.item()?;
        match self {
            Operator::Len => takes(&[list], Sort::Word, parts),
            Operator::At => takes(&[list, Sort::Word], item, parts),
            Operator::Upd => takes(&[list, Sort::Word, item], list, parts),
            Operator::Sub => takes(&[list, Sort::Word, Sort::Word], list, parts),
            Operator::Cat => takes(&[list, list], list, parts),
            Operator::IsZero => takes(&[list], Sort::Bool, parts),
            _ => None,
        }
    }

    // The same of the operators on maps.
    fn sort_given_maps(self, parts: &[Sort]) -> Option<Sort>
        requires { IsOnMaps self }
        ensures { result ≡ sort_given self parts.now }
    {
        let map = *parts.first()?;
        let entry = map.entry()?;
        match self {
            Operator::Get => takes(&[map, Sort::Word], entry, parts),
            Operator::Has => takes(&[map, Sort::Word], Sort::Bool, parts),
            Operator::Put => takes(&[map, Sort::Word, entry], map, parts),
            Operator::Del => takes(&[map, Sort::Word], map, parts),
            _ => None,
        }
    }
}
