//! The operators on lists.

ghost use Rattle.std.specs.Prelude.{◌≡◌, [], IfOk, nat_eq, slice_index_or};
ghost use Rattle.std.specs.Str.{bytes_eq};
ghost use Rattle.std.specs.List.{list_all};
ghost use Rattle.gv_terms.specs.Meaning.{length_of, item_at, with_item, items_between, both_lists, all_zero};

use crate::items;
use crate::value::Value;
use gv_base::{List, Name, NoMemory};
use std::alloc::Global;

impl Value {
    /// `len(x)`
    pub fn length_of(&self) -> Value
        ensures { result ≡ length_of self.now }
    {
        match self {
            Value::Bytes(x) => Value::Word(x.len() as u64),
            Value::Words(x) => Value::Word(x.len() as u64),
            Value::Refs(x) => Value::Word(x.len() as u64),
            Value::Blocks(x) => Value::Word(x.len() as u64),
            _ => Value::Unit,
        }
    }

    /// `at(x, i)`
    pub fn item_at(&self, alloc: Global, i: u64) -> Result<Value, NoMemory>
        ensures { IfOk result (λ v. v ≡ item_at self.now i) }
    {
        match self {
            Value::Bytes(x) => {
                let item = x.as_slice().get(i as usize).copied().unwrap_or(0);
                Ok(Value::Word(u64::from(item)))
            }
            Value::Words(x) => Ok(Value::Word(word_at(x.as_slice(), i))),
            Value::Refs(x) => Ok(Value::Ref(ref_at(x.as_slice(), i))),
            Value::Blocks(x) => Ok(Value::Bytes(block_at(alloc, x.as_slice(), i)?)),
            _ => Ok(Value::Unit),
        }
    }

    /// `upd(x, i, v)`
    pub fn with_item(&self, alloc: Global, i: u64, v: &Value) -> Result<Value, NoMemory>
        ensures { IfOk result (λ w. w ≡ with_item self.now i v.now) }
    {
        match self {
            Value::Bytes(x) => {
                let byte = (v.word() % 256) as u8;
                let items = items::with_item(alloc, x.as_slice(), i, byte)?;
                Ok(Value::Bytes(Name::from_vec(alloc, items)?))
            }
            Value::Words(x) => {
                let items = items::with_item(alloc, x.as_slice(), i, v.word())?;
                Ok(Value::Words(List::from_vec(items)))
            }
            Value::Refs(x) => {
                let items = items::with_item(alloc, x.as_slice(), i, v.reference())?;
                Ok(Value::Refs(List::from_vec(items)))
            }
            Value::Blocks(x) => {
                let block = v.block(alloc)?;
                let items = items::with_item(alloc, x.as_slice(), i, block)?;
                Ok(Value::Blocks(List::from_vec(items)))
            }
            _ => Ok(Value::Unit),
        }
    }

    /// `sub(x, a, b)`
    pub fn items_between(&self, alloc: Global, a: u64, b: u64) -> Result<Value, NoMemory>
        ensures { IfOk result (λ w. w ≡ items_between self.now a b) }
    {
        match self {
            Value::Bytes(x) => {
                let items = items::part(alloc, x.as_slice(), a, b)?;
                Ok(Value::Bytes(Name::from_vec(alloc, items)?))
            }
            Value::Words(x) => {
                let items = items::part(alloc, x.as_slice(), a, b)?;
                Ok(Value::Words(List::from_vec(items)))
            }
            Value::Refs(x) => {
                let items = items::part(alloc, x.as_slice(), a, b)?;
                Ok(Value::Refs(List::from_vec(items)))
            }
            Value::Blocks(x) => {
                let items = items::part(alloc, x.as_slice(), a, b)?;
                Ok(Value::Blocks(List::from_vec(items)))
            }
            _ => Ok(Value::Unit),
        }
    }

    /// `cat(x, y)`
    pub fn both_lists(&self, alloc: Global, other: &Value) -> Result<Value, NoMemory>
        ensures { IfOk result (λ w. w ≡ both_lists self.now other.now) }
    {
        match (self, other) {
            (Value::Bytes(x), Value::Bytes(y)) => {
                let items = items::join(alloc, x.as_slice(), y.as_slice())?;
                Ok(Value::Bytes(Name::from_vec(alloc, items)?))
            }
            (Value::Words(x), Value::Words(y)) => {
                let items = items::join(alloc, x.as_slice(), y.as_slice())?;
                Ok(Value::Words(List::from_vec(items)))
            }
            (Value::Refs(x), Value::Refs(y)) => {
                let items = items::join(alloc, x.as_slice(), y.as_slice())?;
                Ok(Value::Refs(List::from_vec(items)))
            }
            (Value::Blocks(x), Value::Blocks(y)) => {
                let items = items::join(alloc, x.as_slice(), y.as_slice())?;
                Ok(Value::Blocks(List::from_vec(items)))
            }
            _ => Ok(Value::Unit),
        }
    }

    /// `iszero(x)`
    pub fn all_zero(&self) -> Value
        ensures { result ≡ all_zero self.now }
    {
        match self {
            Value::Bytes(x) => Value::Bool(are_zero_bytes(x.as_slice())),
            Value::Words(x) => Value::Bool(are_zero_words(x.as_slice())),
            Value::Refs(x) => Value::Bool(are_nil(x.as_slice())),
            Value::Blocks(x) => Value::Bool(are_empty(x.as_slice())),
            _ => Value::Unit,
        }
    }
}

// The word at a place, or 0.
fn word_at(words: &[u64], i: u64) -> u64
    ensures { result ≡ slice_index_or words.now i 0 }
{
    words.get(i as usize).copied().unwrap_or(0)
}

// The reference at a place, or nil.
fn ref_at(refs: &[u32], i: u64) -> u32
    ensures { result ≡ slice_index_or refs.now i 0 }
{
    refs.get(i as usize).copied().unwrap_or(0)
}

// A copy of the block at a place, or of the empty one.
#[tactic(auto, using(crate::proofs::Blocks::places))]
fn block_at(alloc: Global, blocks: &[Name], i: u64) -> Result<Name, NoMemory>
    ensures { IfOk result (λ b. b ≡ slice_index_or blocks.now i []) }
{
    match blocks.get(i as usize) {
        Some(block) => Ok(block.copy(alloc)?),
        None => Name::from_vec(alloc, Vec::new(alloc)),
    }
}

fn are_zero_bytes(items: &[u8]) -> bool
    ensures { result ≡ list_all (λ v. nat_eq v 0) items.now }
{
    for v in items {
        if *v != 0 {
            return false;
        }
    }
    true
}

fn are_zero_words(items: &[u64]) -> bool
    ensures { result ≡ list_all (λ v. nat_eq v 0) items.now }
{
    for v in items {
        if *v != 0 {
            return false;
        }
    }
    true
}

fn are_nil(items: &[u32]) -> bool
    ensures { result ≡ list_all (λ v. nat_eq v 0) items.now }
{
    for v in items {
        if *v != 0 {
            return false;
        }
    }
    true
}

fn are_empty(items: &[Name]) -> bool
    ensures { result ≡ list_all (λ v. bytes_eq v []) items.now }
{
    for v in items {
        if !v.as_slice().is_empty() {
            return false;
        }
    }
    true
}
