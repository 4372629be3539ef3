//! The values of terms.

ghost use Rattle.std.specs.Prelude.{◌≡◌, ◌↔◌, IfOk, IsTrue};
ghost use Rattle.gv_terms.specs.declared.value.Value.TheVariants as val;
ghost use Rattle.gv_terms.specs.Values.{has_sort, sort_of_value, zero_of};

use crate::items;
use crate::sort::Sort;
use gv_base::{List, Name, NoMemory, SliceVal};
use gv_trees::{FiniteMap, Item};
use std::alloc::Global;

/// A value of one of the twelve sorts, or `Unit`, which stands for no reply. This project's own.
#[derive(Debug, Drop)]
pub enum Value {
    Word(u64),
    Bool(bool),
    Bytes(Name),
    Words(List<u64>),
    Refs(List<u32>),
    Blocks(List<Name>),
    MapWW(FiniteMap<u64>),
    MapWB(FiniteMap<Name>),
    Ref(u32),
    SliceS(SliceVal),
    Call(u32),
    Name(Name),
    Unit,
}

impl Value {
    /// An equal value. It shares the entries of a map and the bytes of a byte string; lists are copied item by item.
    pub fn copy(&self, alloc: Global) -> Result<Value, NoMemory>
        ensures { IfOk result (λ v. v ≡ self.now) }
    {
        match self {
            Value::Word(n) => Ok(Value::Word(*n)),
            Value::Bool(b) => Ok(Value::Bool(*b)),
            Value::Bytes(x) => Ok(Value::Bytes(x.copy(alloc)?)),
            Value::Words(x) => Ok(Value::Words(copy_list(alloc, x)?)),
            Value::Refs(x) => Ok(Value::Refs(copy_list(alloc, x)?)),
            Value::Blocks(x) => Ok(Value::Blocks(copy_list(alloc, x)?)),
            Value::MapWW(m) => Ok(Value::MapWW(m.copy()?)),
            Value::MapWB(m) => Ok(Value::MapWB(m.copy()?)),
            Value::Ref(r) => Ok(Value::Ref(*r)),
            Value::SliceS(s) => Ok(Value::SliceS(*s)),
            Value::Call(c) => Ok(Value::Call(*c)),
            Value::Name(n) => Ok(Value::Name(n.copy(alloc)?)),
            Value::Unit => Ok(Value::Unit),
        }
    }

    /// Whether the two values are equal.
    pub fn same(&self, other: &Value) -> bool
        ensures { IsTrue result ↔ (self.now ≡ other.now) }
    {
        match self {
            Value::Word(n) => other.is_word(*n),
            Value::Bool(b) => other.is_bool(*b),
            Value::Bytes(x) => other.is_bytes(x),
            Value::Words(x) => other.is_words(x),
            Value::Refs(x) => other.is_refs(x),
            Value::Blocks(x) => other.is_blocks(x),
            Value::MapWW(m) => other.is_words_map(m),
            Value::MapWB(m) => other.is_bytes_map(m),
            Value::Ref(r) => other.is_ref(*r),
            Value::SliceS(s) => other.is_slice(*s),
            Value::Call(c) => other.is_call(*c),
            Value::Name(n) => other.is_name(n),
            Value::Unit => other.is_unit(),
        }
    }

    fn is_word(&self, n: u64) -> bool
        ensures { IsTrue result ↔ (val.Word n ≡ self.now) }
    {
        match self {
            Value::Word(m) => n == *m,
            _ => false,
        }
    }

    fn is_bool(&self, b: bool) -> bool
        ensures { IsTrue result ↔ (val.Bool b ≡ self.now) }
    {
        match self {
            Value::Bool(c) => b == *c,
            _ => false,
        }
    }

    fn is_bytes(&self, x: &Name) -> bool
        ensures { IsTrue result ↔ (val.Bytes x.now ≡ self.now) }
    {
        match self {
            Value::Bytes(y) => x.same(y),
            _ => false,
        }
    }

    fn is_words(&self, x: &List<u64>) -> bool
        ensures { IsTrue result ↔ (val.Words x.now ≡ self.now) }
    {
        match self {
            Value::Words(y) => same_lists(x, y),
            _ => false,
        }
    }

    fn is_refs(&self, x: &List<u32>) -> bool
        ensures { IsTrue result ↔ (val.Refs x.now ≡ self.now) }
    {
        match self {
            Value::Refs(y) => same_lists(x, y),
            _ => false,
        }
    }

    fn is_blocks(&self, x: &List<Name>) -> bool
        ensures { IsTrue result ↔ (val.Blocks x.now ≡ self.now) }
    {
        match self {
            Value::Blocks(y) => same_lists(x, y),
            _ => false,
        }
    }

    fn is_words_map(&self, m: &FiniteMap<u64>) -> bool
        ensures { IsTrue result ↔ (val.MapWW m.now ≡ self.now) }
    {
        match self {
            Value::MapWW(n) => m.same(n),
            _ => false,
        }
    }

    fn is_bytes_map(&self, m: &FiniteMap<Name>) -> bool
        ensures { IsTrue result ↔ (val.MapWB m.now ≡ self.now) }
    {
        match self {
            Value::MapWB(n) => m.same(n),
            _ => false,
        }
    }

    fn is_ref(&self, r: u32) -> bool
        ensures { IsTrue result ↔ (val.Ref r ≡ self.now) }
    {
        match self {
            Value::Ref(q) => r == *q,
            _ => false,
        }
    }

    fn is_slice(&self, s: SliceVal) -> bool
        ensures { IsTrue result ↔ (val.SliceS s ≡ self.now) }
    {
        match self {
            Value::SliceS(t) => {
                s.object == t.object
                    && s.offset == t.offset
                    && s.length == t.length
                    && s.capacity == t.capacity
            }
            _ => false,
        }
    }

    fn is_call(&self, c: u32) -> bool
        ensures { IsTrue result ↔ (val.Call c ≡ self.now) }
    {
        match self {
            Value::Call(d) => c == *d,
            _ => false,
        }
    }

    fn is_name(&self, n: &Name) -> bool
        ensures { IsTrue result ↔ (val.Name n.now ≡ self.now) }
    {
        match self {
            Value::Name(m) => n.same(m),
            _ => false,
        }
    }

    fn is_unit(&self) -> bool
        ensures { IsTrue result ↔ (val.Unit ≡ self.now) }
    {
        match self {
            Value::Unit => true,
            _ => false,
        }
    }

    /// The sort of the value; none of `Unit`.
    pub fn sort(&self) -> Option<Sort>
        ensures { result ≡ sort_of_value self.now }
    {
        match self {
            Value::Word(_) => Some(Sort::Word),
            Value::Bool(_) => Some(Sort::Bool),
            Value::Bytes(_) => Some(Sort::Bytes),
            Value::Words(_) => Some(Sort::Words),
            Value::Refs(_) => Some(Sort::Refs),
            Value::Blocks(_) => Some(Sort::Blocks),
            Value::MapWW(_) => Some(Sort::MapWW),
            Value::MapWB(_) => Some(Sort::MapWB),
            Value::Ref(_) => Some(Sort::Ref),
            Value::SliceS(_) => Some(Sort::SliceS),
            Value::Call(_) => Some(Sort::Call),
            Value::Name(_) => Some(Sort::Name),
            Value::Unit => None,
        }
    }

    /// Whether the value is of this sort.
    pub fn has_sort(&self, sort: Sort) -> bool
        ensures { result ≡ has_sort self.now sort }
    {
        match self {
            Value::Word(_) => sort == Sort::Word,
            Value::Bool(_) => sort == Sort::Bool,
            Value::Bytes(_) => sort == Sort::Bytes,
            Value::Words(_) => sort == Sort::Words,
            Value::Refs(_) => sort == Sort::Refs,
            Value::Blocks(_) => sort == Sort::Blocks,
            Value::MapWW(_) => sort == Sort::MapWW,
            Value::MapWB(_) => sort == Sort::MapWB,
            Value::Ref(_) => sort == Sort::Ref,
            Value::SliceS(_) => sort == Sort::SliceS,
            Value::Call(_) => sort == Sort::Call,
            Value::Name(_) => sort == Sort::Name,
            Value::Unit => false,
        }
    }

    /// The zero of a sort.
    pub fn zero(alloc: Global, sort: Sort) -> Result<Value, NoMemory>
        ensures { IfOk result (λ v. v ≡ zero_of sort) }
    {
        match sort {
            Sort::Word => Ok(Value::Word(0)),
            Sort::Bool => Ok(Value::Bool(false)),
            Sort::Bytes => Ok(Value::Bytes(Name::from_vec(alloc, Vec::new(alloc))?)),
            Sort::Words => Ok(Value::Words(List::new(alloc))),
            Sort::Refs => Ok(Value::Refs(List::new(alloc))),
            Sort::Blocks => Ok(Value::Blocks(List::new(alloc))),
            Sort::MapWW => Ok(Value::MapWW(FiniteMap::new())),
            Sort::MapWB => Ok(Value::MapWB(FiniteMap::new())),
            Sort::Ref => Ok(Value::Ref(0)),
            Sort::SliceS => Ok(Value::SliceS(NIL_SLICE)),
            Sort::Call => Ok(Value::Call(0)),
            Sort::Name => Ok(Value::Name(Name::from_vec(alloc, Vec::new(alloc))?)),
        }
    }
}

impl Item for Value {
    fn copy(&self, alloc: Global) -> Result<Value, NoMemory> {
        Value::copy(self, alloc)
    }

    fn same(&self, other: &Value) -> bool {
        Value::same(self, other)
    }
}

/// The slice of no object.
pub const NIL_SLICE: SliceVal = SliceVal {
    object: 0,
    offset: 0,
    length: 0,
    capacity: 0,
};

/// An equal list.
pub fn copy_list<T: Item>(alloc: Global, list: &List<T>) -> Result<List<T>, NoMemory>
    ensures { IfOk result (λ l. l ≡ list.now) }
{
    Ok(List::from_vec(items::copy_items(alloc, list.as_slice())?))
}

/// Whether the two lists are equal.
pub fn same_lists<T: Item>(first: &List<T>, second: &List<T>) -> bool
    ensures { IsTrue result ↔ (first.now ≡ second.now) }
{
    items::same_items(first.as_slice(), second.as_slice())
}

/// A name and the value that it stands for.
#[derive(Debug, Drop)]
pub struct Binding {
    pub name: Name,
    pub value: Value,
}

/// A valuation: names with values, of which the first counts that has the name and the sort.
/// This project's own.
#[derive(Debug, Drop)]
pub struct Env {
    pub bindings: List<Binding>,
}
