//! The value of an operator over values.

ghost use Rattle.std.specs.Prelude.{◌≡◌, ◌%◌, [], ◌∷◌, IfOk, replicate};
ghost use Rattle.gv_terms.specs.Sorts.{arity, IsOnWords};
ghost use Rattle.gv_terms.specs.declared.value.Value.TheVariants as val;
ghost use Rattle.gv_terms.specs.Values.{word_of, bytes_of};
ghost use Rattle.gv_terms.specs.Meaning.{operate, slice_between};

use crate::operator::Operator;
use crate::value::{NIL_SLICE, Value};
use crate::{items, words};
use gv_base::{List, Name, NoMemory, SliceVal};
use gv_trees::FiniteMap;
use std::alloc::Global;

impl Operator {
    /// The value of an operator without parts.
    pub fn constant(self) -> Value
        requires { arity self ≡ 0 }
        ensures { result ≡ operate self [] }
    {
        match self {
            Operator::Number(n) => Value::Word(n),
            Operator::True => Value::Bool(true),
            Operator::False => Value::Bool(false),
            Operator::Nil => Value::Ref(0),
            Operator::NilSlice => Value::SliceS(NIL_SLICE),
            Operator::NoCall => Value::Call(0),
            Operator::MapWW => Value::MapWW(FiniteMap::new()),
            Operator::MapWB => Value::MapWB(FiniteMap::new()),
            _ => Value::Unit,
        }
    }

    /// The value over one part.
    pub fn over_one(self, alloc: Global, a: &Value) -> Result<Value, NoMemory>
        requires { arity self ≡ 1 }
        ensures { IfOk result (λ v. v ≡ operate self (a.now ∷ [])) }
    {
        match self {
            Operator::Not => Ok(Value::Bool(!a.truth())),
            Operator::Complement => Ok(Value::Word(words::complement(a.word()))),
            Operator::Bytes(k) => Ok(Value::Bytes(bytes_of_copies(alloc, k, a)?)),
            Operator::Words(k) => Ok(Value::Words(List::from_vec(items::copies(
                alloc,
                k,
                &a.word(),
            )?))),
            Operator::Refs(k) => Ok(Value::Refs(List::from_vec(items::copies(
                alloc,
                k,
                &a.reference(),
            )?))),
            Operator::Blocks(k) => Ok(Value::Blocks(blocks_of_copies(alloc, k, a)?)),
            Operator::Len => Ok(a.length_of()),
            Operator::IsZero => Ok(a.all_zero()),
            Operator::Le64 => Ok(Value::Bytes(Name::from_slice(alloc, &words::le64(a.word()))?)),
            Operator::Un64 => Ok(Value::Word(words::un64(a.bytes()))),
            Operator::SLen => Ok(Value::Word(a.slice().length)),
            Operator::SCap => Ok(Value::Word(a.slice().capacity)),
            _ => Ok(Value::Unit),
        }
    }

    /// The value over two parts.
    pub fn over_two(self, alloc: Global, a: &Value, b: &Value) -> Result<Value, NoMemory>
        requires { arity self ≡ 2 }
        ensures { IfOk result (λ v. v ≡ operate self (a.now ∷ b.now ∷ [])) }
    {
        match self {
            Operator::Or => Ok(Value::Bool(a.truth() || b.truth())),
            Operator::And => Ok(Value::Bool(a.truth() && b.truth())),
            Operator::Imp => Ok(Value::Bool(!a.truth() || b.truth())),
            Operator::Equal => Ok(Value::Bool(a.equals(b))),
            Operator::Less => Ok(Value::Bool(a.word() < b.word())),
            Operator::AtMost => Ok(Value::Bool(a.word() <= b.word())),
            Operator::Fits => Ok(Value::Bool(words::fits(a.word(), b.word()))),
            Operator::At => a.item_at(alloc, b.word()),
            Operator::Cat => a.both_lists(alloc, b),
            Operator::Put64 => {
                let bytes = words::put64(alloc, a.bytes(), b.word())?;
                Ok(Value::Bytes(Name::from_vec(alloc, bytes)?))
            }
            Operator::Get => a.held_at(alloc, b.word()),
            Operator::Has => Ok(a.holds_at(b.word())),
            Operator::Del => a.map_without(alloc, b.word()),
            Operator::Plus
            | Operator::Minus
            | Operator::BitOr
            | Operator::BitXor
            | Operator::Times
            | Operator::Divide
            | Operator::Remainder
            | Operator::ShiftLeft
            | Operator::ShiftRight
            | Operator::BitAnd
            | Operator::BitClear => Ok(self.over_words(a.word(), b.word())),
            _ => Ok(Value::Unit),
        }
    }

    // The value over two words of an operator that gives a word.
    fn over_words(self, a: u64, b: u64) -> Value
        requires { IsOnWords self }
        ensures { result ≡ operate self (val.Word a ∷ val.Word b ∷ []) }
    {
        match self {
            Operator::Plus => Value::Word(a.wrapping_add(b)),
            Operator::Minus => Value::Word(a.wrapping_sub(b)),
            Operator::BitOr => Value::Word(a | b),
            Operator::BitXor => Value::Word(a ^ b),
            Operator::Times => Value::Word(a.wrapping_mul(b)),
            Operator::Divide => Value::Word(words::quotient(a, b)),
            Operator::Remainder => Value::Word(words::remainder(a, b)),
            Operator::ShiftLeft => Value::Word(words::shifted_left(a, b)),
            Operator::ShiftRight => Value::Word(words::shifted_right(a, b)),
            Operator::BitAnd => Value::Word(a & b),
            Operator::BitClear => Value::Word(a & words::complement(b)),
            _ => Value::Unit,
        }
    }

    /// The value over three parts.
    pub fn over_three(
        self,
        alloc: Global,
        a: &Value,
        b: &Value,
        c: &Value,
    ) -> Result<Value, NoMemory>
        requires { arity self ≡ 3 }
        ensures { IfOk result (λ v. v ≡ operate self (a.now ∷ b.now ∷ c.now ∷ [])) }
    {
        match self {
            Operator::If => {
                if a.truth() {
                    b.copy(alloc)
                } else {
                    c.copy(alloc)
                }
            }
            Operator::Upd => a.with_item(alloc, b.word(), c),
            Operator::Sub => a.items_between(alloc, b.word(), c.word()),
            Operator::Put => a.map_with(alloc, b.word(), c),
            Operator::Sl => Ok(Value::SliceS(slice_between(a.slice(), b.word(), c.word()))),
            _ => Ok(Value::Unit),
        }
    }
}

// The slice of the cells from one to before another, or that of no object where there are no such cells.
fn slice_between(s: SliceVal, from: u64, to: u64) -> SliceVal
    ensures { result ≡ slice_between s from to }
{
    if from <= to && to <= s.capacity {
        SliceVal {
            object: s.object,
            offset: s.offset.wrapping_add(from),
            length: to - from,
            capacity: s.capacity - from,
        }
    } else {
        NIL_SLICE
    }
}

// So many copies of the word modulo 256.
fn bytes_of_copies(alloc: Global, k: u64, a: &Value) -> Result<Name, NoMemory>
    ensures { IfOk result (λ x. x ≡ replicate k (word_of a.now % 256)) }
{
    let byte = (a.word() % 256) as u8;
    Name::from_vec(alloc, items::copies(alloc, k, &byte)?)
}

// So many copies of the byte string, which hold its bytes together.
fn blocks_of_copies(alloc: Global, k: u64, a: &Value) -> Result<List<Name>, NoMemory>
    ensures { IfOk result (λ x. x ≡ replicate k (bytes_of a.now)) }
{
    let block = a.block(alloc)?;
    Ok(List::from_vec(items::copies(alloc, k, &block)?))
}
