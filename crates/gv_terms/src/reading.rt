//! What is read of a value: what it holds, and the zero where it is of another sort.

ghost use Rattle.std.specs.Prelude.{◌≡◌, IfOk};
ghost use Rattle.gv_terms.specs.Values.{word_of, truth_of, bytes_of, ref_of, slice_of, value_eq};

use crate::value::{NIL_SLICE, Value};
use gv_base::{Name, NoMemory, SliceVal};
use std::alloc::Global;

impl Value {
    /// The word, or 0.
    pub fn word(&self) -> u64
        ensures { result ≡ word_of self.now }
    {
        match self {
            Value::Word(n) => *n,
            _ => 0,
        }
    }

    /// The truth value, or false.
    pub fn truth(&self) -> bool
        ensures { result ≡ truth_of self.now }
    {
        match self {
            Value::Bool(b) => *b,
            _ => false,
        }
    }

    /// The bytes, or none.
    pub fn bytes(&self) -> &[u8]
        ensures { result.now ≡ bytes_of self.now }
    {
        match self {
            Value::Bytes(x) => x.as_slice(),
            _ => &[],
        }
    }

    /// A byte string that holds the bytes together with the value, or the empty one.
    pub fn block(&self, alloc: Global) -> Result<Name, NoMemory>
        ensures { IfOk result (λ x. x ≡ bytes_of self.now) }
    {
        match self {
            Value::Bytes(x) => x.copy(alloc),
            _ => Name::from_vec(alloc, Vec::new(alloc)),
        }
    }

    /// The reference, or nil.
    pub fn reference(&self) -> u32
        ensures { result ≡ ref_of self.now }
    {
        match self {
            Value::Ref(r) => *r,
            _ => 0,
        }
    }

    /// The slice, or that of no object.
    pub fn slice(&self) -> SliceVal
        ensures { result ≡ slice_of self.now }
    {
        match self {
            Value::SliceS(s) => *s,
            _ => NIL_SLICE,
        }
    }

    /// What `==` gives.
    pub fn equals(&self, other: &Value) -> bool
        ensures { result ≡ value_eq self.now other.now }
    {
        self.same(other)
    }
}
