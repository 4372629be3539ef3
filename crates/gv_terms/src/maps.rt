//! The operators on maps.

ghost use Rattle.std.specs.Prelude.{◌≡◌, IfOk};
ghost use Rattle.gv_terms.specs.Meaning.{held_at, holds_at, map_with, map_without};

use crate::value::Value;
use gv_base::{Name, NoMemory};
use std::alloc::Global;

impl Value {
    /// `get(m, k)`. It takes time by the logarithm of the number of entries.
    pub fn held_at(&self, alloc: Global, k: u64) -> Result<Value, NoMemory>
        ensures { IfOk result (λ v. v ≡ held_at self.now k) }
    {
        match self {
            Value::MapWW(m) => Ok(Value::Word(m.get(k).copied().unwrap_or(0))),
            Value::MapWB(m) => match m.get(k) {
                Some(item) => Ok(Value::Bytes(item.copy(alloc)?)),
                None => Ok(Value::Bytes(Name::from_vec(alloc, Vec::new(alloc))?)),
            },
            _ => Ok(Value::Unit),
        }
    }

    /// `has(m, k)`, at the same cost.
    pub fn holds_at(&self, k: u64) -> Value
        ensures { result ≡ holds_at self.now k }
    {
        match self {
            Value::MapWW(m) => Value::Bool(m.get(k).is_some()),
            Value::MapWB(m) => Value::Bool(m.get(k).is_some()),
            _ => Value::Unit,
        }
    }

    /// `put(m, k, v)`. It takes time and memory by the logarithm of the number of entries, and shares most of them with
    /// the map.
    pub fn map_with(&self, alloc: Global, k: u64, v: &Value) -> Result<Value, NoMemory>
        ensures { IfOk result (λ w. w ≡ map_with self.now k v.now) }
    {
        match self {
            Value::MapWW(m) => Ok(Value::MapWW(m.with(alloc, k, v.word())?)),
            Value::MapWB(m) => {
                let item = v.block(alloc)?;
                Ok(Value::MapWB(m.with(alloc, k, item)?))
            }
            _ => Ok(Value::Unit),
        }
    }

    /// `del(m, k)`, at the same cost.
    pub fn map_without(&self, alloc: Global, k: u64) -> Result<Value, NoMemory>
        ensures { IfOk result (λ v. v ≡ map_without self.now k) }
    {
        match self {
            Value::MapWW(m) => Ok(Value::MapWW(m.without(alloc, k)?)),
            Value::MapWB(m) => Ok(Value::MapWB(m.without(alloc, k)?)),
            _ => Ok(Value::Unit),
        }
    }
}
