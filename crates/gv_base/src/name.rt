//! Names and other strings of bytes.

ghost use Rattle.std.specs.Prelude.{◌≡◌, length, IfOk};

use crate::answers::NoMemory;
use std::alloc::Global;
use std::hash::{Hash, Hasher};
use std::marker::Model;
use std::rc::Rc;

/// A name or another string of bytes, which contracts see as the list of its bytes.
/// Two names are equal exactly where their bytes are. The bytes never change, and a name and its
/// copies hold them together. This project's own.
#[derive(Debug, Drop)]
pub struct Name {
    bytes: Rc<Vec<u8>>,
}

impl Model for Name {
    ghost use Rattle.std.specs.Prelude.{ℕ, List as Seq};

    ghost Value = { Seq ℕ };

    ghost view = { λ n. n.bytes.value.items };
}

impl Name {
    /// The name of a vector's bytes.
    pub fn from_vec(alloc: Global, bytes: Vec<u8>) -> Result<Name, NoMemory>
        ensures { IfOk result (λ name. name ≡ bytes.items) }
    {
        let bytes = Rc::new(alloc, bytes)?;
        Ok(Name { bytes })
    }

    /// The name of these bytes, which are copied.
    pub fn from_slice(alloc: Global, bytes: &[u8]) -> Result<Name, NoMemory>
        ensures { IfOk result (λ name. name ≡ bytes.now) }
    {
        Name::from_vec(alloc, Vec::from_slice(alloc, bytes)?)
    }

    /// The bytes, in their order.
    pub fn as_slice(&self) -> &[u8]
        ensures { result.now ≡ self.now }
    {
        self.bytes.as_slice()
    }

    /// How many bytes there are.
    pub fn len(&self) -> usize
        ensures { result ≡ length self.now }
    {
        self.bytes.len()
    }

    /// An equal name, which holds the same bytes.
    pub fn copy(&self, _alloc: Global) -> Result<Name, NoMemory>
        ensures { IfOk result (λ name. name ≡ self.now) }
    {
        let bytes = self.bytes.clone()?;
        Ok(Name { bytes })
    }
}

impl PartialEq for Name {
    ghost use Rattle.std.specs.Cmp.Rules.{comparing};
    ghost use Rattle.std.proofs.Common.{rules};
    ghost use Rattle.std.specs.Str.{bytes_eq};

    ghost eq = { bytes_eq };

    ghost laws = { Prim.search (comparing, rules) };

    fn eq(&self, other: &Name) -> bool {
        self.bytes.as_slice() == other.bytes.as_slice()
    }
}

impl Eq for Name {
    ghost use Rattle.std.specs.Cmp.Rules.{comparing};
    ghost use Rattle.std.proofs.Common.{rules};

    ghost laws = { Prim.search (comparing, rules) };
}

impl Hash for Name {
    ghost use Rattle.std.proofs.Common.{ap};
    ghost use Rattle.std.proofs.lemmas.Slice.Eq.{bytes_eq-Decides};
    ghost use Rattle.std.specs.Hash as fed;

    ghost hash_input = { λ a. fed.slice fed.u8 a };

    ghost respects_eq = { λ x y e. ap (fed.slice fed.u8) ((bytes_eq-Decides x y).0 e) };

    fn hash<H: Hasher>(&self, state: &mut H) {
        self.bytes.as_slice().hash(state);
    }
}
