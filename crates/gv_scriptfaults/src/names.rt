//! Sets and tables of names.

ghost use Rattle.std.specs.Prelude.{◌≡◌, ◌||◌, ◌∷◌, ◌++◌, ℕ, List as Seq, [], None, IfOk, OnOk};
ghost use Rattle.std.specs.Str.{bytes_eq};
ghost use Rattle.gv_scriptnames.specs.Names.{name_in};
ghost use Rattle.gv_scriptfaults.specs.Tables.{Holds, entry, has, kept};

use gv_base::{Name, NoMemory};
use gv_termread::{SeenToken, bytes_from};
use std::alloc::Global;
use std::collections::{HashMap, HashSet};

/// The name that a token is.
pub fn name_of(alloc: Global, text: &[u8], t: SeenToken) -> Result<Name, NoMemory>
    ensures { IfOk result (λ name. name ≡ name_in text.now t) }
{
    Name::from_slice(alloc, bytes_from(text, t.start, t.end))
}

/// A set of names.
#[derive(Drop)]
pub struct NameSet {
    pub names: HashSet<Name>,
}

impl NameSet {
    /// The empty set.
    pub fn new(alloc: Global) -> NameSet
        ensures { Holds [] result }
    {
        NameSet {
            names: HashSet::new(alloc),
        }
    }

    /// Whether a name is in it.
    pub fn has(&self, name: &Name) -> bool
        ensures { result ≡ has self.now name.now }
    {
        self.names.contains(name)
    }

    /// Adds a name.
    pub fn add(&mut self, name: Name) -> Result<(), NoMemory>
        ensures holds { OnOk result ((names : Seq (Seq ℕ)) → Holds names self.old → Holds (names ++ name ∷ []) self.new) }
        ensures one { OnOk result ((n : Seq ℕ) → has self.new n ≡ (has self.old n || bytes_eq n name)) }
    {
        self.names.insert(name)?;
        Ok(())
    }
}

/// Values by names.
#[derive(Drop)]
pub struct Table<V> {
    pub entries: HashMap<Name, V>,
}

impl<V: Copy> Table<V> {
    /// The empty table.
    pub fn new(alloc: Global) -> Table<V>
        ensures { (n : Seq ℕ) → entry result n ≡ None }
    {
        Table {
            entries: HashMap::new(alloc),
        }
    }

    /// The value of a name.
    pub fn get(&self, name: &Name) -> Option<V>
        ensures { result ≡ entry self.now name.now }
    {
        self.entries.get(name).copied()
    }

    /// Adds a name with its value, unless it has one.
    pub fn keep(&mut self, name: Name, value: V) -> Result<(), NoMemory>
        ensures { OnOk result ((n : Seq ℕ) → entry self.new n ≡ kept (entry self.old n) (bytes_eq name n) value) }
    {
        if self.entries.contains_key(&name) {
            return Ok(());
        }
        self.entries.insert(name, value)?;
        Ok(())
    }
}
