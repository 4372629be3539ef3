//! The faults of the parts.

ghost use Rattle.std.specs.Prelude.{◌≡◌};
ghost use Rattle.gv_gotypes.specs.Files.{file_findings};
ghost use Rattle.gv_gotypes.specs.Scopes.{Source};
ghost use Rattle.gv_gotypes.specs.Trees.{File};
ghost use Rattle.gv_gotyped.specs.First.{first_of};
ghost use Rattle.gv_goparts.specs.Parts.{AreOf};

use gv_gotyped::{Fault, earliest};

/// Of each part of the rules the fault of a package that is told, if it has one: names that are declared again, and imports; the
/// fields of structs; names of methods that are taken; constants; functions and methods; `Recover` and the operations.
#[derive(Clone, Copy, Debug)]
pub struct PartFaults {
    pub names: Option<Fault>,
    pub structs: Option<Fault>,
    pub methods: Option<Fault>,
    pub constants: Option<Fault>,
    pub functions: Option<Fault>,
    pub operations: Option<Fault>,
}

impl PartFaults {
    /// The fault that is told of the whole package.
    pub fn whole(self) -> Option<Fault>
        ensures { (s : Source) (f : File) → AreOf s f self → result ≡ first_of (file_findings s f) }
    {
        let declared = earliest(self.names, earliest(self.structs, self.methods));
        let used = earliest(self.constants, earliest(self.functions, self.operations));
        earliest(declared, used)
    }
}
