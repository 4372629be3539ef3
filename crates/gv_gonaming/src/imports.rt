//! The imports of a package.

ghost use Rattle.std.specs.Prelude.{◌≡◌, List as Seq, ◌++◌, IfOk, OnOk};
ghost use Rattle.gv_gosyntax.specs.declared.lexeme.Lexeme.{Lexeme as AnyLexeme};
ghost use Rattle.gv_gotypes.specs.Declarations.{import_names};
ghost use Rattle.gv_gotypes.specs.Files.{import_findings};
ghost use Rattle.gv_gotyped.specs.First.{first_of};
ghost use Rattle.gv_goseen.specs.Naming.{source_with};

use gv_base::NoMemory;
use gv_gonames::NameTable;
use gv_goseen::declare_import;
use gv_gosyntax::Lexeme;
use gv_gotyped::{Fault, earliest};
use std::alloc::Global;

/// Declares the imports of a package, by their paths in order of text, behind the names before them: the fault of them that is told.
pub fn declare_imports(
    alloc: Global,
    text: &[u8],
    names: &mut NameTable,
    paths: &[Lexeme],
) -> Result<Option<Fault>, NoMemory>
    requires { names.old.text ≡ text.now }
    ensures told { IfOk result (λ fault. (tokens : Seq AnyLexeme)
        → fault ≡ first_of (import_findings (source_with text.now tokens) names.old.names paths.now)) }
    ensures declared { OnOk result ((tokens : Seq AnyLexeme)
        → names.new ≡ record { text = text.now; names = names.old.names ++ import_names (source_with text.now tokens) paths.now }) }
{
    let mut first = None;
    for path in paths {
        let own = declare_import(alloc, text, names, *path)?;
        first = earliest(first, own);
    }
    Ok(first)
}
