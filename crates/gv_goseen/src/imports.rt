//! The imports of a package, one after another.

ghost use Rattle.std.specs.Prelude.{◌≡◌, List as Seq, [], ◌∷◌, ◌++◌, IfOk, OnOk};
ghost use Rattle.gv_gosyntax.specs.declared.lexeme.Lexeme.{Lexeme as AnyLexeme};
ghost use Rattle.gv_gotypes.specs.Declarations.{import_names};
ghost use Rattle.gv_gotypes.specs.Files.{import_findings};
ghost use Rattle.gv_gotyped.specs.First.{first_of};
ghost use Rattle.gv_goseen.specs.Naming.{source_with};

use crate::naming::twice_unless;
use crate::paths::element_span;
use gv_base::{Code, NoMemory};
use gv_gonames::{NameTable, bytes_between};
use gv_gopackages::library_named;
use gv_gosyntax::Lexeme;
use gv_gotyped::Fault;
use gv_gotypes::Entity;
use std::alloc::Global;

/// Declares an import behind the names before it: the fault that is told of it, where no package of this name may be imported, or
/// one of the names before is spelled alike.
pub fn declare_import(
    alloc: Global,
    text: &[u8],
    names: &mut NameTable,
    path: Lexeme,
) -> Result<Option<Fault>, NoMemory>
    requires { names.old.text ≡ text.now }
    ensures told { IfOk result (λ fault. (tokens : Seq AnyLexeme)
        → fault ≡ first_of (import_findings (source_with text.now tokens) names.old.names (path ∷ []))) }
    ensures declared { OnOk result ((tokens : Seq AnyLexeme)
        → names.new ≡ record { text = text.now; names = names.old.names ++ import_names (source_with text.now tokens) (path ∷ []) }) }
{
    let span = element_span(text, path);
    let name = bytes_between(text, span);
    match library_named(name) {
        None => Ok(Some(Fault {
            start: path.start,
            code: Code::Undeclared,
        })),
        Some(library) => {
            let new = names.add(alloc, span, Entity::Imported(library))?;
            Ok(twice_unless(new, name, path.start))
        }
    }
}
