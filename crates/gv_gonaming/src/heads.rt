//! The names that the declarations of a package give it.

ghost use Rattle.std.specs.Prelude.{◌≡◌, List as Seq, ◌++◌, IfOk, OnOk};
ghost use Rattle.gv_gosyntax.specs.declared.lexeme.Lexeme.{Lexeme as AnyLexeme};
ghost use Rattle.gv_gotypes.specs.Declarations.{decl_names, declared_name, no_counts};
ghost use Rattle.gv_gotypes.specs.Files.{name_twice, with_name};
ghost use Rattle.gv_gotyped.specs.First.{first_of};
ghost use Rattle.gv_goheads.specs.Heads.{bare, bares};
ghost use Rattle.gv_goheads.specs.Naming.{counts_of};
ghost use Rattle.gv_goparts.specs.Parts.{names_findings};
ghost use Rattle.gv_goseen.specs.Naming.{source_with};

use gv_base::NoMemory;
use gv_goheads::{Counted, Head};
use gv_gonames::NameTable;
use gv_goseen::declare_name;
use gv_gotyped::{Fault, earliest};
use std::alloc::Global;

// The name of one declaration, behind so many of each kind.
fn declare_head(
    alloc: Global,
    text: &[u8],
    names: &mut NameTable,
    counted: Counted,
    head: &Head,
) -> Result<Option<Fault>, NoMemory>
    requires { names.old.text ≡ text.now }
    ensures told { IfOk result (λ fault. (tokens : Seq AnyLexeme)
        → fault ≡ first_of (name_twice (source_with text.now tokens) names.old.names (declared_name (counts_of counted) (bare head.now)))) }
    ensures declared { OnOk result ((tokens : Seq AnyLexeme)
        → names.new ≡ record { text = text.now; names = with_name (source_with text.now tokens) names.old.names (declared_name (counts_of counted) (bare head.now)) }) }
{
    match counted.naming(head) {
        Some(naming) => declare_name(alloc, text, names, naming.name, naming.entity),
        None => Ok(None),
    }
}

/// Declares the names that declarations give a package, by their heads in order of text, behind those of its imports: the fault of
/// them that is told.
pub fn declare_heads(
    alloc: Global,
    text: &[u8],
    names: &mut NameTable,
    heads: &[Head],
) -> Result<Option<Fault>, NoMemory>
    requires { names.old.text ≡ text.now }
    ensures told { IfOk result (λ fault. (tokens : Seq AnyLexeme)
        → fault ≡ first_of (names_findings (source_with text.now tokens) names.old.names no_counts (bares heads.now))) }
    ensures declared { OnOk result ((tokens : Seq AnyLexeme)
        → names.new ≡ record { text = text.now; names = names.old.names ++ decl_names (source_with text.now tokens) no_counts (bares heads.now) }) }
{
    let mut counted = Counted::none();
    let mut first = None;
    for head in heads {
        let own = declare_head(alloc, text, names, counted, head)?;
        first = earliest(first, own);
        counted = counted.with(head)?;
    }
    Ok(first)
}
