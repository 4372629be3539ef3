//! What a package declares.

ghost use Rattle.std.specs.Prelude.{◌≡◌, List as Seq, [], ◌++◌, map, IfOk, OnOk};
ghost use Rattle.gv_gosyntax.specs.declared.generated.gosyntax_acts.Part.TheVariants.{Decls as PDecls, Imports as PImports};
ghost use Rattle.gv_gosyntax.specs.declared.lexeme.Lexeme.{Lexeme as AnyLexeme};
ghost use Rattle.gv_gosyntax.specs.declared.tree.Decl.{Decl as AnyDecl};
ghost use Rattle.gv_gosyntax.specs.Nodes as tree;
ghost use Rattle.gv_gonodes.specs.Decls.{IsSomeDecls};
ghost use Rattle.gv_gonodes.specs.Imports.{IsSomeImports};
ghost use Rattle.gv_gotypes.specs.Trees.{File, decl_of};
ghost use Rattle.gv_gotypes.specs.Declarations.{all_imports, decl_names, import_names, no_counts};
ghost use Rattle.gv_gotypes.specs.Files.{import_findings};
ghost use Rattle.gv_gotyped.specs.First.{first_of};
ghost use Rattle.gv_goheads.specs.Heads.{bares, head_of};
ghost use Rattle.gv_goparts.specs.Parts.{names_findings};
ghost use Rattle.gv_goseen.specs.Naming.{source_with};
ghost use Rattle.gv_goseen.specs.Seen.{env_of, signature_of, struct_in};
ghost use Rattle.gv_godeclared.specs.Known.{with_declared, IsKnown};

use crate::procedures::procedures_of;
use gv_base::NoMemory;
use gv_goheads::{Head, heads_at, imports_at};
use gv_gomethods::declare_methods;
use gv_gonames::{Locals, NameTable, StructTable};
use gv_gonaming::{declare_heads, declare_imports};
use gv_goseen::{Declared, Procedure, Seen};
use gv_gostructs::{StructTables, structs_of};
use gv_gosyntax::{Lexeme, Node};
use gv_gotokens::TokenTable;
use gv_gotyped::{Fault, earliest};
use std::alloc::Global;

/// What is seen outside of all functions of a package whose constants aren't known yet, and the faults that are told of its names and
/// imports, of its structs, and of the names of its methods.
#[derive(Drop)]
pub struct Known<'a> {
    pub seen: Seen<'a>,
    pub names: Option<Fault>,
    pub structs: Option<Fault>,
    pub methods: Option<Fault>,
}

// The names of a package, with the fault of them that is told.
fn declare_names(
    alloc: Global,
    text: &[u8],
    names: &mut NameTable,
    paths: &[Lexeme],
    heads: &[Head],
) -> Result<Option<Fault>, NoMemory>
    requires text { names.old.text ≡ text.now }
    requires none { names.old.names ≡ [] }
    ensures told { IfOk result (λ fault. (tokens : Seq AnyLexeme) → let s = source_with text.now tokens in
        fault ≡ first_of (import_findings s [] paths.now ++ names_findings s (import_names s paths.now) no_counts (bares heads.now))) }
    ensures declared { OnOk result ((tokens : Seq AnyLexeme) → let s = source_with text.now tokens in
        names.new ≡ record { text = text.now; names = import_names s paths.now ++ decl_names s no_counts (bares heads.now) }) }
{
    let imports = declare_imports(alloc, text, names, paths)?;
    let declared = declare_heads(alloc, text, names, heads)?;
    Ok(earliest(imports, declared))
}

// What is seen where only these names are declared.
fn seen_with<'a>(
    alloc: Global,
    text: &'a [u8],
    tokens: TokenTable<'a>,
    names: NameTable<'a>,
) -> Seen<'a>
    ensures text { result.text.now ≡ text.now }
    ensures env { env_of result ≡ record {
      source = source_with text.now tokens.entry;
      declared = record { names = names.entry.names; structs = []; procedures = []; constants = [] };
      entries = [];
      results = [];
    } }
    ensures outer { result.locals.outer ≡ [] }
{
    Seen {
        text,
        tokens,
        declared: Declared {
            names,
            structs: Vec::new(alloc),
            procedures: Vec::new(alloc),
            constants: Vec::new(alloc),
        },
        locals: Locals::new(alloc),
    }
}

// The same with these structs and procedures.
fn filled<'a>(seen: Seen<'a>, structs: Vec<StructTable<'a>>, procedures: Vec<Procedure>) -> Seen<'a>
    ensures env { env_of result ≡ with_declared (env_of seen.entry) (map struct_in structs.entry.items) (map signature_of procedures.items) }
    ensures outer { result.locals.outer ≡ seen.entry.locals.outer }
{
    let Seen {
        text,
        tokens,
        declared,
        locals,
    } = seen;
    let Declared {
        names,
        structs: _structs,
        procedures: _procedures,
        constants,
    } = declared;
    Seen {
        text,
        tokens,
        declared: Declared {
            names,
            structs,
            procedures,
            constants,
        },
        locals,
    }
}

/// What a package declares whose imports have these paths and whose declarations these heads.
pub fn known_of<'a>(
    alloc: Global,
    text: &'a [u8],
    tokens: TokenTable<'a>,
    paths: &[Lexeme],
    heads: &[Head],
) -> Result<Known<'a>, NoMemory>
    ensures { IfOk result (λ known. (f : File) → all_imports f.imports ≡ paths.now → map head_of f.decls ≡ heads.now
        → IsKnown (source_with text.now tokens.entry) f known) }
{
    let mut names = NameTable::new(alloc, text);
    let first = declare_names(alloc, text, &mut names, paths, heads)?;
    let seen = seen_with(alloc, text, tokens, names);
    let made = structs_of(alloc, &seen, heads)?;
    let StructTables {
        mut structs,
        first: in_structs,
    } = made;
    let methods = declare_methods(alloc, &seen, heads, &mut structs)?;
    let procedures = procedures_of(alloc, &seen, heads)?;
    Ok(Known {
        seen: filled(seen, structs, procedures),
        names: first,
        structs: in_structs,
        methods,
    })
}

/// What a package declares, by the nodes of its imports and of its declarations.
pub fn known_at<'a>(
    alloc: Global,
    text: &'a [u8],
    tokens: TokenTable<'a>,
    nodes: &[Node],
    imports: usize,
    decls: usize,
) -> Result<Known<'a>, NoMemory>
    requires formed { tree.IsFormed nodes.now }
    requires imports { IsSomeImports nodes.now imports }
    requires decls { IsSomeDecls nodes.now decls }
    ensures { (tss : Seq (Seq AnyLexeme)) (ds : Seq AnyDecl) → tree.IsPartAt nodes.now imports (PImports tss) → tree.IsPartAt nodes.now decls (PDecls ds)
        → IfOk result (λ known. (f : File) → f.imports ≡ tss → f.decls ≡ map decl_of ds → IsKnown (source_with text.now tokens.entry) f known) }
{
    let paths = imports_at(alloc, nodes, imports)?;
    let heads = heads_at(alloc, nodes, decls)?;
    let known = known_of(alloc, text, tokens, &paths, &heads)?;
    Ok(known)
}
