//! All structs of a package.

ghost use Rattle.std.specs.Prelude.{◌≡◌, [], ◌∷◌, ◌++◌, IfOk, OnOk};
ghost use Rattle.gv_gotypes.specs.Declarations.{structs_from};
ghost use Rattle.gv_gotyped.specs.First.{first_of};
ghost use Rattle.gv_goheads.specs.Heads.{bare, bares};
ghost use Rattle.gv_goparts.specs.Parts.{struct_findings, structs_findings};
ghost use Rattle.gv_goseen.specs.Seen.{env_of};
ghost use Rattle.gv_gostructs.specs.Fields.{all_in_text};

use crate::fields::declare_fields;
use gv_base::NoMemory;
use gv_goheads::Head;
use gv_gonames::{StructTable, span_of};
use gv_goseen::Seen;
use gv_gotyped::{Fault, earliest};
use std::alloc::Global;

/// The structs of a package in order of text, with their fields and without methods, and the fault of them that is told.
#[derive(Drop)]
pub struct StructTables<'a> {
    pub structs: Vec<StructTable<'a>>,
    pub first: Option<Fault>,
}

// The struct of one declaration, if it declares one.
fn declare_struct<'a>(
    alloc: Global,
    seen: &Seen<'a>,
    head: &Head,
    structs: &mut Vec<StructTable<'a>>,
) -> Result<Option<Fault>, NoMemory>
    ensures told { IfOk result (λ fault. fault ≡ first_of (struct_findings (env_of seen.now) (bare head.now))) }
    ensures declared { OnOk result (
        structs.new.items ≡ structs.old.items ++ all_in_text seen.now.text.now (structs_from (env_of seen.now) [] 0 (bare head.now ∷ []))) }
{
    match head {
        Head::Struct(name, groups) => {
            let mut table = StructTable::new(alloc, seen.text, span_of(*name));
            let first = declare_fields(alloc, seen, &mut table, groups.as_slice())?;
            structs.push(table)?;
            Ok(first)
        }
        Head::Const(_) => Ok(None),
        Head::Func(_) => Ok(None),
    }
}

/// The structs that these heads declare, where the names of the package are seen.
pub fn structs_of<'a>(
    alloc: Global,
    seen: &Seen<'a>,
    heads: &[Head],
) -> Result<StructTables<'a>, NoMemory>
    ensures told { IfOk result (λ made. made.first ≡ first_of (structs_findings (env_of seen.now) (bares heads.now))) }
    ensures declared { IfOk result (λ made.
        made.structs.items ≡ all_in_text seen.now.text.now (structs_from (env_of seen.now) [] 0 (bares heads.now))) }
{
    let mut structs = Vec::new(alloc);
    let mut first = None;
    for head in heads {
        let own = declare_struct(alloc, seen, head, &mut structs)?;
        first = earliest(first, own);
    }
    Ok(StructTables { structs, first })
}
