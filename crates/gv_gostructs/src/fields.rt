//! The fields of one struct.

ghost use Rattle.std.specs.Prelude.{◌≡◌, ℕ, List as Seq, [], ◌++◌, IfOk, OnOk};
ghost use Rattle.gv_gotypes.specs.Declarations.{all_fields, group_fields};
ghost use Rattle.gv_gotypes.specs.Files.{all_names_of, fields_twice, groups_findings};
ghost use Rattle.gv_gotyped.specs.First.{first_of};
ghost use Rattle.gv_goseen.specs.Seen.{env_of, source_of};
ghost use Rattle.gv_gostructs.specs.Fields.{with_fields, AreBorne};

use gv_base::NoMemory;
use gv_gonames::StructTable;
use gv_goseen::{Seen, declare_field};
use gv_gosyntax::{Group, Lexeme};
use gv_gotyped::{Fault, earliest};
use gv_gowalk::written_at;
use gv_operands::GoType;
use std::alloc::Global;

// Names of one type.
fn declare_group(
    alloc: Global,
    seen: &Seen<'_>,
    table: &mut StructTable,
    names: &[Lexeme],
    kind: Option<GoType>,
) -> Result<Option<Fault>, NoMemory>
    requires text { table.old.text ≡ seen.now.text.now }
    requires alone { table.old.struct.methods ≡ [] }
    ensures told { IfOk result (λ fault. (before : Seq (Seq ℕ))
        → AreBorne before table.old.struct.fields → fault ≡ first_of (fields_twice (source_of seen.now) before names.now)) }
    ensures declared { OnOk result (table.new ≡ with_fields table.old (group_fields (env_of seen.now) names.now kind)) }
{
    let mut first = None;
    for name in names {
        let own = declare_field(alloc, seen.text, table, *name, kind)?;
        first = earliest(first, own);
    }
    Ok(first)
}

/// Declares the fields of a struct without any, by their groups in order of text: the fault of them that is told, of their types
/// and of names that are declared again.
pub(crate) fn declare_fields(
    alloc: Global,
    seen: &Seen<'_>,
    table: &mut StructTable,
    groups: &[Group],
) -> Result<Option<Fault>, NoMemory>
    requires text { table.old.text ≡ seen.now.text.now }
    requires alone { table.old.struct.methods ≡ [] }
    requires bare { table.old.struct.fields ≡ [] }
    ensures told { IfOk result (λ fault.
        fault ≡ first_of (groups_findings (env_of seen.now) groups.now ++ fields_twice (source_of seen.now) [] (all_names_of groups.now))) }
    ensures declared { OnOk result (table.new ≡ with_fields table.old (all_fields (env_of seen.now) groups.now)) }
{
    let mut first = None;
    for group in groups {
        let written = written_at(seen, group.kind);
        let again = declare_group(alloc, seen, table, group.names.as_slice(), written.kind)?;
        first = earliest(first, earliest(written.first, again));
    }
    Ok(first)
}
