//! What functions and methods take and give.

ghost use Rattle.std.specs.Prelude.{◌≡◌, [], ◌∷◌, ◌++◌, map, IfOk, OnOk};
ghost use Rattle.gv_gotypes.specs.Declarations.{group_kinds, param_kinds, signatures};
ghost use Rattle.gv_gotypes.specs.Kinds.{kind_of};
ghost use Rattle.gv_gotypes.specs.Scopes.{Env};
ghost use Rattle.gv_goheads.specs.Heads.{bare, bares};
ghost use Rattle.gv_goseen.specs.Seen.{env_of, signature_of};

use gv_base::NoMemory;
use gv_goheads::Head;
use gv_goseen::{Procedure, Seen};
use gv_gosyntax::{GoType as Written, Group, Lexeme};
use gv_gowalk::written_at;
use gv_operands::GoType;
use std::alloc::Global;

// One type for each name.
fn push_kinds(
    kinds: &mut Vec<Option<GoType>>,
    names: &[Lexeme],
    kind: Option<GoType>,
) -> Result<(), NoMemory>
    ensures { OnOk result ((env : Env) → kinds.new.items ≡ kinds.old.items ++ group_kinds env names.now kind) }
{
    for name in names {
        let _own = *name;
        kinds.push(kind)?;
    }
    Ok(())
}

fn param_kinds(
    alloc: Global,
    seen: &Seen<'_>,
    groups: &[Group],
) -> Result<Vec<Option<GoType>>, NoMemory>
    ensures { IfOk result (λ kinds. kinds.items ≡ param_kinds (env_of seen.now) groups.now) }
{
    let mut kinds = Vec::new(alloc);
    for group in groups {
        let kind = written_at(seen, group.kind).kind;
        push_kinds(&mut kinds, group.names.as_slice(), kind)?;
    }
    Ok(kinds)
}

fn result_kinds(
    alloc: Global,
    seen: &Seen<'_>,
    types: &[Written],
) -> Result<Vec<Option<GoType>>, NoMemory>
    ensures { IfOk result (λ kinds. kinds.items ≡ map (kind_of (env_of seen.now)) types.now) }
{
    let mut kinds = Vec::new(alloc);
    for written in types {
        kinds.push(written_at(seen, *written).kind)?;
    }
    Ok(kinds)
}

// What one declaration takes and gives, if it declares a function or a method.
fn push_procedure(
    alloc: Global,
    seen: &Seen<'_>,
    head: &Head,
    procedures: &mut Vec<Procedure>,
) -> Result<(), NoMemory>
    ensures { OnOk result (
        map signature_of procedures.new.items ≡ map signature_of procedures.old.items ++ signatures (env_of seen.now) (bare head.now ∷ [])) }
{
    match head {
        Head::Func(func) => {
            let params = param_kinds(alloc, seen, func.params.as_slice())?;
            let results = result_kinds(alloc, seen, func.results.as_slice())?;
            procedures.push(Procedure { params, results })?;
            Ok(())
        }
        Head::Struct(_, _) => Ok(()),
        Head::Const(_) => Ok(()),
    }
}

/// What each function and method takes and gives that these heads declare, where the names of the package are seen.
pub(crate) fn procedures_of(
    alloc: Global,
    seen: &Seen<'_>,
    heads: &[Head],
) -> Result<Vec<Procedure>, NoMemory>
    ensures { IfOk result (λ procedures. map signature_of procedures.items ≡ signatures (env_of seen.now) (bares heads.now)) }
{
    let mut procedures = Vec::new(alloc);
    for head in heads {
        push_procedure(alloc, seen, head, &mut procedures)?;
    }
    Ok(procedures)
}
