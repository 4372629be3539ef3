//! Methods, each with its struct.

ghost use Rattle.std.specs.Prelude.{◌≡◌, [], Some, slice_range, IfOk, OnOk};
ghost use Rattle.gv_gotypes.specs.Declarations as declarations;
ghost use Rattle.gv_gotypes.specs.Declarations.{no_counts, struct_of_method, structs_from};
ghost use Rattle.gv_gotypes.specs.Scopes.{Package};
ghost use Rattle.gv_gotyped.specs.First.{first_of};
ghost use Rattle.gv_goheads.specs.Heads.{bare, bare_func, bares};
ghost use Rattle.gv_goparts.specs.Parts.{methods_findings};
ghost use Rattle.gv_goseen.specs.Naming.{span_by};
ghost use Rattle.gv_goseen.specs.Seen.{env_of};
ghost use Rattle.gv_gostructs.specs.Fields.{all_in_text};
ghost use Rattle.gv_gomethods.specs.Methods.{head_twice, method_twice_of, struct_of_receiver, with_head, with_method_of, with_structs, AreGrowing, AreIn};

use gv_base::NoMemory;
use gv_goheads::{Counted, FuncHead, Head};
use gv_gonames::StructTable;
use gv_goseen::{Seen, declare_method};
use gv_gosyntax::{Lexeme, Receiver};
use gv_gotyped::{Fault, earliest};
use gv_gotypes::Entity;
use gv_gowalk::entity_of;
use std::alloc::Global;

fn struct_number(entity: Option<Entity>) -> Option<u32>
    ensures { result ≡ declarations.struct_number entity }
{
    match entity {
        Some(Entity::StructOf(number)) => Some(number),
        _ => None,
    }
}

fn number_of(seen: &Seen<'_>, receiver: Option<Receiver>) -> Option<u32>
    ensures { result ≡ struct_of_receiver (env_of seen.now) receiver }
{
    match receiver {
        Some(receiver) => struct_number(entity_of(seen, receiver.of)),
        None => None,
    }
}

/// The number of the struct that a function is a method of, if it is one.
pub fn receiver_struct(seen: &Seen<'_>, func: &FuncHead) -> Option<u32>
    ensures { result ≡ struct_of_method (env_of seen.now) (bare_func func.now) }
{
    number_of(seen, func.receiver)
}

// One method, of the struct with a number.
fn declare_at(
    alloc: Global,
    text: &[u8],
    structs: &mut Vec<StructTable<'_>>,
    number: u32,
    name: Lexeme,
    procedure: u32,
) -> Result<Option<Fault>, NoMemory>
    requires { AreIn text.now structs.old.items }
    ensures told { IfOk result (λ fault. (p : Package) → AreGrowing p procedure structs.old.items
        → fault ≡ first_of (method_twice_of p procedure (slice_range text.now name.start name.end) (Some number) name.start)) }
    ensures declared { OnOk result (structs.new.items ≡ with_method_of (Some number) (span_by name) procedure 0 structs.old.items) }
{
    let at = number as usize;
    if at < structs.len() {
        let own = declare_method(alloc, text, &mut structs[at], name, procedure)?;
        Ok(own)
    } else {
        Ok(None)
    }
}

// One method, of the struct with a number, if it has one.
fn declare_one(
    alloc: Global,
    text: &[u8],
    structs: &mut Vec<StructTable<'_>>,
    number: Option<u32>,
    name: Lexeme,
    procedure: u32,
) -> Result<Option<Fault>, NoMemory>
    requires { AreIn text.now structs.old.items }
    ensures told { IfOk result (λ fault. (p : Package) → AreGrowing p procedure structs.old.items
        → fault ≡ first_of (method_twice_of p procedure (slice_range text.now name.start name.end) number name.start)) }
    ensures declared { OnOk result (structs.new.items ≡ with_method_of number (span_by name) procedure 0 structs.old.items) }
{
    match number {
        Some(number) => declare_at(alloc, text, structs, number, name, procedure),
        None => Ok(None),
    }
}

// The method of one declaration, if it declares one, with its number among the procedures.
fn declare_head(
    alloc: Global,
    seen: &Seen<'_>,
    head: &Head,
    procedure: u32,
    structs: &mut Vec<StructTable<'_>>,
) -> Result<Option<Fault>, NoMemory>
    requires { AreIn seen.now.text.now structs.old.items }
    ensures told { IfOk result (λ fault. (p : Package) → AreGrowing p procedure structs.old.items
        → fault ≡ first_of (head_twice (env_of seen.now) p procedure (bare head.now))) }
    ensures declared { OnOk result (structs.new.items ≡ with_head (env_of seen.now) procedure (bare head.now) structs.old.items) }
{
    match head {
        Head::Func(func) => {
            let number = receiver_struct(seen, func);
            let own = declare_one(alloc, seen.text, structs, number, func.name, procedure)?;
            Ok(own)
        }
        Head::Struct(_, _) => Ok(None),
        Head::Const(_) => Ok(None),
    }
}

/// Adds to the structs of a package, which have their fields, the methods that these heads declare, where the names of the package
/// are seen: the fault that is told of names that a struct has already.
pub fn declare_methods(
    alloc: Global,
    seen: &Seen<'_>,
    heads: &[Head],
    structs: &mut Vec<StructTable<'_>>,
) -> Result<Option<Fault>, NoMemory>
    requires { structs.old.items ≡ all_in_text seen.now.text.now (structs_from (env_of seen.now) [] 0 (bares heads.now)) }
    ensures told { let all = structs_from (env_of seen.now) (bares heads.now) 0 (bares heads.now) in
        IfOk result (λ fault. fault ≡ first_of (methods_findings (with_structs (env_of seen.now) all) no_counts (bares heads.now))) }
    ensures declared { let all = structs_from (env_of seen.now) (bares heads.now) 0 (bares heads.now) in
        OnOk result (structs.new.items ≡ all_in_text seen.now.text.now all) }
{
    let mut counted = Counted::none();
    let mut first = None;
    for head in heads {
        let own = declare_head(alloc, seen, head, counted.procedures, structs)?;
        first = earliest(first, own);
        counted = counted.with(head)?;
    }
    Ok(first)
}
