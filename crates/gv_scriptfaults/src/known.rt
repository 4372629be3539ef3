//! What is known of a specification and a program.

ghost use Rattle.std.specs.Prelude.{◌≡◌, ◌||◌, ◌++◌, ◌∷◌, ℕ, List as Seq, [], map, take, length, Some, slice_get, IfOk, OnOk};
ghost use Rattle.std.specs.List.{list_any};
ghost use Rattle.gv_lang.specs.declared.program.Local.{Local as AnyLocal};
ghost use Rattle.gv_lang.specs.Plain.{program_of};
ghost use Rattle.gv_lang.specs.WellShaped.{method_at as method};
ghost use Rattle.gv_scriptnames.specs.Scopes.{is_field_of};
ghost use Rattle.gv_scriptfaults.specs.Procs.{AreFacts, IsFacts};
ghost use Rattle.gv_scriptfaults.specs.Scoped.{ArePlaces, IsKnown};
ghost use Rattle.gv_scriptfaults.specs.Tables.{Holds, IsTable, has};

use crate::counting::points_of;
use crate::methods::method_at;
use crate::names::{NameSet, Table};
use crate::scoped::{Known, ProcFacts};
use gv_atomic::{Field, Op, Spec};
use gv_base::{List, Name, NoMemory};
use gv_lang::{Local, Proc, Program, Struct};
use std::alloc::Global;

// The name of a cell: a struct's name and a field of it, with a dot between.
fn cell_name(alloc: Global, of: &Struct, field: &Local) -> Result<Name, NoMemory>
    ensures { IfOk result (λ name. name ≡ of.now.name ++ (46 ∷ field.now.name)) }
{
    let mut bytes = Vec::from_slice(alloc, of.name.as_slice())?;
    bytes.push(b'.')?;
    bytes.extend_from_slice(field.name.as_slice())?;
    Name::from_vec(alloc, bytes)
}

// Adds the cells of a struct.
fn add_cells(alloc: Global, cells: &mut NameSet, of: &Struct) -> Result<(), NoMemory>
    ensures { OnOk result ((n : Seq ℕ) → has cells.new n ≡ (has cells.old n || is_field_of n of.now)) }
{
    for field in of.fields.as_slice() {
        cells.add(cell_name(alloc, of, field)?)?;
    }
    Ok(())
}

fn cells_of(alloc: Global, structs: &[Struct]) -> Result<NameSet, NoMemory>
    ensures { IfOk result (λ cells. (n : Seq ℕ) → has cells n ≡ list_any (is_field_of n) structs.now) }
{
    let mut cells = NameSet::new(alloc);
    for of in structs {
        add_cells(alloc, &mut cells, of)?;
    }
    Ok(cells)
}

fn fields_of(alloc: Global, fields: &[Field]) -> Result<NameSet, NoMemory>
    ensures { IfOk result (Holds (map (λ f. f.name) fields.now)) }
{
    let mut names = NameSet::new(alloc);
    for field in fields {
        names.add(field.name.copy(alloc)?)?;
    }
    Ok(names)
}

// The operations with the number of their parameters.
fn ops_of(alloc: Global, ops: &[Op]) -> Result<Table<u64>, NoMemory>
    ensures { IfOk result (IsTable (λ o. o.name) (λ o. length o.params) ops.now) }
{
    let mut table = Table::new(alloc);
    for op in ops {
        table.keep(op.name.copy(alloc)?, op.params.len() as u64)?;
    }
    Ok(table)
}

fn locals_of(alloc: Global, locals: &[Local]) -> Result<NameSet, NoMemory>
    ensures { IfOk result (Holds (map (λ l. l.name) locals.now)) }
{
    let mut names = NameSet::new(alloc);
    for local in locals {
        names.add(local.name.copy(alloc)?)?;
    }
    Ok(names)
}

// The parameters of a procedure, its first locals.
fn params_of(p: &Proc) -> &[Local]
    ensures { result.now ≡ take p.now.params p.now.locals }
{
    let locals = p.locals.as_slice();
    let count = (p.params as usize).min(locals.len());
    &locals[..count]
}

fn facts_of(alloc: Global, p: &Proc) -> Result<ProcFacts, NoMemory>
    ensures { IfOk result (IsFacts p.now) }
{
    Ok(ProcFacts {
        points: points_of(p.body.as_slice()),
        locals: locals_of(alloc, p.locals.as_slice())?,
        params: locals_of(alloc, params_of(p))?,
        results: p.results.len() as u64,
    })
}

fn all_facts(alloc: Global, procs: &[Proc]) -> Result<Vec<ProcFacts>, NoMemory>
    ensures { IfOk result (λ facts. (i : ℕ) → AreFacts (slice_get procs.now i) (slice_get facts.items i)) }
{
    let mut facts = Vec::new(alloc);
    for p in procs {
        facts.push(facts_of(alloc, p)?)?;
    }
    Ok(facts)
}

// The places of procedures by their names.
fn places_of(alloc: Global, procs: &[Proc]) -> Result<Table<usize>, NoMemory>
    ensures { IfOk result (ArePlaces procs.now procs.now) }
{
    let mut table = Table::new(alloc);
    let mut at = 0;
    for p in procs {
        table.keep(p.name.copy(alloc)?, at)?;
        at += 1;
    }
    Ok(table)
}

// The places of operations by the names of their methods.
fn methods_of(alloc: Global, program: &Program) -> Result<Table<usize>, NoMemory>
    ensures { IfOk result (IsTable (method (program_of program.now)) (λ op. op) program.now.ops) }
{
    let mut table = Table::new(alloc);
    for op in program.ops.as_slice() {
        let name = Name::from_slice(alloc, method_at(program, *op))?;
        table.keep(name, *op as usize)?;
    }
    Ok(table)
}

/// What is known of a specification and a program.
pub fn known_of(alloc: Global, spec: &Spec, program: &Program) -> Result<Known, NoMemory>
    ensures { IfOk result (IsKnown spec.now program.now) }
{
    let procs = program.procs.as_slice();
    Ok(Known {
        fields: fields_of(alloc, spec.fields.as_slice())?,
        ops: ops_of(alloc, spec.ops.as_slice())?,
        cells: cells_of(alloc, program.structs.as_slice())?,
        facts: List::from_vec(all_facts(alloc, procs)?),
        procs: places_of(alloc, procs)?,
        methods: methods_of(alloc, program)?,
    })
}
