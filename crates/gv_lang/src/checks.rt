//! Programs of a good shape.

ghost use Rattle.std.specs.Prelude.{◌≡◌, slice_get, map};
ghost use Rattle.std.specs.List.{list_all, list_any};
ghost use Rattle.std.specs.Str.{bytes_eq};
ghost use Rattle.gv_lang.specs.Plain.{proc_of, program_of};
ghost use Rattle.gv_lang.specs.Kinds.{kinds};
ghost use Rattle.gv_lang.specs.WellShaped.{is_fine_proc, is_ref, is_recovery, is_operation, method_of, method_at, are_distinct, are_few, is_well_shaped};

use crate::counting::left_after_all;
use crate::kinds::{params, same_kind};
use crate::program::{Local, LocalKind, Proc, Program};
use crate::shape::is_shaped;
use crate::typing::Scope;

fn is_fine_proc(program: &Program, p: &Proc) -> bool
    ensures { result ≡ is_fine_proc (program_of program.now) (proc_of p.now) }
{
    let locals = p.locals.as_slice();
    let body = p.body.as_slice();
    let scope = Scope {
        program,
        locals,
        results: p.results.as_slice(),
    };
    p.params as usize <= locals.len() && scope.is_typed_block(body) && is_shaped(body)
}

fn are_fine_procs(program: &Program, procs: &[Proc]) -> bool
    ensures { result ≡ list_all (is_fine_proc (program_of program.now)) (map proc_of procs.now) }
{
    let mut rest = procs;
    while let [first, tail @ ..] = rest {
        if !is_fine_proc(program, first) {
            return false;
        }
        rest = tail;
    }
    true
}

// Whether the first kind is a reference.
fn is_ref(results: &[LocalKind]) -> bool
    ensures { result ≡ is_ref results.now }
{
    match results {
        [] => false,
        [first, _rest @ ..] => same_kind(*first, LocalKind::Ref),
    }
}

fn is_ref_param(params: &[Local]) -> bool
    ensures { result ≡ is_ref (kinds params.now) }
{
    match params {
        [] => false,
        [first, _rest @ ..] => same_kind(first.kind, LocalKind::Ref),
    }
}

fn is_recovery(program: &Program) -> bool
    ensures { result ≡ is_recovery (slice_get (program_of program.now).procs program.now.recover) }
{
    match program.procs.get(program.recover as usize) {
        None => false,
        Some(p) => p.params == 0 && p.results.len() == 1 && is_ref(p.results.as_slice()),
    }
}

fn is_operation(program: &Program, op: u32) -> bool
    ensures { result ≡ is_operation (slice_get (program_of program.now).procs op) }
{
    match program.procs.get(op as usize) {
        None => false,
        Some(p) => is_ref_param(params(p)) && p.results.len() <= 1,
    }
}

fn are_operations(program: &Program, ops: &[u32]) -> bool
    ensures { result ≡ list_all (λ op. is_operation (slice_get (program_of program.now).procs op)) ops.now }
{
    let mut rest = ops;
    while let [first, tail @ ..] = rest {
        if !is_operation(program, *first) {
            return false;
        }
        rest = tail;
    }
    true
}

// The name of a procedure's method: what follows the first dot, or all of it where there is none.
fn method_of(name: &[u8]) -> &[u8]
    ensures { result.now ≡ method_of name.now }
{
    let mut rest = name;
    while let [first, tail @ ..] = rest {
        if *first == b'.' {
            return tail;
        }
        rest = tail;
    }
    name
}

fn method_at(program: &Program, op: u32) -> &[u8]
    ensures { result.now ≡ method_at (program_of program.now) op }
{
    match program.procs.get(op as usize) {
        None => &[],
        Some(p) => method_of(p.name.as_slice()),
    }
}

// Whether one of the operations has this method name.
fn is_among(program: &Program, name: &[u8], ops: &[u32]) -> bool
    ensures { result ≡ list_any (bytes_eq name.now) (map (method_at (program_of program.now)) ops.now) }
{
    let mut rest = ops;
    while let [first, tail @ ..] = rest {
        if name == method_at(program, *first) {
            return true;
        }
        rest = tail;
    }
    false
}

// Whether no two operations have one method name; without memory of the names before it compares all pairs.
fn are_distinct(program: &Program, ops: &[u32]) -> bool
    ensures { result ≡ are_distinct (map (method_at (program_of program.now)) ops.now) }
{
    let mut rest = ops;
    while let [first, tail @ ..] = rest {
        if is_among(program, method_at(program, *first), tail) {
            return false;
        }
        rest = tail;
    }
    true
}

// Whether there are fewer than 2^32 - 1 structs, procedures and commands.
fn are_few(program: &Program) -> bool
    ensures { result ≡ are_few (program_of program.now) }
{
    let most = u32::MAX - 1;
    program.structs.len() <= most as usize
        && program.procs.len() <= most as usize
        && left_after_all(program.procs.as_slice(), most).is_some()
}

/// Whether a program has a good shape: numbers in range; operands, arguments and results of the
/// kinds that their places want; recovery without parameters and with one result, a reference; each
/// operation with a reference as its first parameter and at most one result, no two of one method
/// name; each Break and Continue within a Loop, each Loop's body ending in Continue, each
/// procedure's in a way out; fewer than 2^32 - 1 structs, procedures and commands. This project's own.
pub fn well_shaped(p: &Program) -> bool
    ensures { result ≡ is_well_shaped (program_of p.now) }
{
    are_fine_procs(p, p.procs.as_slice())
        && is_recovery(p)
        && are_operations(p, p.ops.as_slice())
        && are_distinct(p, p.ops.as_slice())
        && are_few(p)
}
