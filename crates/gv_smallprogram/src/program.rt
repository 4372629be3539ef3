//! The program of a package of the small form.

ghost use Rattle.std.specs.Prelude.{◌≡◌, ◌-◌, ◌^◌, ◌<◌, [], ◌∷◌, IfOk, true, length, map};
ghost use Rattle.gv_lang.specs.Plain.{expr_of, tree_of, proc_of, program_of as plain_program_of};
ghost use Rattle.gv_lang.specs.Tree.{Do, New, Return};
ghost use Rattle.gv_lang.specs.WellShaped.{is_well_shaped};
ghost use Rattle.gv_smallprogram.specs.Laws.{IsSound};
ghost use Rattle.gv_smallprogram.specs.Program as small_form;

use gv_base::{List, Name, NoMemory, Part, Place, Small, SmallOp, Turn};
use gv_lang::{Binary, Cmd, Local, LocalKind, Proc, Program, Pure, Struct};
use std::alloc::Global;

// No place of a text, since lines are counted from 1.
const NOWHERE: Place = Place { line: 0, column: 0 };

// One more than the greatest number of operations: recovery has two commands, and each operation one.
const TOO_MANY_OPERATIONS: usize = 4_294_967_293;

// ---- Sums

// What a Sum adds or takes away; the first local is the receiver.
#[tactic(auto, using(gv_lang::proofs::Trees::expressions))]
fn part_expr(part: &Part) -> Result<Pure, NoMemory>
    ensures { IfOk result (λ e. expr_of e ≡ small_form.part_expr part.now) }
{
    match part {
        Part::Param(place) => match place.checked_add(1) {
            Some(local) => Ok(Pure::Local(local)),
            None => Err(NoMemory),
        },
        Part::Number(value) => Ok(Pure::Word(*value)),
    }
}

fn operator(turn: &Turn) -> Binary
    ensures { result ≡ small_form.turn_operator turn.now }
{
    if turn.minus {
        Binary::Minus
    } else {
        Binary::Plus
    }
}

#[tactic(auto, using(gv_lang::proofs::Trees::expressions))]
fn turn_expr(alloc: Global, total: Pure, turn: &Turn) -> Result<Pure, NoMemory>
    ensures { IfOk result (λ e. expr_of e ≡ small_form.turn_expr (expr_of total) turn.now) }
{
    let part = part_expr(&turn.part)?;
    let left = Box::new(alloc, total)?;
    let right = Box::new(alloc, part)?;
    Ok(Pure::Binary(operator(turn), left, right))
}

// An operation's Sum, from the left.
fn sum_expr(alloc: Global, op: &SmallOp) -> Result<Pure, NoMemory>
    ensures { IfOk result (λ e. expr_of e ≡ small_form.sum_expr op.now) }
{
    let mut total = part_expr(&op.first)?;
    let mut left = op.rest.as_slice();
    while let [turn, rest @ ..] = left {
        total = turn_expr(alloc, total, turn)?;
        left = rest;
    }
    Ok(total)
}

// ---- procedures

// A parameter that has no name is named by its place, counted from 1 with the receiver first.
fn local_name(alloc: Global, place: u32, name: &Name) -> Result<Name, NoMemory>
    ensures { IfOk result (λ n. n ≡ small_form.local_name place name.now) }
{
    if name.as_slice() != b"_".as_slice() {
        return name.copy(alloc);
    }
    let text = format!(in alloc; "_.{place}")?;
    Name::from_slice(alloc, text.as_bytes())
}

fn param_local(alloc: Global, place: u32, name: &Name) -> Result<Local, NoMemory>
    ensures { IfOk result (λ l. l ≡ small_form.param_local place name.now) }
{
    let name = local_name(alloc, place, name)?;
    Ok(Local {
        name,
        kind: LocalKind::Word,
    })
}

// The receiver, whose name is not kept, and the parameters; and how many they are.
fn method_locals(alloc: Global, op: &SmallOp) -> Result<(Vec<Local>, u32), NoMemory>
    ensures locals { IfOk result (λ r. r.0.items ≡ small_form.method_locals [] op.now) }
    ensures count { IfOk result (λ r. r.1 ≡ small_form.param_count op.now) }
{
    let receiver = Local {
        name: Name::from_slice(alloc, b"")?,
        kind: LocalKind::Ref,
    };
    let mut locals = vec![in alloc; receiver]?;
    let mut count: u32 = 1;
    let mut left = op.params.as_slice();
    while let [name, rest @ ..] = left {
        let Some(place) = count.checked_add(1) else {
            return Err(NoMemory);
        };
        locals.push(param_local(alloc, place, name)?)?;
        count = place;
        left = rest;
    }
    Ok((locals, count))
}

// The name of a method of the type whose name is not kept.
fn method_name(alloc: Global, op: &SmallOp) -> Result<Name, NoMemory>
    ensures { IfOk result (λ n. n ≡ small_form.method_name [] op.now) }
{
    let mut bytes = vec![in alloc; b'.']?;
    bytes.extend_from_slice(op.name.as_slice())?;
    Name::from_vec(alloc, bytes)
}

#[tactic(auto, using(gv_lang::proofs::Trees::commands))]
fn returned(alloc: Global, e: Pure) -> Result<Cmd, NoMemory>
    ensures { IfOk result (λ c. tree_of c ≡ Return (expr_of e ∷ []) small_form.nowhere) }
{
    let es = List::from_vec(vec![in alloc; e]?);
    Ok(Cmd::Return { es, place: NOWHERE })
}

fn method(alloc: Global, op: &SmallOp) -> Result<Proc, NoMemory>
    ensures { IfOk result (λ p. proc_of p ≡ small_form.method_proc [] [] small_form.nowhere op.now) }
{
    let (locals, params) = method_locals(alloc, op)?;
    let sum = sum_expr(alloc, op)?;
    let body = vec![in alloc; returned(alloc, sum)?]?;
    Ok(Proc {
        name: method_name(alloc, op)?,
        params,
        locals: List::from_vec(locals),
        results: List::from_vec(vec![in alloc; LocalKind::Word]?),
        body: List::from_vec(body),
    })
}

#[tactic(auto, using(gv_lang::proofs::Trees::commands))]
fn made(alloc: Global) -> Cmd
    ensures { tree_of result ≡ Do (New 0 0 []) small_form.nowhere }
{
    let vs = List::new(alloc);
    Cmd::New {
        x: 0,
        of: 0,
        vs,
        place: NOWHERE,
    }
}

#[tactic(auto, using(gv_lang::proofs::Trees::expressions))]
fn recovery(alloc: Global) -> Result<Proc, NoMemory>
    ensures { IfOk result (λ p. proc_of p ≡ small_form.recovery_proc small_form.nowhere) }
{
    let temporary = Local {
        name: Name::from_slice(alloc, b"t.1")?,
        kind: LocalKind::Ref,
    };
    let body = vec![in alloc; made(alloc), returned(alloc, Pure::Local(0))?]?;
    Ok(Proc {
        name: Name::from_slice(alloc, b"Recover")?,
        params: 0,
        locals: List::from_vec(vec![in alloc; temporary]?),
        results: List::from_vec(vec![in alloc; LocalKind::Ref]?),
        body: List::from_vec(body),
    })
}

// ---- the program

// The struct without fields, whose name is not kept.
fn structure(alloc: Global) -> Result<Struct, NoMemory>
    ensures { IfOk result (λ s. s ≡ record { name = []; fields = [] }) }
{
    Ok(Struct {
        name: Name::from_slice(alloc, b"")?,
        fields: List::new(alloc),
    })
}

// Recovery, and behind it the operations.
fn procs(alloc: Global, ops: &[SmallOp]) -> Result<Vec<Proc>, NoMemory>
    ensures { IfOk result (λ ps. map proc_of ps.items ≡ small_form.recovery_proc small_form.nowhere
        ∷ map (small_form.method_proc [] [] small_form.nowhere) ops.now) }
{
    let mut procs = vec![in alloc; recovery(alloc)?]?;
    let mut left = ops;
    while let [op, rest @ ..] = left {
        procs.push(method(alloc, op)?)?;
        left = rest;
    }
    Ok(procs)
}

// The operations' procedures by their numbers.
fn numbers(alloc: Global, ops: &[SmallOp]) -> Result<Vec<u32>, NoMemory>
    requires { length ops.now < 2 ^ 32 - 3 }
    ensures { IfOk result (λ ns. ns.items ≡ small_form.numbers_from 1 ops.now) }
{
    let mut numbers = Vec::new(alloc);
    let mut number: u32 = 1;
    let mut left = ops;
    while let [_op, rest @ ..] = left {
        numbers.push(number)?;
        number += 1;
        left = rest;
    }
    Ok(numbers)
}

/// The program of a package of the small form: `New` and `Return` for `Recover`, and one `Return` for each operation, in
/// the order of the text. The names of the type and of receivers are empty in it, and each place is 0:0, since the
/// small form keeps neither. Where it would have 2^32 - 1 commands or more, or a method as many parameters, the answer
/// is `NoMemory`. This project's own, after Goose.
pub fn program_of(alloc: Global, small: &Small) -> Result<Program, NoMemory>
    ensures ok { IfOk result (λ g. plain_program_of g ≡ small_form.program_of small.now) }
    ensures well_shaped { IfOk result (λ g. IsSound small.now → is_well_shaped (plain_program_of g) ≡ true) }
{
    let ops = small.ops.as_slice();
    if ops.len() >= TOO_MANY_OPERATIONS {
        return Err(NoMemory);
    }
    Ok(Program {
        structs: List::from_vec(vec![in alloc; structure(alloc)?]?),
        procs: List::from_vec(procs(alloc, ops)?),
        recover: 0,
        ops: List::from_vec(numbers(alloc, ops)?),
    })
}
