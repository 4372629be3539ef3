//! `delete`, `append`, `make` and `new`.

ghost use Rattle.std.specs.Prelude.{◌≡◌, ◌&&◌, Option as Maybe, Some, None, is_some, option_map, option_and_then};
ghost use Rattle.gv_gosyntax.specs.declared.generated.gosyntax_acts.Part.TheVariants.{Expr as PExpr, GoType as PGoType};
ghost use Rattle.gv_gosyntax.specs.declared.tree.Expr.{Expr as AnyExpr};
ghost use Rattle.gv_gosyntax.specs.declared.tree.GoType.{GoType as TypeTree};
ghost use Rattle.gv_gosyntax.specs.Nodes as tree;
ghost use Rattle.gv_gonodes.specs.Expr.{IsSomeExpr};
ghost use Rattle.gv_gonodes.specs.GoType.{IsSomeGoType};
ghost use Rattle.gv_operands.specs.Types.{item_of as item_in, own_type_of};
ghost use Rattle.gv_operands.specs.declared.types.GoType.TheVariants as ty;
ghost use Rattle.gv_gotypes.specs.Calls as spec;
ghost use Rattle.gv_gotypes.specs.Kinds as kinds;
ghost use Rattle.gv_gotypes.specs.Places.{want};
ghost use Rattle.gv_gotypes.specs.Scopes.{Env};
ghost use Rattle.gv_gotypes.specs.Trees.{Expr as PlainExpr, expr_of};
ghost use Rattle.gv_gotyped.specs.First.{first_of};
ghost use Rattle.gv_gotyped.specs.Kinds.{IsWritten};
ghost use Rattle.gv_gotyped.specs.Operands.{IsOperand};
ghost use Rattle.gv_gocalls.specs.Answers.{IsThisAnswer};

use crate::answers::{Answer, Results};
use gv_base::Code;
use gv_goscopes::Scopes;
use gv_gosyntax::{Lexeme, Node};
use gv_gotyped::{Fault, Operand, WrittenType, earliest, in_place};
use gv_gotypes::{Entity, Library};
use gv_gowalk::{Names, operand_at, placed_at, type_at, written_at};
use gv_operands::{Base, Class, GoType, Want, item_of, own_type};

// ---- `delete`

pub(crate) fn delete_at<'a, N: Names>(
    names: &N,
    nodes: &[Node],
    word: Lexeme,
    first: usize,
    second: usize,
) -> Answer<'a>
    requires formed { tree.IsFormed nodes.now }
    requires first { IsSomeExpr nodes.now first }
    requires second { IsSomeExpr nodes.now second }
    ensures { (a b : AnyExpr) → tree.IsPartAt nodes.now first (PExpr a) → tree.IsPartAt nodes.now second (PExpr b)
        → IsThisAnswer result word.start (spec.delete_answer (N.env names.now) (expr_of a) (expr_of b)) }
{
    let map = placed_at(names, nodes, first, Want::AMap);
    let key = placed_at(names, nodes, second, Want::Exactly(GoType::Word));
    Answer {
        start: word.start,
        results: Results::Nothing,
        first: earliest(map, key),
    }
}

// ---- `append`

/// The fault that is told of an operand in a place that wants this.
pub fn placed(known: Operand, want: Want) -> Option<Fault>
    ensures { (env : Env) (e : PlainExpr) → IsOperand env e known → result ≡ first_of (spec.placed env want e) }
{
    let misfit = in_place(known.part, want);
    earliest(known.first, misfit)
}

/// What a place wants for this type.
pub fn want_of(kind: Option<GoType>) -> Want
    ensures { result ≡ want kind }
{
    match kind {
        Some(kind) => Want::Exactly(kind),
        None => Want::Unknown,
    }
}

fn slice_type(kind: GoType) -> Option<GoType>
    ensures { result ≡ spec.slice_type kind }
{
    match item_of(kind) {
        Some(_) => Some(kind),
        None => None,
    }
}

// The type of an operand, where that is a slice's.
fn slice_of(class: Option<Class>) -> Option<GoType>
    ensures { result ≡ option_and_then spec.slice_type (own_type_of class) }
{
    match class {
        Some(class) => match own_type(class) {
            Some(kind) => slice_type(kind),
            None => None,
        },
        None => None,
    }
}

fn item_wanted(slice: Option<GoType>) -> Want
    ensures { result ≡ want (option_and_then item_in slice) }
{
    match slice {
        Some(kind) => want_of(item_of(kind)),
        None => Want::Unknown,
    }
}

pub(crate) fn append_at<'a, N: Names>(
    names: &N,
    nodes: &[Node],
    word: Lexeme,
    first: usize,
    second: usize,
) -> Answer<'a>
    requires formed { tree.IsFormed nodes.now }
    requires first { IsSomeExpr nodes.now first }
    requires second { IsSomeExpr nodes.now second }
    ensures { (a b : AnyExpr) → tree.IsPartAt nodes.now first (PExpr a) → tree.IsPartAt nodes.now second (PExpr b)
        → IsThisAnswer result word.start (spec.append_answer (N.env names.now) (expr_of a) (expr_of b)) }
{
    let whole = operand_at(names, nodes, first);
    let slice = slice_of(whole.part.class);
    let own = placed(whole, Want::ASlice);
    let wanted = item_wanted(slice);
    let item = placed_at(names, nodes, second, wanted);
    Answer {
        start: word.start,
        results: Results::One(slice),
        first: earliest(own, item),
    }
}

// ---- `make`

fn is_made(kind: GoType) -> bool
    ensures { result ≡ spec.is_made kind }
{
    match kind {
        GoType::Map => true,
        _ => item_of(kind).is_some(),
    }
}

fn is_map_type(kind: GoType) -> bool
    ensures { result ≡ spec.is_map_type kind }
{
    match kind {
        GoType::Map => true,
        _ => false,
    }
}

fn fault(start: u32, code: Code) -> Option<Fault>
    ensures { result ≡ Some (record { start = start; code = code }) }
{
    Some(Fault { start, code })
}

// A type that has values which are made.
fn sized_fault(kind: GoType, sized: bool, word: u32, start: u32) -> Option<Fault>
    ensures { result ≡ first_of (spec.made_findings (Some kind) sized word start) }
{
    if !is_made(kind) {
        fault(start, Code::WrongType)
    } else if sized || is_map_type(kind) {
        None
    } else {
        fault(word, Code::WrongCount)
    }
}

fn made_fault(kind: Option<GoType>, sized: bool, word: u32, start: u32) -> Option<Fault>
    ensures { result ≡ first_of (spec.made_findings kind sized word start) }
{
    match kind {
        Some(kind) => sized_fault(kind, sized, word, start),
        None => None,
    }
}

fn made_result(kind: Option<GoType>) -> Option<GoType>
    ensures { result ≡ spec.made_result kind }
{
    match kind {
        Some(made) => { if is_made(made) { kind } else { None } }
        None => None,
    }
}

// `size` is the fault of the length that is told, where one is given.
fn make_answer<'a>(
    word: Lexeme,
    written: WrittenType,
    sized: bool,
    size: Option<Fault>,
) -> Answer<'a>
    ensures { (env : Env) (t : TypeTree) (e : Maybe PlainExpr) → IsWritten env t written → sized ≡ is_some e
        → size ≡ first_of (spec.size_findings env e) → IsThisAnswer result word.start (spec.make_answer env word t e) }
{
    let own = made_fault(written.kind, sized, word.start, written.start);
    let more = earliest(own, size);
    Answer {
        start: word.start,
        results: Results::One(made_result(written.kind)),
        first: earliest(written.first, more),
    }
}

pub(crate) fn make_at<'a, N: Names>(
    names: &N,
    nodes: &[Node],
    word: Lexeme,
    kind: usize,
) -> Answer<'a>
    requires formed { tree.IsFormed nodes.now }
    requires kind { IsSomeGoType nodes.now kind }
    ensures { (t : TypeTree) → tree.IsPartAt nodes.now kind (PGoType t)
        → IsThisAnswer result word.start (spec.make_answer (N.env names.now) word t None) }
{
    let written = written_at(names, type_at(nodes, kind));
    make_answer(word, written, false, None)
}

pub(crate) fn make_length_at<'a, N: Names>(
    names: &N,
    nodes: &[Node],
    word: Lexeme,
    kind: usize,
    length: usize,
) -> Answer<'a>
    requires formed { tree.IsFormed nodes.now }
    requires kind { IsSomeGoType nodes.now kind }
    requires length { IsSomeExpr nodes.now length }
    ensures { (t : TypeTree) (e : AnyExpr) → tree.IsPartAt nodes.now kind (PGoType t) → tree.IsPartAt nodes.now length (PExpr e)
        → IsThisAnswer result word.start (spec.make_answer (N.env names.now) word t (Some (expr_of e))) }
{
    let written = written_at(names, type_at(nodes, kind));
    let size = placed_at(names, nodes, length, Want::Exactly(GoType::Word));
    make_answer(word, written, true, size)
}

// ---- `new`

fn mutex_in(entity: Option<Entity>) -> Option<Base>
    ensures { result ≡ kinds.mutex_in entity }
{
    match entity {
        Some(Entity::Imported(Library::Sync)) => Some(Base::Mutex),
        _ => None,
    }
}

/// The fault of a name that should stand for a struct or a mutex.
pub(crate) fn name_fault(
    entity: Option<Entity>,
    base: Option<Base>,
    name: u32,
    start: u32,
) -> Option<Fault>
    ensures { result ≡ first_of (kinds.name_findings entity base name start) }
{
    match (entity, base) {
        (None, _) => fault(name, Code::Undeclared),
        (Some(_), None) => fault(start, Code::WrongType),
        (Some(_), Some(_)) => None,
    }
}

pub(crate) fn pointer_to(base: Option<Base>) -> Option<GoType>
    ensures { result ≡ option_map ty.Pointer base }
{
    match base {
        Some(base) => Some(GoType::Pointer(base)),
        None => None,
    }
}

pub(crate) fn new_at<'a, N: Scopes>(names: &N, word: Lexeme) -> Answer<'a>
    ensures { IsThisAnswer result word.start (spec.new_answer (N.env names.now) word) }
{
    let entity = names.sync();
    let at = names.sync_behind(word);
    let base = mutex_in(entity);
    Answer {
        start: word.start,
        results: Results::One(pointer_to(base)),
        first: name_fault(entity, base, at, at),
    }
}
