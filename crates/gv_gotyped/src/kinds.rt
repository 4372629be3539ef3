//! Types as they are written.

ghost use Rattle.std.specs.Prelude.{◌≡◌, option_map};
ghost use Rattle.gv_gosyntax.specs.declared.tree.GoType.TheVariants as tree;
ghost use Rattle.gv_gotypes.specs.Kinds as kind;
ghost use Rattle.gv_gotypes.specs.Scopes.{Env, entity_named, name_in};
ghost use Rattle.gv_operands.specs.declared.types.GoType.TheVariants as ty;
ghost use Rattle.gv_gotyped.specs.First.{first_of};
ghost use Rattle.gv_gotyped.specs.Kinds.{IsWritten};

use crate::fault::Fault;
use crate::places::wrong_type;
use gv_base::Code;
use gv_gosyntax::generated::gosyntax_table::{CLASS_BYTE, CLASS_DISK, CLASS_UINT64};
use gv_gosyntax::{Lexeme, Pointed};
use gv_gotypes::{Entity, Library};
use gv_operands::{Base, GoType};

/// A type that was walked over: where it begins, what it stands for, if anything, and the fault in it that is told.
#[derive(Clone, Copy, Debug)]
pub struct WrittenType {
    pub start: u32,
    pub kind: Option<GoType>,
    pub first: Option<Fault>,
}

// The struct or the mutex that a pointer points to, where its name stands for that.
fn base_in(to: Pointed, entity: Option<Entity>) -> Option<Base>
    ensures { result ≡ kind.base_in to entity }
{
    match (to, entity) {
        (Pointed::Named(_), Some(Entity::StructOf(number))) => Some(Base::Struct(number)),
        (Pointed::Mutex(_), Some(Entity::Imported(Library::Sync))) => Some(Base::Mutex),
        _ => None,
    }
}

fn word_of(to: Pointed) -> Lexeme
    ensures { result ≡ kind.word_of_pointed to }
{
    match to {
        Pointed::Named(word) => word,
        Pointed::Mutex(word) => word,
    }
}

fn undeclared(start: u32) -> Option<Fault>
    ensures { result ≡ first_of (kind.undeclared start) }
{
    Some(Fault {
        start,
        code: Code::Undeclared,
    })
}

// The fault of a name that should stand for a struct or a mutex.
fn base_fault(entity: Option<Entity>, base: Option<Base>, name: u32, start: u32) -> Option<Fault>
    ensures { result ≡ first_of (kind.name_findings entity base name start) }
{
    match (entity, base) {
        (None, _) => undeclared(name),
        (Some(_), None) => wrong_type(start),
        (Some(_), Some(_)) => None,
    }
}

// The fault of a name that should stand for a package with blocks.
fn block_fault(entity: Option<Entity>, block: Option<GoType>, at: u32) -> Option<Fault>
    ensures { result ≡ first_of (kind.name_findings entity block at at) }
{
    match (entity, block) {
        (None, _) => undeclared(at),
        (Some(_), None) => wrong_type(at),
        (Some(_), Some(_)) => None,
    }
}

fn block_in(class: u8, entity: Option<Entity>) -> Option<GoType>
    ensures { result ≡ kind.block_in class entity }
{
    match entity {
        Some(Entity::Imported(Library::Disk)) => {
            if class == CLASS_DISK {
                Some(GoType::Bytes)
            } else {
                None
            }
        }
        Some(Entity::Imported(Library::TwoDisk)) => {
            if class == CLASS_DISK {
                None
            } else {
                Some(GoType::Bytes)
            }
        }
        _ => None,
    }
}

fn word_type(class: u8) -> GoType
    ensures { result ≡ kind.word_type class }
{
    if class == CLASS_UINT64 {
        GoType::Word
    } else if class == CLASS_BYTE {
        GoType::Byte
    } else {
        GoType::Boolean
    }
}

fn slice_type(class: u8) -> GoType
    ensures { result ≡ kind.slice_type class }
{
    if class == CLASS_BYTE {
        GoType::Bytes
    } else {
        GoType::Words
    }
}

fn pointer_to(base: Option<Base>) -> Option<GoType>
    ensures { result ≡ option_map ty.Pointer base }
{
    match base {
        Some(base) => Some(GoType::Pointer(base)),
        None => None,
    }
}

fn slice_of(base: Option<Base>) -> Option<GoType>
    ensures { result ≡ option_map ty.Pointers base }
{
    match base {
        Some(base) => Some(GoType::Pointers(base)),
        None => None,
    }
}

/// `uint64`, `byte` or `bool`
pub fn written_word(word: Lexeme) -> WrittenType
    ensures { (env : Env) → IsWritten env (tree.Word word) result }
{
    WrittenType {
        start: word.start,
        kind: Some(word_type(word.class)),
        first: None,
    }
}

/// `[]byte` or `[]uint64`
pub fn written_slice(bracket: Lexeme, word: Lexeme) -> WrittenType
    ensures { (env : Env) → IsWritten env (tree.Slice bracket word) result }
{
    WrittenType {
        start: bracket.start,
        kind: Some(slice_type(word.class)),
        first: None,
    }
}

/// `map[uint64]uint64`
pub fn written_map(word: Lexeme) -> WrittenType
    ensures { (env : Env) → IsWritten env (tree.Map word) result }
{
    WrittenType {
        start: word.start,
        kind: Some(GoType::Map),
        first: None,
    }
}

/// `*NAME` or `*sync.Mutex`, with what the name, or `sync`, stands for.
pub fn written_pointer(star: Lexeme, to: Pointed, entity: Option<Entity>) -> WrittenType
    ensures { (env : Env) → entity ≡ entity_named env (name_in env.source (kind.word_of_pointed to)) → IsWritten env (tree.Pointer star to) result }
{
    let base = base_in(to, entity);
    let kind = pointer_to(base);
    let word = word_of(to);
    let first = base_fault(entity, base, word.start, star.start);
    WrittenType {
        start: star.start,
        kind,
        first,
    }
}

/// `[]*NAME` or `[]*sync.Mutex`, with what the name, or `sync`, stands for.
pub fn written_pointers(bracket: Lexeme, to: Pointed, entity: Option<Entity>) -> WrittenType
    ensures { (env : Env) → entity ≡ entity_named env (name_in env.source (kind.word_of_pointed to)) → IsWritten env (tree.Pointers bracket to) result }
{
    let base = base_in(to, entity);
    let kind = slice_of(base);
    let word = word_of(to);
    let first = base_fault(entity, base, word.start, bracket.start);
    WrittenType {
        start: bracket.start,
        kind,
        first,
    }
}

/// `disk.Block` or `twodisk.Block`, with what the package's name stands for.
pub fn written_block(word: Lexeme, entity: Option<Entity>) -> WrittenType
    ensures { (env : Env) → entity ≡ entity_named env (name_in env.source word) → IsWritten env (tree.Block word) result }
{
    let kind = block_in(word.class, entity);
    let first = block_fault(entity, kind, word.start);
    WrittenType {
        start: word.start,
        kind,
        first,
    }
}
