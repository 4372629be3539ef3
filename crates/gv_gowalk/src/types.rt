//! Types as they are written.

ghost use Rattle.std.specs.Prelude.{◌≡◌};
ghost use Rattle.gv_gosyntax.specs.declared.generated.gosyntax_acts.Part.TheVariants.{GoType as PGoType, Pointed as PPointed};
ghost use Rattle.gv_gosyntax.specs.declared.tree.GoType.{GoType as AnyGoType};
ghost use Rattle.gv_gosyntax.specs.declared.tree.Pointed.{Pointed as AnyPointed};
ghost use Rattle.gv_gosyntax.specs.Nodes as tree;
ghost use Rattle.gv_gonodes.specs.GoType.{IsSomeGoType};
ghost use Rattle.gv_gonodes.specs.Pointed.{IsSomePointed};
ghost use Rattle.gv_gotypes.specs.Kinds as kind;
ghost use Rattle.gv_gotypes.specs.Scopes as scope;
ghost use Rattle.gv_gotyped.specs.Kinds.{IsWritten};

use crate::names::Names;
use gv_gonodes::{GoTypeNode, PointedNode, go_type_node, pointed_node};
use gv_gosyntax::{GoType, Lexeme, Node, Pointed};
use gv_gotyped::{
    WrittenType, written_block, written_map, written_pointer, written_pointers, written_slice,
    written_word,
};
use gv_gotypes::Entity;

// What a pointer points to, as it is written.
fn pointed_at(nodes: &[Node], at: usize) -> Pointed
    requires formed { tree.IsFormed nodes.now }
    requires some { IsSomePointed nodes.now at }
    ensures { (to : AnyPointed) → tree.IsPartAt nodes.now at (PPointed to) → result ≡ to }
{
    match pointed_node(nodes, at) {
        PointedNode::Named { name } => Pointed::Named(name),
        PointedNode::Mutex { word } => Pointed::Mutex(word),
    }
}

/// The type whose node is at a place, as it is written.
pub fn type_at(nodes: &[Node], at: usize) -> GoType
    requires formed { tree.IsFormed nodes.now }
    requires some { IsSomeGoType nodes.now at }
    ensures { (t : AnyGoType) → tree.IsPartAt nodes.now at (PGoType t) → result ≡ t }
{
    match go_type_node(nodes, at) {
        GoTypeNode::WordType { word } => GoType::Word(word),
        GoTypeNode::SliceType { start, word } => GoType::Slice(start, word),
        GoTypeNode::PointersType { start, to } => {
            let pointed = pointed_at(nodes, to);
            GoType::Pointers(start, pointed)
        }
        GoTypeNode::MapType { word } => GoType::Map(word),
        GoTypeNode::PointerType { star, to } => {
            let pointed = pointed_at(nodes, to);
            GoType::Pointer(star, pointed)
        }
        GoTypeNode::BlockType { word } => GoType::Block(word),
    }
}

/// What a name stands for, whether or not it is declared outside of a literal.
pub fn entity_of<N: Names>(names: &N, name: Lexeme) -> Option<Entity>
    ensures { result ≡ scope.entity_named (N.env names.now) (scope.name_in (N.env names.now).source name) }
{
    match names.found(name) {
        Some(found) => Some(found.entity),
        None => None,
    }
}

fn word_of(to: Pointed) -> Lexeme
    ensures { result ≡ kind.word_of_pointed to }
{
    match to {
        Pointed::Named(word) => word,
        Pointed::Mutex(word) => word,
    }
}

// What the name, or `sync`, behind a `*` stands for.
fn pointed_entity<N: Names>(names: &N, to: Pointed) -> Option<Entity>
    ensures { result ≡ scope.entity_named (N.env names.now) (scope.name_in (N.env names.now).source (kind.word_of_pointed to)) }
{
    let word = word_of(to);
    entity_of(names, word)
}

/// What a type stands for where these names are seen, and the fault in it that is told.
pub fn written_at<N: Names>(names: &N, written: GoType) -> WrittenType
    ensures { IsWritten (N.env names.now) written result }
{
    match written {
        GoType::Word(word) => written_word(word),
        GoType::Slice(bracket, word) => written_slice(bracket, word),
        GoType::Pointers(bracket, to) => {
            let entity = pointed_entity(names, to);
            written_pointers(bracket, to, entity)
        }
        GoType::Map(word) => written_map(word),
        GoType::Pointer(star, to) => {
            let entity = pointed_entity(names, to);
            written_pointer(star, to, entity)
        }
        GoType::Block(word) => {
            let entity = entity_of(names, word);
            written_block(word, entity)
        }
    }
}
