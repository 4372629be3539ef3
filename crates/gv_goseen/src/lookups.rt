//! What names stand for where a walk stands.

ghost use Rattle.std.specs.Prelude.{◌≡◌, codes};
ghost use Rattle.std.specs.Str.{bytes_eq};
ghost use Rattle.gv_gotypes.specs.Scopes as scope;
ghost use Rattle.gv_gotypes.specs.Members as members;
ghost use Rattle.gv_gotypes.specs.Literals.{number_value};
ghost use Rattle.gv_operands.specs.Operators.{word_within};
ghost use Rattle.gv_operands.specs.declared.types.Base.TheVariants.{Struct};
ghost use Rattle.gv_gotyped.specs.Operands.{IsConstantFor};
ghost use Rattle.gv_gotyped.specs.Parts.{IsMember};
ghost use Rattle.gv_goseen.specs.Seen.{env_of, source_of};

use crate::members::member_as;
use crate::numbers::number_of;
use crate::seen::Seen;
use gv_gonames::{bytes_between, span_of};
use gv_gopackages::{library_member, mutex_member};
use gv_gosyntax::Lexeme;
use gv_gotyped::Member;
use gv_gotypes::{Entity, Found, Library};
use gv_operands::{Base, Class, Value};

/// The name is `_`.
pub fn is_blank(name: &[u8]) -> bool
    ensures { result ≡ scope.is_blank name.now }
{
    name == b"_".as_slice()
}

impl<'a> Seen<'a> {
    /// The bytes of a token.
    pub fn bytes(&self, token: Lexeme) -> &[u8]
        ensures { result.now ≡ scope.name_in (source_of self.now) token }
    {
        bytes_between(self.text, span_of(token))
    }

    /// What a name stands for.
    pub fn found(&self, name: Lexeme) -> Option<Found>
        ensures { result ≡ scope.found (env_of self.now) (scope.name_in (source_of self.now) name) }
    {
        self.found_spelled(self.bytes(name))
    }

    /// What a name of these bytes stands for.
    pub fn found_spelled(&self, bytes: &[u8]) -> Option<Found>
        ensures { result ≡ scope.found (env_of self.now) bytes.now }
    {
        if is_blank(bytes) {
            return None;
        }
        let other = self.declared.names.entity(bytes);
        self.locals.found(bytes, other)
    }

    /// What the name `sync` stands for.
    pub fn sync(&self) -> Option<Entity>
        ensures { result ≡ scope.entity_named (env_of self.now) (codes "sync") }
    {
        match self.found_spelled(b"sync".as_slice()) {
            Some(found) => Some(found.entity),
            None => None,
        }
    }

    /// Two names have the same bytes.
    pub fn is_same(&self, first: Lexeme, other: Lexeme) -> bool
        ensures { result ≡ bytes_eq (scope.name_in (source_of self.now) first) (scope.name_in (source_of self.now) other) }
    {
        self.bytes(first) == self.bytes(other)
    }

    /// What a constant is by its declaration, where a name stands for one.
    pub fn constant(&self, found: Option<Found>) -> Option<Class>
        ensures { IsConstantFor (env_of self.now).declared found result }
    {
        match found {
            Some(found) => match found.entity {
                Entity::ConstantOf(number) => self.constant_numbered(number),
                _ => None,
            },
            None => None,
        }
    }

    /// What the constant with a number is by its declaration, if anything.
    pub fn constant_numbered(&self, number: u32) -> Option<Class>
        ensures { result ≡ scope.constant_class (env_of self.now).declared number }
    {
        match self.declared.constants.get(number as usize) {
            Some(class) => *class,
            None => None,
        }
    }

    /// The value of a literal that is a number, or none from 2^64 on.
    pub fn value(&self, literal: Lexeme) -> Option<Value>
        ensures { result ≡ word_within (number_value (scope.name_in (source_of self.now) literal)) }
    {
        number_of(self.bytes(literal))
    }

    /// The member of a package with a name.
    pub fn library_member(&self, library: Library, name: Lexeme) -> Option<Member>
        ensures { IsMember result (members.library_member library (scope.name_in (source_of self.now) name)) }
    {
        library_member(library, self.bytes(name))
    }

    /// The field or method with a name of what a pointer points to.
    pub fn member(&self, base: Base, name: Lexeme) -> Option<Member>
        ensures { IsMember result (members.base_member (env_of self.now).declared base (scope.name_in (source_of self.now) name)) }
    {
        match base {
            Base::Struct(number) => self.struct_member(number, self.bytes(name)),
            Base::Mutex => mutex_member(self.bytes(name)),
        }
    }

    // The field or method with a name of the struct with a number.
    fn struct_member(&self, number: u32, name: &[u8]) -> Option<Member>
        ensures { IsMember result (members.base_member (env_of self.now).declared (Struct number) name.now) }
    {
        if is_blank(name) {
            return None;
        }
        match self.declared.structs.get(number as usize) {
            Some(table) => member_as(self.declared.procedures.len(), table.member(name)),
            None => None,
        }
    }
}
