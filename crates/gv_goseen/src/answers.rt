//! The answers that a walk over a package asks for.

use crate::lookups::is_blank;
use crate::seen::Seen;
use gv_base::NoMemory;
use gv_goscopes::{Called, Key, Scopes, Signature};
use gv_gosyntax::Lexeme;
use gv_gotyped::{Fault, Member};
use gv_gotypes::{Entity, Found, Library};
use gv_gowalk::Names;
use gv_operands::{Base, Class, GoType, Value};
use std::alloc::Global;

impl<'a> Names for Seen<'a> {
    ghost use Rattle.gv_goseen.specs.Seen.{env_of};

    ghost env = { env_of };

    fn found(&self, name: Lexeme) -> Option<Found> {
        self.found(name)
    }

    fn constant(&self, found: Option<Found>) -> Option<Class> {
        self.constant(found)
    }

    fn value(&self, literal: Lexeme) -> Option<Value> {
        self.value(literal)
    }

    fn library_member(&self, library: Library, name: Lexeme) -> Option<Member> {
        self.library_member(library, name)
    }

    fn member(&self, base: Base, name: Lexeme) -> Option<Member> {
        self.member(base, name)
    }
}

impl<'a> Scopes for Seen<'a> {
    ghost use Rattle.gv_goseen.specs.Seen.{outer_of};

    ghost outer = { outer_of };

    fn is_blank(&self, name: Lexeme) -> bool {
        is_blank(self.bytes(name))
    }

    fn is_same(&self, first: Lexeme, other: Lexeme) -> bool {
        self.is_same(first, other)
    }

    fn is_here(&self, name: Lexeme) -> bool {
        self.is_here(name)
    }

    fn sync(&self) -> Option<Entity> {
        self.sync()
    }

    fn sync_behind(&self, token: Lexeme) -> u32 {
        self.tokens.sync_behind(token.start)
    }

    fn before(&self, token: Lexeme) -> u32 {
        self.tokens.before(token.start)
    }

    fn procedure(&self, number: u32) -> Option<Signature<'_>> {
        self.procedure(number)
    }

    fn called_of_library(&self, library: Library, name: Lexeme) -> Option<Called<'_>> {
        self.called_of_library(library, name)
    }

    fn called_of(&self, base: Base, name: Lexeme) -> Option<Called<'_>> {
        self.called_of(base, name)
    }

    fn key(&self, number: u32, name: Lexeme) -> Key {
        self.key(number, name)
    }

    fn first_again(&self, alloc: Global, names: &[Lexeme]) -> Result<Option<Fault>, NoMemory> {
        self.first_again(alloc, names)
    }

    fn results(&self) -> &[Option<GoType>] {
        self.results()
    }

    fn open(&mut self, _alloc: Global) -> Result<(), NoMemory> {
        self.open()
    }

    fn open_literal(&mut self, alloc: Global) -> Result<(), NoMemory> {
        self.open_literal(alloc)
    }

    fn open_function(
        &mut self,
        _alloc: Global,
        results: Vec<Option<GoType>>,
    ) -> Result<(), NoMemory> {
        self.open_function(results)
    }

    fn close(&mut self) {
        self.close();
    }

    fn declare(
        &mut self,
        alloc: Global,
        name: Lexeme,
        kind: Option<GoType>,
    ) -> Result<(), NoMemory> {
        self.declare(alloc, name, kind)
    }
}
