//! What a walk asks of the names that are seen where it stands.

ghost use Rattle.std.specs.Prelude.{◌≡◌};
ghost use Rattle.gv_gotypes.specs.Scopes as scope;
ghost use Rattle.gv_gotypes.specs.Scopes.{Env};
ghost use Rattle.gv_gotypes.specs.Members as members;
ghost use Rattle.gv_gotyped.specs.Operands.{IsConstantFor};
ghost use Rattle.gv_gotyped.specs.Parts.{IsMember, IsValueOf};

use gv_gosyntax::Lexeme;
use gv_gotyped::Member;
use gv_gotypes::{Found, Library};
use gv_operands::{Base, Class, Value};

/// Where something stands: the names that are seen there, and what they stand for.
pub trait Names {
    /// The declarations that are seen.
    ghost env: { Self → Env };

    /// What a name stands for.
    fn found(&self, name: Lexeme) -> Option<Found>
        ensures { result ≡ scope.found (env self.now) (scope.name_in (env self.now).source name) };

    /// What a constant is by its declaration, where a name stands for one.
    fn constant(&self, found: Option<Found>) -> Option<Class>
        ensures { IsConstantFor (env self.now).declared found result };

    /// The value of a literal that is a number, or none from 2^64 on.
    fn value(&self, literal: Lexeme) -> Option<Value>
        ensures { IsValueOf (env self.now) literal result };

    /// The member of a package with a name.
    fn library_member(&self, library: Library, name: Lexeme) -> Option<Member>
        ensures { IsMember result (members.library_member library (scope.name_in (env self.now).source name)) };

    /// The field or method with a name of what a pointer points to.
    fn member(&self, base: Base, name: Lexeme) -> Option<Member>
        ensures { IsMember result (members.base_member (env self.now).declared base (scope.name_in (env self.now).source name)) };
}
