//! The names that are seen where a walk stands, and its scopes.

ghost use Rattle.std.specs.Prelude.{◌≡◌, List, [], ◌∷◌, codes, slice_get, Some, OnOk, OnErr, IfOk};
ghost use Rattle.std.specs.Str.{bytes_eq};
ghost use Rattle.gv_gosyntax.specs.declared.generated.gosyntax_table.TheConstants.{CLASS_SYNC};
ghost use Rattle.gv_gotypes.specs.Scopes as scope;
ghost use Rattle.gv_gotypes.specs.Scopes.{Env};
ghost use Rattle.gv_gotypes.specs.Members as members;
ghost use Rattle.gv_gotypes.specs.Calls as calls;
ghost use Rattle.gv_operands.specs.declared.types.Base.TheVariants.{Struct};
ghost use Rattle.gv_gotyped.specs.First.{first_of};
ghost use Rattle.gv_goscopes.specs.Called.{IsSignature, IsCalled, keyed_again};
ghost use Rattle.gv_goscopes.specs.Scopes.{with_results, IsAround};

use crate::called::{Called, Key, Signature};
use gv_base::NoMemory;
use gv_gosyntax::Lexeme;
use gv_gotyped::Fault;
use gv_gotypes::{Entity, Library};
use gv_gowalk::Names;
use gv_operands::{Base, GoType};
use std::alloc::Global;

/// The names that are seen where a walk stands, what is called by them, and the scopes that the walk opens, fills and closes.
pub trait Scopes: Names {
    /// What was seen when each scope was opened that isn't closed yet, the last one first.
    ghost outer: { Self → List Env };

    // ---- names

    /// The name is `_`.
    fn is_blank(&self, name: Lexeme) -> bool
        ensures { result ≡ scope.is_blank (scope.name_in (Self.env self.now).source name) };

    /// Two names have the same bytes.
    fn is_same(&self, first: Lexeme, other: Lexeme) -> bool
        ensures { result ≡ bytes_eq (scope.name_in (Self.env self.now).source first) (scope.name_in (Self.env self.now).source other) };

    /// The name is declared in the scope that was opened last.
    fn is_here(&self, name: Lexeme) -> bool
        ensures { result ≡ scope.is_here (Self.env self.now).entries (scope.name_in (Self.env self.now).source name) };

    /// What the name `sync` stands for.
    fn sync(&self) -> Option<Entity>
        ensures { result ≡ scope.entity_named (Self.env self.now) (codes "sync") };

    /// Where the first word `sync` behind a token begins; there is none: where that token does.
    fn sync_behind(&self, token: Lexeme) -> u32
        ensures { result ≡ scope.next_of CLASS_SYNC (Self.env self.now).source.tokens token.start };

    /// Where the last token before another one begins; there is none: where that one does.
    fn before(&self, token: Lexeme) -> u32
        ensures { result ≡ scope.token_before token.start (Self.env self.now).source.tokens token.start };

    // ---- what is called

    /// What a procedure takes and gives, by its number; none, where no procedure has it.
    fn procedure(&self, number: u32) -> Option<Signature<'_>>
        ensures { IsSignature result (slice_get (Self.env self.now).declared.procedures number) };

    /// The member of a package with a name, where it is called.
    fn called_of_library(&self, library: Library, name: Lexeme) -> Option<Called<'_>>
        ensures { IsCalled result (members.library_member library (scope.name_in (Self.env self.now).source name)) };

    /// The field or method with a name of what a pointer points to, where it is called.
    fn called_of(&self, base: Base, name: Lexeme) -> Option<Called<'_>>
        ensures { IsCalled result (members.base_member (Self.env self.now).declared base (scope.name_in (Self.env self.now).source name)) };

    /// A key in a literal of the struct with this number.
    fn key(&self, number: u32, name: Lexeme) -> Key
        ensures wants { let fields = calls.fields_of (Self.env self.now).declared (Some (Struct number)) in
            result.wants ≡ calls.field_want fields (scope.name_in (Self.env self.now).source name) }
        ensures is_field { let fields = calls.fields_of (Self.env self.now).declared (Some (Struct number)) in
            result.is_field ≡ calls.is_field fields (scope.name_in (Self.env self.now).source name) };

    /// Of the names in a list that stand before in it too, the fault that is told. It takes memory for the names.
    fn first_again(&self, alloc: Global, names: &[Lexeme]) -> Result<Option<Fault>, NoMemory>
        ensures { IfOk result (λ fault. fault ≡ first_of (keyed_again (Self.env self.now).source [] names.now)) };

    /// The types of the results of the function around; none within a literal behind `go`.
    fn results(&self) -> &[Option<GoType>]
        ensures { result.now ≡ (Self.env self.now).results };

    // ---- scopes

    /// A block begins.
    fn open(&mut self, alloc: Global) -> Result<(), NoMemory>
        ensures env { OnOk result (Self.env self.new ≡ scope.opened (Self.env self.old)) }
        ensures outer { OnOk result (outer self.new ≡ Self.env self.old ∷ outer self.old) }
        ensures kept { OnErr result ((Self.env self.new ≡ Self.env self.old) × (outer self.new ≡ outer self.old)) };

    /// A literal behind `go` begins.
    fn open_literal(&mut self, alloc: Global) -> Result<(), NoMemory>
        ensures env { OnOk result (Self.env self.new ≡ scope.in_literal (Self.env self.old)) }
        ensures outer { OnOk result (outer self.new ≡ Self.env self.old ∷ outer self.old) }
        ensures kept { OnErr result ((Self.env self.new ≡ Self.env self.old) × (outer self.new ≡ outer self.old)) };

    /// A function begins that gives results of these types.
    fn open_function(&mut self, alloc: Global, results: Vec<Option<GoType>>) -> Result<(), NoMemory>
        ensures env { OnOk result (Self.env self.new ≡ with_results (Self.env self.old) results.items) }
        ensures outer { OnOk result (outer self.new ≡ Self.env self.old ∷ outer self.old) }
        ensures kept { OnErr result ((Self.env self.new ≡ Self.env self.old) × (outer self.new ≡ outer self.old)) };

    /// What was opened last ends: what is seen is what was seen before it was.
    fn close(&mut self)
        requires { IsAround (outer self.old) }
        ensures { outer self.old ≡ Self.env self.new ∷ outer self.new };

    /// A variable is declared. `_`, and a name that is declared in this scope already, declares nothing.
    fn declare(&mut self, alloc: Global, name: Lexeme, kind: Option<GoType>) -> Result<(), NoMemory>
        ensures env { OnOk result (Self.env self.new ≡ scope.with_variable (Self.env self.old) name kind) }
        ensures outer { OnOk result (outer self.new ≡ outer self.old) }
        ensures kept { OnErr result ((Self.env self.new ≡ Self.env self.old) × (outer self.new ≡ outer self.old)) };
}
