//! What is called by names.

ghost use Rattle.std.specs.Prelude.{◌≡◌, option_map, slice_get};
ghost use Rattle.gv_gotypes.specs.Scopes as scope;
ghost use Rattle.gv_gotypes.specs.Members as members;
ghost use Rattle.gv_operands.specs.declared.types.Base.TheVariants.{Struct};
ghost use Rattle.gv_goscopes.specs.Called.{IsCalled, IsSignature, IsThisSignature};
ghost use Rattle.gv_goseen.specs.Called.{member_of_row};
ghost use Rattle.gv_goseen.specs.Seen.{env_of, signature_of, source_of};

use crate::declared::Procedure;
use crate::lookups::is_blank;
use crate::seen::Seen;
use gv_gonames::MemberRow;
use gv_gopackages::{called_of_library, called_of_mutex};
use gv_goscopes::{Called, Signature};
use gv_gosyntax::Lexeme;
use gv_gotypes::Library;
use gv_operands::Base;

// What a procedure takes and gives.
fn signature_in(procedure: &Procedure) -> Signature<'_>
    ensures { IsThisSignature result (signature_of procedure.now) }
{
    Signature {
        params: procedure.params.as_slice(),
        results: procedure.results.as_slice(),
    }
}

impl<'a> Seen<'a> {
    fn procedure_numbered(&self, number: u32) -> Option<&Procedure>
        ensures { option_map (λ p. signature_of p.now) result ≡ slice_get (env_of self.now).declared.procedures number }
    {
        self.declared.procedures.get(number as usize)
    }

    /// What a procedure takes and gives, by its number; none, where no procedure has it.
    pub fn procedure(&self, number: u32) -> Option<Signature<'_>>
        ensures { IsSignature result (slice_get (env_of self.now).declared.procedures number) }
    {
        match self.procedure_numbered(number) {
            Some(procedure) => Some(signature_in(procedure)),
            None => None,
        }
    }

    /// The member of a package with a name, where it is called.
    pub fn called_of_library(&self, library: Library, name: Lexeme) -> Option<Called<'_>>
        ensures { IsCalled result (members.library_member library (scope.name_in (source_of self.now) name)) }
    {
        called_of_library(library, self.bytes(name))
    }

    // A method where it is called, by its number.
    fn called_method(&self, number: u32) -> Option<Called<'_>>
        ensures { IsCalled result (option_map members.Called (slice_get (env_of self.now).declared.procedures number)) }
    {
        match self.procedure(number) {
            Some(signature) => Some(Called::By(signature)),
            None => None,
        }
    }

    // A member of a struct where it is called, by its row.
    fn called_by_row(&self, row: Option<Option<MemberRow>>) -> Option<Called<'_>>
        ensures { IsCalled result (member_of_row (env_of self.now).declared row) }
    {
        match row {
            Some(Some(MemberRow::Field(_))) => Some(Called::Other),
            Some(Some(MemberRow::Method(number))) => self.called_method(number),
            _ => None,
        }
    }

    // The field or method with a name of the struct with a number, where it is called.
    fn called_of_struct(&self, number: u32, name: &[u8]) -> Option<Called<'_>>
        ensures { IsCalled result (members.base_member (env_of self.now).declared (Struct number) name.now) }
    {
        if is_blank(name) {
            return None;
        }
        self.called_by_row(self.row(number, name))
    }

    /// The field or method with a name of what a pointer points to, where it is called.
    pub fn called_of(&self, base: Base, name: Lexeme) -> Option<Called<'_>>
        ensures { IsCalled result (members.base_member (env_of self.now).declared base (scope.name_in (source_of self.now) name)) }
    {
        match base {
            Base::Struct(number) => self.called_of_struct(number, self.bytes(name)),
            Base::Mutex => called_of_mutex(self.bytes(name)),
        }
    }
}
