//! Keys of the literals of structs.

ghost use Rattle.std.specs.Prelude.{◌≡◌, option_map, slice_get, Some};
ghost use Rattle.gv_gotypes.specs.Calls as calls;
ghost use Rattle.gv_gotypes.specs.Places as place;
ghost use Rattle.gv_gotypes.specs.Scopes as scope;
ghost use Rattle.gv_operands.specs.declared.types.Base.TheVariants.{Struct};
ghost use Rattle.gv_gonames.specs.Structs.{member_among};
ghost use Rattle.gv_goseen.specs.Seen.{env_of, source_of};
ghost use Rattle.gv_goseen.specs.Keys.{field_by, wants_by};

use crate::lookups::is_blank;
use crate::seen::Seen;
use gv_gonames::MemberRow;
use gv_goscopes::Key;
use gv_gosyntax::Lexeme;
use gv_operands::{GoType, Want};

fn want_of(kind: Option<GoType>) -> Want
    ensures { result ≡ place.want kind }
{
    match kind {
        Some(kind) => Want::Exactly(kind),
        None => Want::Unknown,
    }
}

fn wants_as(row: Option<Option<MemberRow>>) -> Want
    ensures { result ≡ wants_by row }
{
    match row {
        Some(Some(MemberRow::Field(kind))) => want_of(kind),
        _ => Want::Unknown,
    }
}

fn is_field_as(blank: bool, row: Option<Option<MemberRow>>) -> bool
    ensures { result ≡ field_by blank row }
{
    match row {
        None => true,
        Some(Some(MemberRow::Field(_))) => !blank,
        Some(_) => false,
    }
}

impl<'a> Seen<'a> {
    // Of the struct with a number, where there is one, the member with a name.
    pub(crate) fn row(&self, number: u32, name: &[u8]) -> Option<Option<MemberRow>>
        ensures { result ≡ option_map (λ s. member_among s.fields s.methods name.now) (slice_get (env_of self.now).declared.structs number) }
    {
        match self.declared.structs.get(number as usize) {
            Some(table) => Some(table.member(name)),
            None => None,
        }
    }

    /// What a key wants in a literal of the struct with a number: nothing that is known where the struct has no field of the name.
    pub fn key_wants(&self, number: u32, name: Lexeme) -> Want
        ensures { let fields = calls.fields_of (env_of self.now).declared (Some (Struct number)) in
            result ≡ calls.field_want fields (scope.name_in (source_of self.now) name) }
    {
        wants_as(self.row(number, self.bytes(name)))
    }

    /// A key names a field of the struct with a number; where there is no such struct, each name may be one.
    pub fn is_field(&self, number: u32, name: Lexeme) -> bool
        ensures { let fields = calls.fields_of (env_of self.now).declared (Some (Struct number)) in
            result ≡ calls.is_field fields (scope.name_in (source_of self.now) name) }
    {
        let bytes = self.bytes(name);
        is_field_as(is_blank(bytes), self.row(number, bytes))
    }
    /// A key in a literal of the struct with a number.
    pub fn key(&self, number: u32, name: Lexeme) -> Key
        ensures wants { let fields = calls.fields_of (env_of self.now).declared (Some (Struct number)) in
            result.wants ≡ calls.field_want fields (scope.name_in (source_of self.now) name) }
        ensures is_field { let fields = calls.fields_of (env_of self.now).declared (Some (Struct number)) in
            result.is_field ≡ calls.is_field fields (scope.name_in (source_of self.now) name) }
    {
        Key {
            wants: self.key_wants(number, name),
            is_field: self.is_field(number, name),
        }
    }
}
