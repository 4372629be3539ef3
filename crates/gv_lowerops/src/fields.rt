//! Fields of structs, with their numbers.

ghost use Rattle.std.specs.Prelude.{◌≡◌};
ghost use Rattle.gv_gotypes.specs.Scopes.{name_in};
ghost use Rattle.gv_gotypes.specs.Members.{base_member};
ghost use Rattle.gv_operands.specs.declared.types.Base.TheVariants.{Struct};
ghost use Rattle.gv_lowerops.specs.Fields.{field_in};

use gv_gosyntax::Lexeme;
use gv_gowalk::Names;
use gv_operands::GoType;

/// A field of a struct: its number among the fields in their order, and its type, if it has one.
#[derive(Clone, Copy)]
pub struct Field {
    pub number: u32,
    pub kind: Option<GoType>,
}

/// What a walk that makes commands asks of the fields of structs.
pub trait Fields: Names {
    /// The field with a name of the struct with a number; none where the name is no field's.
    fn field(&self, number: u32, name: Lexeme) -> Option<Field>
        ensures { result ≡ field_in (base_member (Self.env self.now).declared (Struct number) (name_in (Self.env self.now).source name)) };
}
