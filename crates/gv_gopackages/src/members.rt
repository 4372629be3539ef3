//! Members by their names.

ghost use Rattle.std.specs.Prelude.{◌≡◌};
ghost use Rattle.gv_gotypes.specs.Members as members;
ghost use Rattle.gv_gotyped.specs.Parts.{IsMember};
ghost use Rattle.gv_goscopes.specs.Called.{IsCalled};
ghost use Rattle.gv_gopackages.specs.Rows.{called_by, member_by};

use crate::rows::{Row, library_row, mutex_row};
use gv_goscopes::Called;
use gv_gotyped::Member;
use gv_gotypes::Library;

// What is called, and a type, are no operands.
fn member_as(row: Option<Row>) -> Option<Member>
    ensures { result ≡ member_by row }
{
    match row {
        Some(Row::Constant(class)) => Some(Member::Value(Some(class))),
        Some(Row::Called(_)) => Some(Member::Other),
        Some(Row::TypeName) => Some(Member::Other),
        None => None,
    }
}

fn called_as(row: Option<Row>) -> Option<Called<'static>>
    ensures { result ≡ called_by row }
{
    match row {
        Some(Row::Constant(_)) => Some(Called::Other),
        Some(Row::Called(signature)) => Some(Called::By(signature)),
        Some(Row::TypeName) => Some(Called::Other),
        None => None,
    }
}

/// The member of a package with a name, as an operand.
pub fn library_member(library: Library, name: &[u8]) -> Option<Member>
    ensures { IsMember result (members.library_member library name.now) }
{
    member_as(library_row(library, name))
}

/// The member of a package with a name, where it is called.
pub fn called_of_library(library: Library, name: &[u8]) -> Option<Called<'static>>
    ensures { IsCalled result (members.library_member library name.now) }
{
    called_as(library_row(library, name))
}

/// What stands behind a point after a pointer to a mutex, as an operand: its methods are none.
#[tactic(auto, using(crate::proofs::RowLemmas::member_rows))]
pub fn mutex_member(name: &[u8]) -> Option<Member>
    ensures { IsMember result (members.listed members.mutex_members name.now) }
{
    member_as(mutex_row(name))
}

/// The same where it is called.
#[tactic(auto, using(crate::proofs::RowLemmas::called_rows))]
pub fn called_of_mutex(name: &[u8]) -> Option<Called<'static>>
    ensures { IsCalled result (members.listed members.mutex_members name.now) }
{
    called_as(mutex_row(name))
}
