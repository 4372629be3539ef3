//! Members of structs as operands.

ghost use Rattle.std.specs.Prelude.{◌≡◌};
ghost use Rattle.gv_goseen.specs.Seen.{member_by};

use gv_gonames::MemberRow;
use gv_gotyped::Member;

/// What is known of a member of a struct as an operand, where there are so many procedures.
pub(crate) fn member_as(procedures: usize, row: Option<MemberRow>) -> Option<Member>
    ensures { result ≡ member_by procedures row }
{
    match row {
        Some(MemberRow::Field(kind)) => Some(Member::Field(kind)),
        Some(MemberRow::Method(number)) => {
            if (number as usize) < procedures {
                Some(Member::Other)
            } else {
                None
            }
        }
        None => None,
    }
}
