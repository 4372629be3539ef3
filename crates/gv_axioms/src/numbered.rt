//! The axioms by their numbers.

ghost use Rattle.std.specs.Prelude.{◌≡◌, None, Some, IfSome, IfNone};
ghost use Rattle.gv_axioms.specs.Instances.{numbered};
ghost use Rattle.gv_axioms.specs.Schema.{Axiom as Schema};
ghost use Rattle.gv_axioms.specs.Steps.{IsWritten};

use crate::generated::table::ROWS;
use crate::row::Row;

/// The axiom with a number, of which the first is 1.
pub(crate) fn row_numbered(number: u32) -> Option<Row>
    ensures some { IfSome result (λ r. (a : Schema) × (numbered number ≡ Some a) × IsWritten r a) }
    ensures none { IfNone result (numbered number ≡ None) }
{
    if number == 0 {
        return None;
    }
    match ROWS.get(number as usize - 1) {
        Some(row) => Some(*row),
        None => None,
    }
}
