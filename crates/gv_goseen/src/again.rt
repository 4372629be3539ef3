//! Names that stand in a list again.

ghost use Rattle.std.specs.Prelude.{◌≡◌, List as Seq, [], ◌∷◌, IfOk};
ghost use Rattle.gv_base.specs.declared.answers.Code.TheVariants.{Twice};
ghost use Rattle.gv_gotypes.specs.Types.{unless};
ghost use Rattle.gv_gotyped.specs.First.{first_of};
ghost use Rattle.gv_goscopes.specs.Called.{keyed_again};
ghost use Rattle.gv_goseen.specs.Seen.{source_of};

use crate::seen::Seen;
use gv_base::{Code, NoMemory};
use gv_gonames::{NameTable, span_of};
use gv_gosyntax::Lexeme;
use gv_gotyped::{Fault, earliest};
use gv_gotypes::Entity;
use std::alloc::Global;

// The fault of a name that isn't new.
fn again_unless(new: bool, start: u32) -> Option<Fault>
    ensures { result ≡ first_of (unless new start Twice) }
{
    if new {
        None
    } else {
        Some(Fault {
            start,
            code: Code::Twice,
        })
    }
}

impl<'a> Seen<'a> {
    /// Of the names in a list that stand before in it too, the fault that is told. It takes memory for the names.
    pub fn first_again(&self, alloc: Global, names: &[Lexeme]) -> Result<Option<Fault>, NoMemory>
        ensures { IfOk result (λ fault. fault ≡ first_of (keyed_again (source_of self.now) [] names.now)) }
    {
        let mut known = NameTable::new(alloc, self.text);
        let mut first = None;
        for name in names {
            let own = Entity::Variable(name.start, None);
            let new = known.add(alloc, span_of(*name), own)?;
            first = earliest(first, again_unless(new, name.start));
        }
        Ok(first)
    }
}
