//! Names that are declared.

ghost use Rattle.std.specs.Prelude.{◌∷◌, [], OnOk};
ghost use Rattle.gv_scriptnames.specs.Names.{names_of};
ghost use Rattle.gv_scriptfaults.specs.Noted.{AreAdded, AreDeclared};

use crate::least::want;
use crate::names::{NameSet, name_of};
use crate::words::is_constant;
use gv_base::{Code, NoMemory};
use gv_scriptsyntax::Par;
use gv_termread::SeenToken;
use gv_typing::Fault;
use std::alloc::Global;

/// Notes a name that is a constant of terms, or in one of the two sets, and adds it to the second.
pub fn declare(
    alloc: Global,
    text: &[u8],
    outer: &NameSet,
    own: &mut NameSet,
    t: SeenToken,
    first: &mut Option<Fault>,
) -> Result<(), NoMemory>
    ensures noted { OnOk result (AreDeclared text.now outer.now own.old (t ∷ []) first.old first.new) }
    ensures added { OnOk result (AreAdded text.now own.old (t ∷ []) own.new) }
{
    let name = name_of(alloc, text, t)?;
    want(!is_constant(t), first, t.start, Code::Twice);
    let outside = outer.has(&name);
    let inside = own.has(&name);
    want(!(outside || inside), first, t.start, Code::Twice);
    own.add(name)
}

/// The same of several names, one after another.
pub fn declare_all(
    alloc: Global,
    text: &[u8],
    outer: &NameSet,
    own: &mut NameSet,
    ts: &[SeenToken],
    first: &mut Option<Fault>,
) -> Result<(), NoMemory>
    ensures noted { OnOk result (AreDeclared text.now outer.now own.old ts.now first.old first.new) }
    ensures added { OnOk result (AreAdded text.now own.old ts.now own.new) }
{
    for t in ts {
        declare(alloc, text, outer, own, *t, first)?;
    }
    Ok(())
}

/// The same of the names of parameters and variables.
pub fn declare_pars(
    alloc: Global,
    text: &[u8],
    outer: &NameSet,
    own: &mut NameSet,
    ps: &[Par],
    first: &mut Option<Fault>,
) -> Result<(), NoMemory>
    ensures noted { OnOk result (AreDeclared text.now outer.now own.old (names_of ps.now) first.old first.new) }
    ensures added { OnOk result (AreAdded text.now own.old (names_of ps.now) own.new) }
{
    for p in ps {
        declare(alloc, text, outer, own, p.name, first)?;
    }
    Ok(())
}
