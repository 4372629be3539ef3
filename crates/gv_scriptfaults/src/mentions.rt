//! Names that are used.

ghost use Rattle.std.specs.Prelude.{◌≡◌, ℕ, List, Option as Maybe, option_map, length, OnOk};
ghost use Rattle.gv_lang.specs.declared.program.Program.{Program};
ghost use Rattle.gv_atomic.specs.declared.spec.Op.{Op};
ghost use Rattle.gv_atomic.specs.declared.spec.Spec.{Spec};
ghost use Rattle.gv_scriptnames.specs.Found.{of_op_mention, of_pred};
ghost use Rattle.gv_scriptnames.specs.Scopes.{Shape};
ghost use Rattle.gv_scriptfaults.specs.Least.{after};
ghost use Rattle.gv_scriptfaults.specs.Noted.{AreMentions, IsMention};
ghost use Rattle.gv_scriptfaults.specs.Scoped.{params_of};

use crate::least::{note, want};
use crate::names::{NameSet, name_of};
use crate::scoped::{Known, Outside, Params};
use crate::words::is_constant;
use gv_base::{Code, NoMemory};
use gv_scriptnames::Mention;
use gv_termread::SeenToken;
use gv_typing::Fault;
use std::alloc::Global;

// A predicate with so many terms.
fn note_pred(params: Option<Params>, t: SeenToken, count: u64, first: &mut Option<Fault>)
    ensures { (text : List ℕ) (spec : Spec) (program : Program) (found : Maybe Shape) → params ≡ option_map params_of found
        → first.new ≡ after first.old (of_pred text spec program t count found) }
{
    match params {
        None => note(first, t.start, Code::Undeclared),
        Some(params) => want(count == params.count, first, t.start, Code::WrongCount),
    }
}

// An operation with so many arguments, behind the word `token`.
fn note_op(
    params: Option<u64>,
    word: SeenToken,
    t: SeenToken,
    count: u64,
    first: &mut Option<Fault>,
)
    ensures { (text : List ℕ) (spec : Spec) (program : Program) (found : Maybe Op) → params ≡ option_map (λ o. length o.params) found
        → first.new ≡ after first.old (of_op_mention text spec program word t count found) }
{
    match params {
        None => note(first, t.start, Code::Undeclared),
        Some(params) => want(count == params, first, word.start, Code::WrongCount),
    }
}

/// Notes the fault of a name that is used.
pub fn note_mention(
    alloc: Global,
    text: &[u8],
    known: &Known,
    outside: &Outside,
    cuts: &NameSet,
    mention: Mention,
    first: &mut Option<Fault>,
) -> Result<(), NoMemory>
    ensures { OnOk result (IsMention text.now known.now outside.now cuts.now mention first.old first.new) }
{
    match mention {
        Mention::Pred(t, count) => {
            let name = name_of(alloc, text, t)?;
            note_pred(outside.preds.get(&name), t, count, first);
        }
        Mention::Cell(t) => {
            let name = name_of(alloc, text, t)?;
            want(known.cells.has(&name), first, t.start, Code::Undeclared);
        }
        Mention::Field(t) => {
            let name = name_of(alloc, text, t)?;
            want(known.fields.has(&name), first, t.start, Code::Undeclared);
        }
        Mention::Book(t) => {
            let name = name_of(alloc, text, t)?;
            want(outside.books.has(&name), first, t.start, Code::Undeclared);
        }
        Mention::Op(word, t, count) => {
            let name = name_of(alloc, text, t)?;
            note_op(known.ops.get(&name), word, t, count, first);
        }
        Mention::Bound(t) => want(!is_constant(t), first, t.start, Code::Twice),
        Mention::Cut(t) => {
            let name = name_of(alloc, text, t)?;
            want(cuts.has(&name), first, t.start, Code::Undeclared);
        }
    }
    Ok(())
}

/// Notes the faults of names that are used.
pub fn note_mentions(
    alloc: Global,
    text: &[u8],
    known: &Known,
    outside: &Outside,
    cuts: &NameSet,
    mentions: &[Mention],
    first: &mut Option<Fault>,
) -> Result<(), NoMemory>
    ensures { OnOk result (AreMentions text.now known.now outside.now cuts.now mentions.now first.old first.new) }
{
    for mention in mentions {
        note_mention(alloc, text, known, outside, cuts, *mention, first)?;
    }
    Ok(())
}
