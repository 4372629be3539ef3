//! Which calls of a history bear the number of an earlier one.

ghost use Rattle.std.specs.Prelude.{◌≡◌, ◌↔◌, ◌++◌, ◌∷◌, [], map, IfOk, IsTrue, List as Lists, OnOk};
ghost use Rattle.gv_spec.specs.declared.entry.Entry.{Entry as HeldEntry};
ghost use Rattle.gv_judge.specs.Repeats.{AreRepeats, AreSeen, IsRepeat};

use gv_base::NoMemory;
use gv_spec::Entry;
use indexmap::IndexSet;
use std::alloc::Global;

/// Of each entry of a history, in their order, whether it is a call under a number that a call before it
/// bears, before a crash too. The walk refuses such a call wherever it stands. This project's own.
pub fn repeats(alloc: Global, history: &[Entry]) -> Result<Vec<bool>, NoMemory>
    ensures { IfOk result (λ v. AreRepeats history.now v.items) }
{
    let mut seen = IndexSet::new(alloc);
    let mut told = Vec::new(alloc);
    let mut left = history;
    while let [entry, rest @ ..] = left {
        told.push(is_repeat(&mut seen, entry)?)?;
        left = rest;
    }
    Ok(told)
}

// Whether an entry is a call under a number that was seen. The number is then seen.
fn is_repeat(seen: &mut IndexSet<u32>, entry: &Entry) -> Result<bool, NoMemory>
    ensures told { IfOk result (λ b. (before : Lists HeldEntry) → AreSeen before seen.old.keys → IsTrue b ↔ IsRepeat before entry.now) }
    ensures seen { OnOk result ((before : Lists HeldEntry) → AreSeen before seen.old.keys → AreSeen (before ++ entry.now ∷ []) seen.new.keys) }
{
    match entry {
        Entry::Call { number, .. } => {
            let is_new = seen.insert(*number)?;
            Ok(!is_new)
        }
        _ => Ok(false),
    }
}
