//! The lists of choices that picks allow, one after another.

ghost use Rattle.std.specs.Prelude.{◌≡◌, ◌↔◌, ◌+◌, ◌<◌, ◌^◌, length, option_map, slice_index, IfOk, IfSome, IsTrue};
ghost use Rattle.gv_atomic.specs.Choices.{limit_of};
ghost use Rattle.gv_atomic.specs.Specification.{ArePicksWithin};
ghost use Rattle.gv_judge.specs.Choosing.{how_many};
ghost use Rattle.gv_judge.specs.Later.{first_list, later_lists, lists_from, raised_list, CanRise};

use gv_base::NoMemory;
use gv_spec::Pick;
use gv_terms::{Binding, Env, TermStore, Value, eval};
use std::alloc::Global;

/// The first list: 0 for each pick.
pub fn first_choices(alloc: Global, picks: &[Pick]) -> Result<Vec<u64>, NoMemory>
    ensures { IfOk result (λ v. v.items ≡ first_list picks.now) }
{
    let mut choices = Vec::new(alloc);
    let mut left = picks;
    while let [_, rest @ ..] = left {
        choices.push(0)?;
        left = rest;
    }
    Ok(choices)
}

/// The list that comes after one, where one does: its last number that can be raised is, and 0 stands for
/// each later pick.
pub fn next_choices(
    alloc: Global,
    store: &TermStore,
    before: Env,
    picks: &[Pick],
    choices: &[u64],
) -> Result<Option<Vec<u64>>, NoMemory>
    requires { ArePicksWithin store.now picks.now }
    ensures { IfOk result (λ o. later_lists store.now before.bindings picks.now choices.now
        ≡ lists_from store.now before.bindings picks.now (option_map (λ v. v.items) o)) }
{
    match last_raised(alloc, store, before, picks, choices)? {
        None => Ok(None),
        Some(at) => Ok(Some(raised(alloc, picks, choices, at)?)),
    }
}

// The last place whose number can be raised.
fn last_raised(
    alloc: Global,
    store: &TermStore,
    before: Env,
    picks: &[Pick],
    choices: &[u64],
) -> Result<Option<usize>, NoMemory>
    requires { ArePicksWithin store.now picks.now }
    ensures lists { IfOk result (λ o. later_lists store.now before.bindings picks.now choices.now
        ≡ lists_from store.now before.bindings picks.now (option_map (raised_list picks.now choices.now) o)) }
    ensures within { IfOk result (λ o. IfSome o (λ at. CanRise picks.now choices.now at)) }
{
    let mut env = before;
    let mut left = picks;
    let mut others = choices;
    let mut at = 0;
    let mut last = None;
    while let [pick, rest @ ..] = left {
        let [choice, more @ ..] = others else {
            return Ok(last);
        };
        if can_rise(alloc, store, &env, pick, *choice)? {
            last = Some(at);
        }
        env.bindings.push(Binding {
            name: pick.name.copy(alloc)?,
            value: Value::Word(*choice),
        })?;
        left = rest;
        others = more;
        at += 1;
    }
    Ok(last)
}

// The bound of a pick.
fn limit(alloc: Global, store: &TermStore, env: &Env, pick: &Pick) -> Result<u64, NoMemory>
    requires { pick.now.bound.id < length store.now }
    ensures { IfOk result (λ n. n ≡ limit_of store.now env.now.bindings pick.now) }
{
    let bound = eval(alloc, store, pick.bound, env)?;
    Ok(bound.word())
}

// Whether a pick may be a greater number.
fn can_rise(
    alloc: Global,
    store: &TermStore,
    env: &Env,
    pick: &Pick,
    choice: u64,
) -> Result<bool, NoMemory>
    requires { pick.now.bound.id < length store.now }
    ensures rises { IfOk result (λ b. IsTrue b ↔ (choice + 1 < how_many (limit_of store.now env.now.bindings pick.now))) }
    ensures word { IfOk result (λ b. IsTrue b → choice + 1 < 2 ^ 64) }
{
    let limit = limit(alloc, store, env, pick)?;
    Ok(limit > 0 && choice < limit - 1)
}

// The list with the number at a place raised, and 0 for each later pick.
fn raised(alloc: Global, picks: &[Pick], choices: &[u64], at: usize) -> Result<Vec<u64>, NoMemory>
    requires { CanRise picks.now choices.now at }
    ensures { IfOk result (λ v. v.items ≡ raised_list picks.now choices.now at) }
{
    let mut next = Vec::new(alloc);
    next.extend_from_slice(&choices[..at])?;
    next.push(choices[at] + 1)?;
    let zeros = first_choices(alloc, &picks[at + 1..])?;
    next.extend_from_slice(zeros.as_slice())?;
    Ok(next)
}
