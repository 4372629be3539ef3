//! Judges one history many times, for bench/judge to time: judge_bench ENTRIES CALLS TIMES MOST.
//!
//! The history is that of a counter: a boot, and then rounds of so many calls at a time, which answer as calls do that acted in the
//! reverse order, up to so many entries. It is judged so many times, within so many nodes each time; the answer is printed.
#![tactic(auto)]

ghost use Rattle.std.specs.Prelude.{◌<◌, ◌≤◌, ◌-◌, ◌^◌, All, IfOk, length};
ghost use Rattle.gv_spec.specs.History.{IsEntryOf};

use anyhow::{Result, bail};
use gv_judge::{Judged, judge};
use gv_replay::read_history;
use gv_spec::Entry;
use gv_specs::{Spec, read_spec};
use std::alloc::Global;
use std::env;

const COUNTER: &str =
    "spec counter; disks 0; field n : Word = 0; op Inc() -> Word { n := n + 1; reply n; } crash { }";

fn counter(alloc: Global) -> Result<Spec> {
    if COUNTER.len() >= u32::MAX as usize {
        bail!("a text too long");
    }
    match read_spec(alloc, COUNTER.as_bytes()) {
        Ok(spec) => Ok(spec),
        Err(_) => bail!("a specification that is refused"),
    }
}

// A round of calls from a number on, the last of which acted first.
fn push_round(alloc: Global, text: &mut String, first: u64, calls: u64) -> Result<()> {
    for at in 0..calls {
        let number = first.wrapping_add(at);
        text.push_str(format!(in alloc; "call {number} Inc\n")?.as_str())?;
    }
    for at in 0..calls {
        let number = first.wrapping_add(at);
        let reply = first.wrapping_add(calls - 1 - at);
        text.push_str(format!(in alloc; "answer {number} {reply}\n")?.as_str())?;
    }
    Ok(())
}

fn text_of(alloc: Global, entries: u64, calls: u64) -> Result<String> {
    if calls < 1 || calls > 100 {
        bail!("calls at a time from 1 to 100");
    }
    let mut text = String::new(alloc);
    text.push_str("boot\n")?;
    for round in 0..entries / (2 * calls) {
        push_round(alloc, &mut text, round.wrapping_mul(calls), calls)?;
    }
    Ok(text)
}

fn history_of(alloc: Global, spec: &Spec, entries: u64, calls: u64) -> Result<Vec<Entry>>
    ensures entries { IfOk result (λ v. All (IsEntryOf spec.now) v.items) }
    ensures few { IfOk result (λ v. length v.items < 2 ^ 31 - 1) }
{
    let text = text_of(alloc, entries, calls)?;
    if text.len() >= u32::MAX as usize {
        bail!("a text too long");
    }
    match read_history(alloc, text.as_bytes(), spec) {
        Ok(history) if history.len() < i32::MAX as usize => Ok(history),
        _ => bail!("a history that is refused"),
    }
}

fn judged(
    alloc: Global,
    spec: &Spec,
    history: &Vec<Entry>,
    times: u64,
    most: u64,
) -> Result<&'static str>
    requires few { length history.now.items < 2 ^ 31 - 1 }
    requires entries { All (IsEntryOf spec.now) history.now.items }
{
    if most < 1 {
        bail!("no nodes");
    }
    let mut answer = "nothing";
    for _ in 0..times {
        answer = match judge(alloc, spec, history, most)? {
            Judged::Yes { .. } => "yes",
            Judged::No => "no",
            Judged::Spent => "spent",
        };
    }
    Ok(answer)
}

fn number(word: Option<String>) -> Result<u64> {
    let Some(word) = word else {
        bail!("judge_bench ENTRIES CALLS TIMES MOST");
    };
    Ok(word.as_str().parse::<u64>()?)
}

fn main(rt: HostRuntime) -> Result<()> {
    let alloc = rt.alloc();
    let mut words = env::args(&rt)?.skip(1);
    let entries = number(words.next())?;
    let calls = number(words.next())?;
    let times = number(words.next())?;
    let most = number(words.next())?;
    let spec = counter(alloc)?;
    let history = history_of(alloc, &spec, entries, calls)?;
    let answer = judged(alloc, &spec, &history, times, most)?;
    let length = history.len();
    println!(&rt; "{length} entries: {answer}")?;
    Ok(())
}
