//! Long histories with their moves.

use anyhow::Result;
use std::alloc::Global;

/// A history and moves, as texts.
#[derive(Drop)]
pub(crate) struct Pair {
    pub history: String,
    pub moves: String,
}

fn add_both(pair: &mut Pair, line: &str) -> Result<()> {
    pair.history.push_str(line)?;
    pair.moves.push_str(line)?;
    Ok(())
}

/// One call of `Inc` after another: each is answered before the next one starts.
pub(crate) fn many_calls(alloc: Global, count: u32) -> Result<Pair> {
    let mut pair = Pair {
        history: String::new(alloc),
        moves: String::new(alloc),
    };
    add_both(&mut pair, "boot\n")?;
    for n in 0..count {
        add_both(&mut pair, format!(in alloc; "call {n} Inc\n")?.as_str())?;
        pair.moves
            .push_str(format!(in alloc; "act {n}\n")?.as_str())?;
        add_both(&mut pair, format!(in alloc; "answer {n} {n}\n")?.as_str())?;
    }
    Ok(pair)
}

/// Calls that stay in the table over crashes until the next boot, and the last of them acts.
pub(crate) fn many_boots(alloc: Global, count: u32) -> Result<Pair> {
    let mut pair = Pair {
        history: String::new(alloc),
        moves: String::new(alloc),
    };
    for n in 0..count {
        add_both(&mut pair, "boot\n")?;
        add_both(&mut pair, format!(in alloc; "call {n} Inc\n")?.as_str())?;
        add_both(&mut pair, "crash\n")?;
    }
    let last = count.saturating_sub(1);
    pair.moves
        .push_str(format!(in alloc; "act {last}\n")?.as_str())?;
    Ok(pair)
}
