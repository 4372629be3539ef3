//! Texts that are written as parts, each with how many times it stands there.

use anyhow::{Context, Result, bail};
use std::alloc::Global;

/// The most bytes of a text.
pub(crate) const MOST: usize = 1 << 24;

fn push_times(text: &mut String, part: &str, times: u32) -> Result<()> {
    for _ in 0..times {
        if text.len() > MOST {
            bail!("a text of more than {MOST} bytes");
        }
        text.push_str(part)?;
    }
    Ok(())
}

/// The text that is written so, which is itself where it has one part.
pub(crate) fn written_out(alloc: Global, said: &str) -> Result<String> {
    let mut text = String::new(alloc);
    if !said.contains(" @ ") {
        text.push_str(said)?;
        return Ok(text);
    }
    for part in said.split(" @ ") {
        let (times, part) = part.split_once(' ').context("no part")?;
        let times = times
            .parse::<u32>()
            .context("how many times a part stands")?;
        push_times(&mut text, part, times)?;
    }
    Ok(text)
}
