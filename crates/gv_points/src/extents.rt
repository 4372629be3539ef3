//! How many commands each command has in its blocks.

ghost use Rattle.std.specs.Prelude.{◌≡◌, ◌++◌, ◌<◌, ◌^◌, IfOk, OnOk};
ghost use Rattle.gv_lang.specs.Plain.{tree_of, body_of};
ghost use Rattle.gv_lang.specs.Graph.{size, command_size};
ghost use Rattle.gv_points.specs.Extents.{block_extents, command_extents};

use gv_base::NoMemory;
use gv_lang::{Cmd, Outline};

/// How many commands a command is with those of its blocks, and how many its first block has.
#[derive(Clone, Copy, Drop)]
pub(crate) struct Extent {
    pub whole: u32,
    pub first: u32,
}

/// A command without blocks.
pub(crate) const ALONE: Extent = Extent { whole: 1, first: 0 };

/// Appends the extents of a block's commands, and tells how many commands it has.
#[tactic(auto, using(crate::proofs::Outlines::outlines))]
#[cycle(measure)]
pub(crate) fn measure(out: &mut Vec<Extent>, cs: &[Cmd]) -> Result<u32, NoMemory>
    requires { size (body_of cs.now) < 2 ^ 32 }
    ensures count { IfOk result (λ count. count ≡ size (body_of cs.now)) }
    ensures extents { OnOk result (out.new.items ≡ out.old.items ++ block_extents (body_of cs.now)) }
{
    let mut count = 0;
    let mut rest = cs;
    while let [first, tail @ ..] = rest {
        count += measure_command(out, first)?;
        rest = tail;
    }
    Ok(count)
}

#[tactic(auto, using(crate::proofs::Outlines::outlines))]
#[cycle(measure)]
fn measure_command(out: &mut Vec<Extent>, c: &Cmd) -> Result<u32, NoMemory>
    requires { command_size (tree_of c.now) < 2 ^ 32 }
    ensures count { IfOk result (λ count. count ≡ command_size (tree_of c.now)) }
    ensures extents { OnOk result (out.new.items ≡ out.old.items ++ command_extents (tree_of c.now)) }
{
    let at = out.len();
    out.push(ALONE)?;
    match c.outline() {
        Outline::If(then, other) => {
            let first = measure(out, then)?;
            let whole = first + measure(out, other)? + 1;
            out[at] = Extent { whole, first };
            Ok(whole)
        }
        Outline::Loop(body) => {
            let first = measure(out, body)?;
            let whole = first + 1;
            out[at] = Extent { whole, first };
            Ok(whole)
        }
        _ => Ok(1),
    }
}
