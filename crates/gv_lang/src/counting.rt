//! How many commands there are.

ghost use Rattle.std.specs.Prelude.{◌≡◌, ◌+◌, ◌<◌, sum, map, MatchOption};
ghost use Rattle.gv_lang.specs.Plain.{tree_of, body_of, proc_of};
ghost use Rattle.gv_lang.specs.Graph.{size, command_size};

use crate::cmd::Cmd;
use crate::outline::Outline;
use crate::program::Proc;

/// What is left of some room after the commands of a block; none where they are more.
#[tactic(auto, using(crate::proofs::Outlines::outlines))]
#[cycle(room)]
fn left_after(cs: &[Cmd], room: u32) -> Option<u32>
    ensures { MatchOption result (room < size (body_of cs.now)) (λ left. left + size (body_of cs.now) ≡ room) }
{
    let mut rest = cs;
    let mut left = room;
    while let [first, tail @ ..] = rest {
        let Some(less) = left_after_command(first, left) else {
            return None;
        };
        left = less;
        rest = tail;
    }
    Some(left)
}

#[tactic(auto, using(crate::proofs::Outlines::outlines))]
#[cycle(room)]
fn left_after_command(c: &Cmd, room: u32) -> Option<u32>
    ensures { MatchOption result (room < command_size (tree_of c.now)) (λ left. left + command_size (tree_of c.now) ≡ room) }
{
    if room == 0 {
        return None;
    }
    match c.outline() {
        Outline::If(then, other) => {
            let Some(left) = left_after(then, room - 1) else {
                return None;
            };
            left_after(other, left)
        }
        Outline::Loop(body) => left_after(body, room - 1),
        _ => Some(room - 1),
    }
}

/// What is left of some room after the commands of all procedures; none where they are more.
pub fn left_after_all(procs: &[Proc], room: u32) -> Option<u32>
    ensures { let count = sum (map (λ p. size (body_of p.body)) procs.now) in MatchOption result (room < count) (λ left. left + count ≡ room) }
{
    let mut rest = procs;
    let mut left = room;
    while let [first, tail @ ..] = rest {
        let Some(less) = left_after(first.body.as_slice(), left) else {
            return None;
        };
        left = less;
        rest = tail;
    }
    Some(left)
}
