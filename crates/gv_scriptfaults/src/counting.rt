//! How many points a procedure has.

ghost use Rattle.std.specs.Prelude.{◌≡◌, ◌+◌, ◌-◌, ◌^◌, ◌<◌, min, MatchOption};
ghost use Rattle.gv_lang.specs.Plain.{tree_of, body_of};
ghost use Rattle.gv_lang.specs.Graph.{size, command_size};

use gv_lang::{Cmd, Outline};

// What is left of some room after the commands of a block; none where they are more.
#[tactic(auto, using(crate::proofs::Sizes::sizes))]
#[cycle(room)]
fn left_after(cs: &[Cmd], room: u64) -> Option<u64>
    ensures { MatchOption result (room < size (body_of cs.now)) (λ left. left + size (body_of cs.now) ≡ room) }
{
    let mut rest = cs;
    let mut left = room;
    while let [first, tail @ ..] = rest {
        let Some(less) = left_after_command(first, left) else {
            return None;
        };
        left = less;
        rest = tail;
    }
    Some(left)
}

#[tactic(auto, using(crate::proofs::Sizes::sizes))]
#[cycle(room)]
fn left_after_command(c: &Cmd, room: u64) -> Option<u64>
    ensures { MatchOption result (room < command_size (tree_of c.now)) (λ left. left + command_size (tree_of c.now) ≡ room) }
{
    if room == 0 {
        return None;
    }
    match c.outline() {
        Outline::If(then, other) => {
            let Some(left) = left_after(then, room - 1) else {
                return None;
            };
            left_after(other, left)
        }
        Outline::Loop(body) => left_after(body, room - 1),
        _ => Some(room - 1),
    }
}

/// How many points the commands of a procedure are, at most those that u64 can number.
pub fn points_of(cs: &[Cmd]) -> u64
    ensures { result ≡ min (size (body_of cs.now)) (2 ^ 64 - 1) }
{
    match left_after(cs, u64::MAX) {
        None => u64::MAX,
        Some(left) => u64::MAX - left,
    }
}
