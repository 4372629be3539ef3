//! Moves of explanations as lines.

ghost use Rattle.std.specs.Prelude.{◌≡◌, ◌++◌, OnOk, IfOk};
ghost use Rattle.gv_lines.specs.Moves as lines;
ghost use Rattle.gv_spec.specs.declared.explanation.Move.TheVariants as move;

use crate::entries::entry_line;
use crate::values::push_word;
use gv_base::{List, Name, NoMemory};
use gv_spec::{Move, Spec};
use std::alloc::Global;

fn push_choices(alloc: Global, out: &mut Vec<u8>, choices: &[u64]) -> Result<(), NoMemory>
    ensures { OnOk result (out.new.items ≡ out.old.items ++ lines.choices_text choices.now) }
{
    for choice in choices {
        push_word(alloc, out, *choice)?;
    }
    Ok(())
}

fn act_line(alloc: Global, spec: &Spec, number: u32, choices: &List<u64>) -> Result<Name, NoMemory>
    ensures { IfOk result (λ line. line ≡ lines.move_line spec.now (move.Act number choices.now)) }
{
    let start = format!(in alloc; "act {}", number)?;
    let mut line = Vec::from_slice(alloc, start.as_bytes())?;
    push_choices(alloc, &mut line, choices.as_slice())?;
    Name::from_vec(alloc, line)
}

fn boot_line(alloc: Global, spec: &Spec, choices: &List<u64>) -> Result<Name, NoMemory>
    ensures { IfOk result (λ line. line ≡ lines.move_line spec.now (move.Boot choices.now)) }
{
    let mut line = Vec::from_slice(alloc, b"boot")?;
    push_choices(alloc, &mut line, choices.as_slice())?;
    Name::from_vec(alloc, line)
}

/// A move of an explanation as the line of a list of moves that tells it, without its newline: `act K C C` and `boot C C` with
/// the choices in decimal, and an entry of the history as `entry_line` has it. This project's own.
pub fn move_line(alloc: Global, spec: &Spec, m: &Move) -> Result<Name, NoMemory>
    ensures { IfOk result (λ line. line ≡ lines.move_line spec.now m.now) }
{
    match m {
        Move::Act { number, choices } => act_line(alloc, spec, *number, choices),
        Move::Boot { choices } => boot_line(alloc, spec, choices),
        Move::Other(entry) => entry_line(alloc, spec, entry),
    }
}

/// The lines of moves in order.
pub fn move_lines(alloc: Global, spec: &Spec, moves: &[Move]) -> Result<Vec<Name>, NoMemory>
    ensures { IfOk result (λ made. made.items ≡ lines.move_lines spec.now moves.now) }
{
    let mut made = Vec::new(alloc);
    for m in moves {
        made.push(move_line(alloc, spec, m)?)?;
    }
    Ok(made)
}
