//! Moves as an account of lines.

ghost use Rattle.std.specs.Prelude.{◌≡◌, IfOk};
ghost use Rattle.gv_replay.specs.Meaning as meaning;

use crate::account::Account;
use crate::line::Line;
use crate::meaning::move_in;
use crate::operations::Operations;
use gv_atomic::Spec;
use gv_base::{List, NoMemory};
use gv_spec::Move;
use gv_text::Stop;
use std::alloc::Global;

impl Account for List<Move> {
    ghost with_line = { meaning.with_moves };

    fn add(
        self,
        alloc: Global,
        spec: &Spec,
        table: &Operations,
        line: &Line,
    ) -> Result<List<Move>, Stop> {
        let told = move_in(alloc, spec, table, line)?;
        Ok(with_move(self, told)?)
    }
}

fn with_move(moves: List<Move>, told: Option<Move>) -> Result<List<Move>, NoMemory>
    ensures { IfOk result (λ ms. ms ≡ meaning.with_move moves told) }
{
    let mut moves = moves;
    if let Some(told) = told {
        moves.push(told)?;
    }
    Ok(moves)
}
