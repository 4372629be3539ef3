//! Accesses to the cells of one object.

ghost use Rattle.std.specs.Prelude.{◌≡◌, ◌+◌, ◌≤◌, map, length, IfOk, MatchResult};
ghost use Rattle.gv_base.specs.declared.answer.Answer.TheVariants.{Next, Undefined};
ghost use Rattle.gv_base.specs.declared.val.Val.TheVariants as val;
ghost use Rattle.gv_words.specs.Words.{le64, un64};
ghost use Rattle.gv_world.specs.Answers.{and_then, undefined_if};
ghost use Rattle.gv_world.specs.Cells as defined;
ghost use Rattle.gv_store.specs.Reaching.{found_bytes};

use gv_base::{Answer, Reason, Val};
use gv_cells::{are_bytes, first_read, run, unmarked};
use gv_world::Cell;

/// The value of the cell at the place `offset + index`. This project's own.
pub fn value_at(cells: &[Cell], offset: u64, index: u64) -> Answer<Val>
    ensures { result ≡ and_then (defined.unmarked (defined.run cells.now (offset + index) 1) 1) defined.first_value }
{
    let found = run(cells, offset, index, 1);
    match unmarked(found, 1) {
        Ok(()) => first_read(found),
        Err(reason) => Answer::Undefined(reason),
    }
}

/// So many cells from a place on, where they hold bytes and no write of one has begun; else the reason.
/// This project's own.
pub fn bytes_at(cells: &[Cell], offset: u64, count: u64) -> Result<&[Cell], Reason>
    ensures answer { MatchResult result
        (λ found. found_bytes cells.now offset count ≡ Next found.now)
        (λ reason. found_bytes cells.now offset count ≡ Undefined reason) }
    ensures whole { IfOk result (λ found. length found.now ≡ count) }
{
    let found = run(cells, offset, 0, count);
    if !are_bytes(found) {
        return Err(Reason::Kind);
    }
    unmarked(found, count)?;
    Ok(found)
}

/// Whether there is a cell at the place `offset + index` and it holds a byte. This project's own.
pub fn is_byte_at(cells: &[Cell], offset: u64, index: u64) -> bool
    ensures { result ≡ defined.byte_at (Next cells.now) (offset + index) }
{
    let found = run(cells, offset, index, 1);
    found.len() == 1 && are_bytes(found)
}

/// A word's 8 bytes as items, the lowest first. This project's own.
#[tactic(auto, unfolding(gv_words::specs::Words::le64))]
pub fn word_items(a: u64) -> [Val; 8]
    ensures { result ≡ map val.Word (le64 a) }
{
    let b = a / 256;
    let c = b / 256;
    let d = c / 256;
    let e = d / 256;
    let f = e / 256;
    let g = f / 256;
    let h = g / 256;
    [
        Val::Word(a % 256),
        Val::Word(b % 256),
        Val::Word(c % 256),
        Val::Word(d % 256),
        Val::Word(e % 256),
        Val::Word(f % 256),
        Val::Word(g % 256),
        Val::Word(h % 256),
    ]
}

/// The word of 8 bytes, the lowest first. This project's own.
pub fn word_of(bytes: [u8; 8]) -> u64
    ensures { result ≡ un64 bytes }
{
    u64::from_le_bytes(bytes)
}
