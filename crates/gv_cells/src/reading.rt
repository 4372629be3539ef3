//! Reading cells.

ghost use Rattle.std.specs.Prelude.{◌≡◌, ◌+◌, ◌≤◌, min, length, OnOk, MatchResult};
ghost use Rattle.gv_base.specs.declared.answer.Answer.TheVariants.{Next, Undefined};
ghost use Rattle.gv_world.specs.Cells as defined;
ghost use Rattle.gv_world.specs.Slices as slices;

use gv_base::{Answer, Reason, SliceVal, Val};
use gv_world::Cell;

/// The place `offset + index` among so many cells, or their end. This project's own.
pub fn place(offset: u64, index: u64, len: usize) -> usize
    ensures { result ≡ min (offset + index) len }
{
    offset.saturating_add(index).min(len as u64) as usize
}

/// The cells from the place `offset + index` on, so many or as many as there are. This project's own.
pub fn run(cells: &[Cell], offset: u64, index: u64, count: u64) -> &[Cell]
    ensures { result.now ≡ defined.run cells.now (offset + index) count }
{
    let rest = &cells[place(offset, index, cells.len())..];
    let count = count.min(rest.len() as u64) as usize;
    &rest[..count]
}

/// Whether a write of one of the cells has begun. This project's own.
pub fn is_marked(cells: &[Cell]) -> bool
    ensures { result ≡ defined.is_marked cells.now }
{
    cells.iter().any(|c| c.marked)
}

/// Whether there are as many cells as wanted and no write of one has begun; else the reason.
/// This project's own.
pub fn unmarked(cells: &[Cell], count: u64) -> Result<(), Reason>
    ensures answer { MatchResult result
        (λ _. defined.unmarked cells.now count ≡ Next cells.now)
        (λ reason. defined.unmarked cells.now count ≡ Undefined reason) }
    ensures enough { OnOk result (count ≤ length cells.now) }
{
    if (cells.len() as u64) < count {
        return Err(Reason::OutOfRange);
    }
    if is_marked(cells) {
        return Err(Reason::Race);
    }
    Ok(())
}

/// Whether each cell holds a byte. This project's own.
pub fn are_bytes(cells: &[Cell]) -> bool
    ensures { result ≡ defined.are_bytes cells.now }
{
    cells.iter().all(|c| byte_in(c.value))
}

/// Whether a value is a byte. This project's own.
pub fn byte_in(value: Val) -> bool
    ensures { result ≡ defined.byte_in value }
{
    matches!(value, Val::Byte(_))
}

/// What a read of the first cell gives; there may be none. This project's own.
pub fn first_read(cells: &[Cell]) -> Answer<Val>
    ensures { result ≡ defined.first_value cells.now }
{
    match cells {
        [cell, ..] => Answer::Next(as_read(cell.value)),
        [] => Answer::Undefined(Reason::OutOfRange),
    }
}

// What a cell with this value gives.
fn as_read(value: Val) -> Val
    ensures { result ≡ defined.as_read value }
{
    match value {
        Val::Byte(b) => Val::Word(b as u64),
        _ => value,
    }
}

/// Copies the bytes that the cells hold. This project's own.
pub fn bytes_into(cells: &[Cell], bytes: &mut [u8])
    requires { length cells.now ≡ length bytes.old }
    ensures { bytes.new ≡ defined.bytes_in cells.now }
{
    for (i, cell) in cells.iter().enumerate() {
        bytes[i] = byte_of(cell.value);
    }
}

// The byte of a value that is one.
fn byte_of(value: Val) -> u8
    ensures { result ≡ defined.byte_of value }
{
    match value {
        Val::Byte(b) => b,
        _ => 0,
    }
}

/// The zero of a value's kind. This project's own.
pub fn zero_like(value: Val) -> Val
    ensures { result ≡ slices.zero_like value }
{
    match value {
        Val::Word(_) => Val::Word(0),
        Val::Byte(_) => Val::Byte(0),
        Val::Bool(_) => Val::Bool(false),
        Val::Ref(_) => Val::Ref(0),
        Val::Slice(_) => Val::Slice(SliceVal {
            object: 0,
            offset: 0,
            length: 0,
            capacity: 0,
        }),
        Val::Unit => Val::Unit,
    }
}
