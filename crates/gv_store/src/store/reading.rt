//! Reading cells of a store.

ghost use Rattle.std.specs.Prelude.{◌≡◌, ◌+◌, [], length, IfOk, MatchResult, nat_eq, if◌then◌else◌};
ghost use Rattle.gv_base.specs.declared.answer.Answer.TheVariants.{Next, Undefined};
ghost use Rattle.gv_words.specs.Words.{un64};
ghost use Rattle.gv_world.specs.Answers.{and_then};
ghost use Rattle.gv_world.specs.Cells as defined;
ghost use Rattle.gv_world.specs.Slices as slices;
ghost use Rattle.gv_cells.specs.Outcomes.{Reads};

use crate::access::{bytes_at, is_byte_at, value_at, word_of};
use crate::store::Store;
use gv_base::{Answer, NoMemory, Reason, SliceVal, Val};
use gv_cells::{byte_in, bytes_into, run, unmarked};
use gv_world::Cell;
use std::alloc::Global;

impl Store {
    /// The value of a cell, a byte as a word.
    pub fn read_cell(&self, object: u32, index: u64) -> Answer<Val>
        ensures { result ≡ defined.read_cell self.now object index }
    {
        self.read_at(object, index, 0)
    }

    /// The value of the item of a slice with a number from 0 on, whatever its length.
    pub fn read_item(&self, slice: SliceVal, index: u64) -> Answer<Val>
        ensures { result ≡ defined.read_cell self.now slice.object (slice.offset + index) }
    {
        self.read_at(slice.object, slice.offset, index)
    }

    // The value of the cell at the place `offset + index`.
    fn read_at(&self, object: u32, offset: u64, index: u64) -> Answer<Val>
        ensures { result ≡ defined.read_cell self.now object (offset + index) }
    {
        match self.cells_of(object) {
            Ok(cells) => value_at(cells, offset, index),
            Err(reason) => Answer::Undefined(reason),
        }
    }

    /// The word of a slice's first 8 bytes, the lowest first, whatever its length.
    pub fn read_word(&self, slice: SliceVal) -> Answer<u64>
        ensures { result ≡ and_then (defined.read_bytes self.now slice.object slice.offset 8) (λ bytes. Next (un64 bytes)) }
    {
        match self.found_bytes(slice, 8) {
            Ok(found) => {
                let mut bytes = [0; 8];
                bytes_into(found, &mut bytes);
                Answer::Next(word_of(bytes))
            }
            Err(reason) => Answer::Undefined(reason),
        }
    }

    /// The bytes of a slice; one without cells has none, whatever its object.
    pub fn slice_bytes(&self, alloc: Global, slice: SliceVal) -> Result<Answer<Vec<u8>>, NoMemory>
        ensures { let read = defined.read_bytes self.now slice.object slice.offset slice.length in
            IfOk result (λ answer. Reads (if nat_eq slice.length 0 then Next [] else read) answer) }
    {
        if slice.length == 0 {
            return Ok(Answer::Next(Vec::new(alloc)));
        }
        match self.found_bytes(slice, slice.length) {
            Ok(found) => Ok(Answer::Next(copied_bytes(alloc, found)?)),
            Err(reason) => Ok(Answer::Undefined(reason)),
        }
    }

    // So many cells of a slice's object from its offset on, where they hold bytes.
    fn found_bytes(&self, slice: SliceVal, count: u64) -> Result<&[Cell], Reason>
        ensures answer { MatchResult result
            (λ found. defined.read_bytes self.now slice.object slice.offset count ≡ Next (defined.bytes_in found.now))
            (λ reason. defined.read_bytes self.now slice.object slice.offset count ≡ Undefined reason) }
        ensures whole { IfOk result (λ found. length found.now ≡ count) }
    {
        bytes_at(self.cells_of(slice.object)?, slice.offset, count)
    }

    /// Whether there is a cell and it holds a byte, marked or not.
    pub fn is_byte(&self, object: u32, index: u64) -> bool
        ensures { result ≡ defined.is_byte self.now object index }
    {
        self.is_byte_from(object, index, 0)
    }

    // The same of the place `offset + index`.
    fn is_byte_from(&self, object: u32, offset: u64, index: u64) -> bool
        ensures { result ≡ defined.is_byte self.now object (offset + index) }
    {
        match self.cells_of(object) {
            Ok(cells) => is_byte_at(cells, offset, index),
            Err(_) => false,
        }
    }

    /// Whether an append of the item writes into a spare cell: the slice has one, and it holds a byte
    /// exactly where the item is one.
    pub fn has_spare(&self, slice: SliceVal, item: Val) -> bool
        ensures { result ≡ slices.has_spare self.now slice item }
    {
        slice.length < slice.capacity
            && self.is_byte_from(slice.object, slice.offset, slice.length) == byte_in(item)
    }

    // The cells of a slice for reading; one without cells reads none, whatever its object.
    pub(super) fn slice_cells(&self, slice: SliceVal) -> Result<&[Cell], Reason>
        ensures answer { MatchResult result
            (λ cells. slices.slice_cells self.now slice ≡ Next cells.now)
            (λ reason. slices.slice_cells self.now slice ≡ Undefined reason) }
        ensures whole { IfOk result (λ cells. length cells.now ≡ slice.length) }
    {
        if slice.length == 0 {
            return Ok(&[]);
        }
        let cells = self.cells_of(slice.object)?;
        let found = run(cells, slice.offset, 0, slice.length);
        unmarked(found, slice.length)?;
        Ok(found)
    }
}

// The bytes that the cells hold.
fn copied_bytes(alloc: Global, cells: &[Cell]) -> Result<Vec<u8>, NoMemory>
    ensures { IfOk result (λ v. v.items ≡ defined.bytes_in cells.now) }
{
    let mut bytes = vec![in alloc; 0; cells.len()]?;
    bytes_into(cells, bytes.as_mut_slice());
    Ok(bytes)
}
