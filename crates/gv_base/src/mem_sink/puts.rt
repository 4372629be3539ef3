//! What a sink in memory is made with, and what it does.

ghost use Rattle.std.specs.Prelude.{◌≡◌, ◌++◌, [], IfOk, Some};
ghost use Rattle.gv_base.specs.Outside.{Put, PutCause};
ghost use Rattle.gv_base.specs.Memory.{room_of, puts_to_fail, puts, counted, put_prefix, IsPutAsListed, IsFaultAsPut};

use super::MemSink;
use crate::answers::NoMemory;
use crate::list::List;
use crate::outside::{PutFail, Sink};
use std::alloc::Global;

impl MemSink {
    /// A sink with room for `room` bytes, where nothing is written yet, which fails at the puts with
    /// these numbers, counted from 1.
    pub fn new(alloc: Global, room: u64, fails: List<u64>) -> Result<MemSink, NoMemory>
        ensures empty { IfOk result (λ s. ⟦<MemSink as Sink>⟧.written s ≡ Some []) }
        ensures no_fault { IfOk result (λ s. ⟦<MemSink as Sink>⟧.faults s ≡ 0) }
        ensures given { IfOk result (λ s. (room_of s ≡ room) × (puts_to_fail s ≡ fails)) }
        ensures no_call { IfOk result (λ s. puts s ≡ 0) }
    {
        Ok(MemSink {
            bytes: Vec::with_capacity(alloc, room as usize)?,
            room,
            fails,
            calls: 0,
            faults: 0,
        })
    }

    /// The bytes that are written.
    pub fn written(&self) -> &Vec<u8>
        ensures { ⟦<MemSink as Sink>⟧.written self.now ≡ Some result.now.items }
    {
        &self.bytes
    }
}

impl Sink for MemSink {
    ghost written = { λ s. Some s.bytes.items };

    ghost faults = { λ s. s.faults };

    fn put(&mut self, piece: &[u8]) -> Result<(), PutFail>
        ensures bytes { Put (Some self.old.bytes.items) piece.now (Some self.new.bytes.items) result }
        ensures cause { PutCause self.old.faults self.new.faults result }
        ensures exact { IsPutAsListed self.old piece.now result }
        ensures prefix { self.new.bytes.items ≡ self.old.bytes.items ++ put_prefix self.old piece.now }
        ensures fault { IsFaultAsPut self.old self.new result }
        ensures given { (room_of self.new ≡ room_of self.old) × (puts_to_fail self.new ≡ puts_to_fail self.old) }
        ensures call { puts self.new ≡ counted (puts self.old) }
    {
        self.calls = self.calls.saturating_add(1);
        let left = self.room as usize - self.bytes.len();
        if self.fails.as_slice().contains(&self.calls) {
            self.faults = self.faults.saturating_add(1);
            return Err(PutFail::Failed);
        }
        if piece.len() > left {
            self.bytes.extend_from_slice(&piece[..left]).unwrap();
            self.faults = self.faults.saturating_add(1);
            return Err(PutFail::Failed);
        }
        self.bytes.extend_from_slice(piece).unwrap();
        Ok(())
    }
}
