//! The disks of a store.

ghost use Rattle.std.specs.Prelude.{◌≡◌, ◌<◌, ◌≤◌, length, slice_get, slice_index_or, IfOk, IfErr, OnOk, MatchResult};
ghost use Rattle.std.specs.List.{list_any};
ghost use Rattle.gv_base.specs.declared.answer.Answer.TheVariants.{Next, Undefined};
ghost use Rattle.gv_world.specs.Disks as disks_of;
ghost use Rattle.gv_world.specs.Store as world;
ghost use Rattle.gv_cells.specs.Outcomes.{Does};
ghost use Rattle.gv_store.specs.Growing.{GivesWithin};
ghost use Rattle.gv_store.specs.Reaching.{of_objects};

use crate::disk::{BLOCK_BYTES, Disk};
use crate::grow::Grow;
use crate::made::byte_cells;
use crate::store::Store;
use gv_base::{Answer, Reason, SliceVal};
use gv_cells::{Object, are_bytes, is_marked, run};
use gv_world::Cell;
use std::alloc::Global;

impl Store {
    /// How many blocks each disk has; 0 without a disk.
    pub fn disk_size(&self) -> u64
        ensures { result ≡ disks_of.disk_size self.now }
    {
        match self.disks.as_slice() {
            [disk, ..] => disk.len() as u64,
            [] => 0,
        }
    }

    /// Reads a block: a copy as a fresh object, whose number is given; none where the disk has failed.
    pub fn disk_read(
        &mut self,
        alloc: Global,
        disk: u64,
        block: u64,
    ) -> Result<Answer<Option<u32>>, Grow>
        ensures { GivesWithin (disks_of.disk_read self.old disk block) self.old result self.new }
    {
        let at = match disk_at(self.disks.as_slice(), disk, block) {
            Ok(at) => at,
            Err(reason) => return Ok(Answer::Undefined(reason)),
        };
        let found = &self.disks[at];
        if found.has_failed() {
            return Ok(Answer::Next(None));
        }
        let bytes = found.block(block as usize);
        if !self.has_room(bytes.len()) {
            return Err(Grow::TooMany);
        }
        match byte_cells(alloc, bytes) {
            Ok(cells) => match self.add(Object::of_cells(cells)) {
                Ok(number) => Ok(Answer::Next(Some(number))),
                Err(grow) => Err(grow),
            },
            Err(_) => Err(Grow::NoMemory),
        }
    }

    /// Writes the bytes of a slice as long as a block, whole and in one access; they are read, and each
    /// reason comes, on a disk that has failed too, which stays as it is.
    pub fn disk_write(&mut self, disk: u64, block: u64, slice: SliceVal) -> Answer<()>
        ensures { Does (disks_of.disk_write self.old disk block slice) self.old result self.new }
    {
        let found = match slice_run(self.objects.as_slice(), slice) {
            Ok(found) => found,
            Err(reason) => return Answer::Undefined(reason),
        };
        if !are_bytes(found) {
            return Answer::Undefined(Reason::Kind);
        }
        let at = match disk_at(self.disks.as_slice(), disk, block) {
            Ok(at) => at,
            Err(reason) => return Answer::Undefined(reason),
        };
        if let Err(reason) = whole(found, slice) {
            return Answer::Undefined(reason);
        }
        self.disks[at].write(block as usize, found);
        Answer::Next(())
    }

    /// Fails a disk, where there are two and neither has failed; else it can't be done.
    pub fn fail_disk(&mut self, disk: u32) -> Answer<()>
        ensures { Does (disks_of.fail_disk self.old disk) self.old result self.new }
    {
        let disk = disk as usize;
        if self.disks.len() != 2 || 2 <= disk || any_failed(self.disks.as_slice()) {
            return Answer::Blocked;
        }
        self.disks[disk].fail();
        Answer::Next(())
    }
}

// The place of a disk that has a block, or the reason why there is none.
fn disk_at(disks: &[Disk], disk: u64, block: u64) -> Result<usize, Reason>
    ensures ok { IfOk result (λ at. (at ≡ disk) × (at < length disks.now)) }
    ensures within { IfOk result (λ at. (d : world.Disk) → block < length (slice_index_or disks.now at d).blocks) }
    ensures err { IfErr result (λ reason. disks_of.found_disk (slice_get disks.now disk) block ≡ Undefined reason) }
{
    match disks.get(disk as usize) {
        Some(found) => {
            if found.len() as u64 <= block {
                return Err(Reason::BadAddress);
            }
            Ok(disk as usize)
        }
        None => Err(Reason::BadAddress),
    }
}

// Whether one of the disks has failed.
fn any_failed(disks: &[Disk]) -> bool
    ensures { result ≡ list_any (λ disk. disk.failed) disks.now }
{
    disks.iter().any(|d| d.has_failed())
}

// The cells of a slice, as many as there are; the nil slice has none, whatever its length.
fn slice_run(objects: &[Object], slice: SliceVal) -> Result<&[Cell], Reason>
    ensures answer { MatchResult result
        (λ cells. disks_of.slice_run (of_objects objects.now) slice ≡ Next cells.now)
        (λ reason. disks_of.slice_run (of_objects objects.now) slice ≡ Undefined reason) }
    ensures within { IfOk result (λ cells. length cells.now ≤ disks_of.length_of slice) }
{
    if slice.object == 0 {
        return Ok(&[]);
    }
    match objects.get(slice.object as usize - 1) {
        Some(object) => Ok(run(object.cells()?, slice.offset, 0, slice.length)),
        None => Err(Reason::Kind),
    }
}

// Whether the cells of a slice are a block's, and no write of one has begun; else the reason.
fn whole(cells: &[Cell], slice: SliceVal) -> Result<(), Reason>
    requires { length cells.now ≤ disks_of.length_of slice }
    ensures answer { MatchResult result
        (λ _. disks_of.whole cells.now slice ≡ Next cells.now)
        (λ reason. disks_of.whole cells.now slice ≡ Undefined reason) }
    ensures whole { OnOk result (length cells.now ≡ 4096) }
{
    let length = if slice.object == 0 { 0 } else { slice.length };
    if (cells.len() as u64) < length {
        return Err(Reason::OutOfRange);
    }
    if length != BLOCK_BYTES as u64 {
        return Err(Reason::BadBlockLength);
    }
    if is_marked(cells) {
        return Err(Reason::Race);
    }
    Ok(())
}
